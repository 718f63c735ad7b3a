// A place opened, and a place freed.
ghost use Rattle.std.specs.Prelude.{◌≡◌, ◌<◌, length};
ghost use Rattle.table.specs.Rows.{rows, bytes_of, Laid};
ghost use Rattle.waiting.specs.Place.{new_place};
ghost use Rattle.waiting.specs.Open.{opened, freed};

use crate::seek::slot;

// Writes the fields of a place.
fn write_place(place: &mut [u8], id: u32, kind: u8, tries: u8, key: &[u8], held: &[u8])
    requires { (length place.old ≡ 140) × (length key.now ≡ 32) × (length held.now ≡ 100) }
    ensures { place.new ≡ new_place id kind tries key.now held.now }
{
    let head = [kind, tries, 0, 0];
    octet::write_u32_le(place, 0, id);
    runs::copy_to(place, 4, &head);
    runs::copy_to(place, 8, key);
    runs::copy_to(place, 40, held);
}

// Opens a place where its ID belongs.
pub fn open(table: &mut [u8], used: usize, id: u32, kind: u8, tries: u8, key: &[u8], held: &[u8])
    requires { (used < 16) × (length table.old ≡ 2240) × Laid 140 used table.old
        × (length key.now ≡ 32) × (length held.now ≡ 100) }
    ensures { table.new
        ≡ bytes_of 2240 (opened (new_place id kind tries key.now held.now)
        (rows 140 used table.old)) }
{
    let at = slot(table, used, id);
    let mut place = [0u8; crate::PLACE_LEN];
    write_place(&mut place, id, kind, tries, key, held);
    table::insert_row(table, crate::PLACE_LEN, used, at, &place);
}

// Frees the place number `at`.
pub fn free(table: &mut [u8], used: usize, at: usize)
    requires { (at < used) × (length table.old ≡ 2240) × Laid 140 used table.old }
    ensures { table.new ≡ bytes_of 2240 (freed at (rows 140 used table.old)) }
{
    table::remove_row(table, crate::PLACE_LEN, used, at);
}
