// Walks over the used places.
ghost use Rattle.std.specs.Prelude.{◌≡◌, ◌+◌, ◌*◌, ◌≤◌, length, drop};
ghost use Rattle.octet.specs.Part.{part};
ghost use Rattle.key.specs.Number.{key_at};
ghost use Rattle.table.specs.Rows.{rows, any_of};
ghost use Rattle.table.specs.Seek.{seek};
ghost use Rattle.waiting.specs.Form.{is_inquiry};
ghost use Rattle.waiting.specs.Seek.{is_at, has_id};
ghost use Rattle.waiting.specs.Slot.{slot_in};

// The place with the ID and the kind.
pub fn find(table: &[u8], used: usize, id: u32, kind: u8) -> Option<usize>
    requires { 140 * used ≤ length table.now }
    ensures { result ≡ seek (is_at id kind) 0 (rows 140 used table.now) }
{
    for at in 0..used {
        let from = crate::PLACE_LEN * at;
        let this = octet::read_u32_le(table, from);
        if (this == id) & (table[from + 4] == kind) {
            return Some(at);
        }
    }
    None
}

// Is the ID waiting, for an answer of either kind?
pub fn has_id(table: &[u8], used: usize, id: u32) -> bool
    requires { 140 * used ≤ length table.now }
    ensures { result ≡ any_of (has_id id) (rows 140 used table.now) }
{
    for at in 0..used {
        let this = octet::read_u32_le(table, crate::PLACE_LEN * at);
        if this == id {
            return true;
        }
    }
    false
}

// Is the place that begins there an inquiry for the key at a place of a slice? Most differ in the first word of the key.
fn is_inquiry(table: &[u8], from: usize, key: &[u8], place: usize) -> bool
    requires { (from + 140 ≤ length table.now) × (place + 32 ≤ length key.now) }
    ensures { result ≡ is_inquiry (key_at place key.now) (part from 140 table.now) }
{
    if !key::same_at(table, from + 8, key, place) {
        return false;
    }
    table[from + 4] == 2
}

// From place number `start` on, the inquiry for the key at a place of a slice.
pub fn find_inquiry(
    table: &[u8],
    start: usize,
    used: usize,
    key: &[u8],
    place: usize,
) -> Option<usize>
    requires { (start ≤ used) × (140 * used ≤ length table.now) × (place + 32 ≤ length key.now) }
    ensures { result
        ≡ seek (is_inquiry (key_at place key.now)) start (drop start (rows 140 used table.now)) }
{
    for at in start..used {
        if is_inquiry(table, crate::PLACE_LEN * at, key, place) {
            return Some(at);
        }
    }
    None
}

// How many places stand before the first whose ID is not lower.
pub(crate) fn slot(table: &[u8], used: usize, id: u32) -> usize
    requires { 140 * used ≤ length table.now }
    ensures { result ≡ slot_in id (rows 140 used table.now) }
{
    for at in 0..used {
        let this = octet::read_u32_le(table, crate::PLACE_LEN * at);
        if id <= this {
            return at;
        }
    }
    used
}
