// The tick's round over the used places.
ghost use Rattle.std.specs.Prelude.{◌≡◌, cond, ◌+◌, ◌*◌, ◌≤◌, ◌<◌, length};
ghost use Rattle.octet.specs.Number.{digits_le};
ghost use Rattle.octet.specs.Part.{part, splice};
ghost use Rattle.table.specs.Rows.{rows, bytes_of, Laid};
ghost use Rattle.waiting.specs.Place.{id_of};
ghost use Rattle.waiting.specs.Tick.{one_less, id_bytes};
ghost use Rattle.waiting.specs.Ticking.{spent, ticked, listed};

// The place moves down to place number `kept`, where it does not stand there already.
fn move_place(table: &mut [u8], at: usize, kept: usize)
    requires { (kept ≤ at) × (at < 16) × (length table.old ≡ 2240) }
    ensures { table.new
        ≡ splice (140 * kept) (part (140 * at) 140 table.old) table.old }
{
    if kept == at {
        return;
    }
    runs::move_down(
        table,
        crate::PLACE_LEN * at,
        crate::PLACE_LEN * kept,
        crate::PLACE_LEN,
    );
}

// One place's part. With a try left it moves down to place number `kept`, with one try less, and its ID is listed.
fn tick_place(table: &mut [u8], at: usize, kept: usize, output: &mut [u8]) -> usize
    requires { (kept ≤ at) × (at < 16) × (length table.old ≡ 2240) × (64 ≤ length output.old) }
    ensures { (result ≡ cond (spent (part (140 * at) 140 table.old)) kept (kept + 1))
        × (table.new ≡ cond (spent (part (140 * at) 140 table.old)) table.old
        (splice (140 * kept) (one_less (part (140 * at) 140 table.old)) table.old))
        × (output.new ≡ cond (spent (part (140 * at) 140 table.old)) output.old
        (splice (4 * kept) (digits_le 256 4 (id_of (part (140 * at) 140 table.old)))
        output.old)) }
{
    let from = crate::PLACE_LEN * at;
    let to = crate::PLACE_LEN * kept;
    let tries = table[from + 5];
    if tries == 0 {
        return kept;
    }
    let id = octet::read_u32_le(table, from);
    octet::write_u32_le(output, 4 * kept, id);
    move_place(table, at, kept);
    table[to + 5] = tries - 1;
    kept + 1
}

// The used places after a tick, and the list of IDs in the first bytes of the output; how many are listed.
pub fn tick_places(table: &mut [u8], used: usize, output: &mut [u8]) -> usize
    requires { (used ≤ 16) × (length table.old ≡ 2240) × (64 ≤ length output.old) × Laid 140 used table.old }
    ensures { (result ≡ length (listed (rows 140 used table.old)))
        × (table.new ≡ bytes_of 2240 (ticked (rows 140 used table.old)))
        × (output.new
        ≡ splice 0 (id_bytes (listed (rows 140 used table.old))) output.old) }
{
    let mut kept = 0;
    for at in 0..used {
        kept = tick_place(table, at, kept, output);
    }
    let free = crate::PLACE_LEN * kept;
    runs::clear(table, free, crate::PLACE_LEN * used - free);
    kept
}
