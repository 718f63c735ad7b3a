// In a full table of rows of 100 bytes one row goes and another comes: the rows between the two places move by one, and no other does.
ghost use Rattle.std.specs.Prelude.{◌≡◌, ◌*◌, ◌≤◌, ◌<◌, length};
ghost use Rattle.table.specs.Rows.{rows, bytes_of, insert_at, remove_at};

// The row at one place goes, those after it move down, and another comes to stand at a place behind them.
pub fn exchange_up(s: &mut [u8], used: usize, gone: usize, at: usize, row: &[u8])
    requires { (gone ≤ at) × (at < used) × (length row.now ≡ 100) × (length s.old ≡ 100 * used) }
    ensures { s.new ≡ bytes_of (length s.old)
        (insert_at at row.now (remove_at gone (rows 100 used s.old))) }
{
    let to = 100 * gone;
    runs::move_down(s, to + 100, to, 100 * (at - gone));
    runs::copy_to(s, 100 * at, row);
}

// The same where it comes to stand at a place before the one that goes, and those between them move up.
pub fn exchange_down(s: &mut [u8], used: usize, gone: usize, at: usize, row: &[u8])
    requires { (at ≤ gone) × (gone < used) × (length row.now ≡ 100) × (length s.old ≡ 100 * used) }
    ensures { s.new ≡ bytes_of (length s.old)
        (insert_at at row.now (remove_at gone (rows 100 used s.old))) }
{
    let from = 100 * at;
    runs::move_up(s, from, from + 100, 100 * (gone - at));
    runs::copy_to(s, from, row);
}
