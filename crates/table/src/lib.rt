// Rows of one width in a slice, the used ones first and zeros after them: a row inserted, removed and replaced, or, in a full
// table, exchanged for another. The cache has rows of 100 bytes, the waiting table rows of 140.
#![tactic(auto)]

mod exchange;

ghost use Rattle.std.specs.Prelude.{◌≡◌, ◌+◌, ◌*◌, ◌≤◌, ◌<◌, length, set};
ghost use Rattle.table.specs.Rows.{rows, bytes_of, Laid, insert_at, remove_at};

pub use exchange::{exchange_down, exchange_up};

// The row comes to stand at a place, and those from there on move up.
pub fn insert_row(s: &mut [u8], width: usize, used: usize, at: usize, row: &[u8])
    requires { (at ≤ used) × (length row.now ≡ width) × (width * used + width ≤ length s.old)
        × Laid width used s.old }
    ensures { s.new
        ≡ bytes_of (length s.old) (insert_at at row.now (rows width used s.old)) }
{
    let from = width * at;
    let end = width * used;
    runs::insert(s, from, end, row);
}

// The row at a place goes, those after it move down, and the last of them is cleared.
pub fn remove_row(s: &mut [u8], width: usize, used: usize, at: usize)
    requires { (at < used) × Laid width used s.old }
    ensures { s.new
        ≡ bytes_of (length s.old) (remove_at at (rows width used s.old)) }
{
    let from = width * at;
    let end = width * used;
    runs::remove(s, from, width, end);
}

// The row takes the place of another.
pub fn replace_row(s: &mut [u8], width: usize, used: usize, at: usize, row: &[u8])
    requires { (at < used) × (length row.now ≡ width) × Laid width used s.old }
    ensures { s.new
        ≡ bytes_of (length s.old) (set (rows width used s.old) at row.now) }
{
    let from = width * at;
    runs::copy_to(s, from, row);
}
