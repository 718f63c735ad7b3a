// The record of document 01, 100 bytes: key 32, port 2, address count 1, one zero byte, four addresses of 16, of which all
// but the first are zero (document 02, request 13); and the route entry that names it on the wire, with one to four. A place is one that its caller has tested to lie within.
#![tactic(auto)]

mod entry;
mod piece;

ghost use Rattle.std.specs.Prelude.{◌≡◌, ◌+◌, ◌≤◌, length};
ghost use Rattle.octet.specs.Part.{part, all_zero};
ghost use Rattle.record.specs.Record.{record_form};

pub use entry::{put_entry, put_record, same_as_entry};
pub use piece::{copy_piece, same_piece};

// How many bytes a record has.
pub const RECORD_LEN: usize = 100;

// Is the slice a record in form?
pub fn is_record(r: &[u8]) -> bool
    ensures { result ≡ record_form r.now }
{
    if r.len() != RECORD_LEN {
        return false;
    }
    is_formed(r, 0)
}

// Are the 24 bytes from a place on all zero? Three words: more of them the compiler would join in wide registers and fold.
fn zero_three(s: &[u8], at: usize) -> bool
    requires { at + 24 ≤ length s.now }
    ensures { result ≡ all_zero (part at 24 s.now) }
{
    let x = octet::read_u64_le(s, at);
    let y = octet::read_u64_le(s, at + 8);
    let z = octet::read_u64_le(s, at + 16);
    (x == 0) & (y == 0) & (z == 0)
}

// Are the 100 bytes at a place a record in form? Count and zero byte are one number; the three addresses that there are
// no more are looked at in two halves.
pub fn is_formed(s: &[u8], at: usize) -> bool
    requires { at + 100 ≤ length s.now }
    ensures { result ≡ record_form (part at 100 s.now) }
{
    let count = octet::read_u16_le(s, at + 34);
    if count != 1 {
        return false;
    }
    if !zero_three(s, at + 52) {
        return false;
    }
    zero_three(s, at + 76)
}
