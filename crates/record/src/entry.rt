// A record beside the route entry that names it: compared and made, piece by piece.
ghost use Rattle.std.specs.Prelude.{◌≡◌, true, ◌+◌, ◌*◌, ◌≤◌, length, get_or};
ghost use Rattle.octet.specs.Part.{part, same, splice};
ghost use Rattle.record.specs.Entry.{entry_form, record_of, entry_of};
ghost use Rattle.record.specs.Record.{record_form};

use crate::piece::{copy_piece, same_piece};

// Are the 100 bytes at a place the very record that a route entry names, by its first address? Most differ in the first
// word of their keys.
pub fn same_as_entry(s: &[u8], at: usize, d: &[u8], start: usize, len: usize) -> bool
    requires at_in_bounds { at + 100 ≤ length s.now }
    requires len_in_bounds { start + len ≤ length d.now }
    requires d_value { entry_form (part start len d.now) ≡ true }
    ensures { result ≡ same (part at 100 s.now) (record_of (part start len d.now)) }
{
    if !octet::equal_words(s, at, d, start, 4) {
        return false;
    }
    if !same_piece(s, at + 32, d, start + 34, 2) {
        return false;
    }
    if s[at + 34] != 1 {
        return false;
    }
    if s[at + 35] != 0 {
        return false;
    }
    if !octet::equal_words(s, at + 36, d, start + 38, 2) {
        return false;
    }
    octet::zero_words(s, at + 52, 6)
}

// Writes the record that a route entry names: of its addresses the first.
pub fn put_record(dst: &mut [u8], at: usize, d: &[u8], start: usize, len: usize)
    requires at_in_bounds { at + 100 ≤ length dst.old }
    requires len_in_bounds { start + len ≤ length d.now }
    requires d_value { entry_form (part start len d.now) ≡ true }
    ensures { dst.new ≡ splice at (record_of (part start len d.now)) dst.old }
{
    runs::copy_block::<32>(dst, at, d, start);
    copy_piece(dst, at + 32, d, start + 34, 2);
    let two = [1, 0];
    runs::copy_to(dst, at + 34, &two);
    copy_piece(dst, at + 36, d, start + 38, 16);
    runs::clear(dst, at + 52, 48);
}

// Writes the route entry of the given versions that carries the record at a place.
pub fn put_entry(dst: &mut [u8], at: usize, major: u8, minor: u8, s: &[u8], start: usize)
    requires start_in_bounds { start + 100 ≤ length s.now }
    requires s_value { record_form (part start 100 s.now) ≡ true }
    requires start_in_bounds_2 { at + 38 + 16 * get_or s.now (start + 34) 0 ≤ length dst.old }
    ensures { dst.new ≡ splice at (entry_of major minor (part start 100 s.now)) dst.old }
{
    let count = s[start + 34];
    runs::copy_block::<32>(dst, at, s, start);
    let versions = [major, minor];
    runs::copy_to(dst, at + 32, &versions);
    copy_piece(dst, at + 34, s, start + 32, 2);
    let rest = [0, count];
    runs::copy_to(dst, at + 36, &rest);
    copy_piece(dst, at + 38, s, start + 36, 16 * (count as usize));
}
