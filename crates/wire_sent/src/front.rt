// What several of the datagrams have, each run of bytes right after the one before it.
ghost use Rattle.std.specs.Prelude.{◌≡◌, true, ◌+◌, ◌*◌, ◌<◌, ◌≤◌, length, get_or};
ghost use Rattle.octet.specs.Part.{part, splice};
ghost use Rattle.record.specs.Record.{record_form};
ghost use Rattle.wire_write.specs.Making.{formed_at};
ghost use Rattle.wire_sent.specs.Fronts.{word_field, acked_front, key_front, entry_field, entry_len};

use crate::Heading;
use wire_write::{put_head, put_header};

// A field of up to four bytes with its padding: a word behind its number and length.
pub(crate) fn put_word(out: &mut [u8], at: usize, number: u16, len: usize, word: u32)
    requires { (at + 8 ≤ length out.old) × (len + 4 < 65536) }
    ensures { out.new ≡ splice at (word_field number len word) out.old }
{
    put_head(out, at, number, len);
    octet::write_u32(out, at + 4, word);
}

// ACK and AUTHORITY: header and acked ID.
pub(crate) fn put_acked(out: &mut [u8], head: Heading, kind: u8, acked: u32)
    requires { 20 ≤ length out.old }
    ensures { out.new ≡ splice 0 (acked_front head.major head.minor kind head.id acked) out.old }
{
    put_header(out, head.major, head.minor, kind, head.id);
    put_word(out, 12, wire_numbers::ACKED, wire_numbers::ACKED_LEN, acked);
}

// FLOOD and INQUIRE: header, controls or flags, validate key.
pub(crate) fn put_keyed(
    out: &mut [u8],
    head: Heading,
    kind: u8,
    number: u16,
    len: usize,
    word: u32,
    key: &[u8],
)
    requires { (56 ≤ length out.old) × (len + 4 < 65536) × (length key.now ≡ 32) }
    ensures { out.new ≡ splice 0 (key_front head.major head.minor kind head.id number len word key.now) out.old }
{
    put_header(out, head.major, head.minor, kind, head.id);
    put_word(out, 12, number, len, word);
    put_head(out, 20, wire_numbers::VALIDATE, wire_numbers::KEY_LEN);
    runs::copy_block::<32>(out, 24, key, 0);
}

// Whether a record in form stands within a slice.
fn formed_in(s: &[u8], start: usize) -> bool
    ensures { result ≡ formed_at start s.now }
{
    if s.len() < 100 {
        return false;
    }
    if s.len() - 100 < start {
        return false;
    }
    record::is_formed(s, start)
}

// FLOOD and AUTHORITY: how many bytes the field of the route entry that carries the record at a place is, with its padding; 0 where
// no record in form stands there.
pub(crate) fn entry_len(s: &[u8], at: usize) -> usize
    ensures { result ≡ entry_len at s.now }
{
    if !formed_in(s, at) {
        return 0;
    }
    44 + 16 * (s[at + 34] as usize)
}

// That field, with the record at a place of a slice.
pub(crate) fn put_entry(out: &mut [u8], to: usize, major: u8, minor: u8, s: &[u8], at: usize)
    requires { (at + 100 ≤ length s.now) × (record_form (part at 100 s.now) ≡ true)
        × (to + 44 + 16 * get_or s.now (at + 34) 0 ≤ length out.old) }
    ensures { out.new ≡ splice to (entry_field major minor (part at 100 s.now)) out.old }
{
    let len = 38 + 16 * (s[at + 34] as usize);
    put_head(out, to, wire_numbers::ENTRY, len);
    record::put_entry(out, to + 4, major, minor, s, at);
    octet::write_u16(out, to + (len + 4), 0);
}
