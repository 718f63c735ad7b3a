// One field written at a place of the output.
ghost use Rattle.std.specs.Prelude.{◌≡◌, true, ◌++◌, ◌+◌, ◌<◌, ◌≤◌, length, replicate};
ghost use Rattle.octet.specs.Number.{digits_be};
ghost use Rattle.octet.specs.Part.{part, splice};
ghost use Rattle.wire_shapes.specs.Field.{gap};
ghost use Rattle.wire_write.specs.Pieces.{lent_of, field_bytes, end_of, part_bytes, past_of, PieceIn, piece_bytes};

use crate::{Piece, Row, Source};
use wire_shapes::padding;

// A field's number and its length.
pub fn put_head(out: &mut [u8], at: usize, number: u16, len: usize)
    requires { (at + 4 ≤ length out.old) × (len + 4 < 65536) }
    ensures { out.new ≡ splice at (digits_be 256 2 number ++ digits_be 256 2 (len + 4)) out.old }
{
    octet::write_u16(out, at, number);
    octet::write_u16(out, at + 2, (len + 4) as u16);
}

// The padding after a field; the place past it.
fn put_gap(out: &mut [u8], end: usize, padded: bool) -> usize
    requires { end + gap padded end ≤ length out.old }
    ensures value { result ≡ end + gap padded end }
    ensures out_after { out.new ≡ splice end (replicate (gap padded end) 0) out.old }
{
    let n = padding(end, padded);
    runs::clear(out, end, n);
    end + n
}

// A field whose contents are a piece of a slice.
fn put_bytes(
    out: &mut [u8],
    at: usize,
    number: u16,
    padded: bool,
    s: &[u8],
    start: usize,
    len: usize,
) -> usize
    requires len_in_bounds { start + len ≤ length s.now }
    requires len_bound { len + 4 < 65536 }
    requires len_in_bounds_2 { end_of at padded len ≤ length out.old }
    ensures value { result ≡ end_of at padded len }
    ensures out_after { out.new ≡ splice at (field_bytes at number padded (part start len s.now)) out.old }
{
    put_head(out, at, number, len);
    record::copy_piece(out, at + 4, s, start, len);
    put_gap(out, at + (len + 4), padded)
}

// A field of any of the three slices, where it is there.
pub fn put_piece(
    out: &mut [u8],
    at: usize,
    row: Row,
    p: Piece,
    spelled: &[u8],
    first: &[u8],
    second: &[u8],
) -> usize
    requires piece_in { PieceIn (lent_of spelled.now first.now second.now) p }
    requires len_in_bounds { past_of at p.there row.padded p.len ≤ length out.old }
    requires len_bound { p.there ≡ true → p.len + 4 < 65536 }
    ensures value { result ≡ past_of at p.there row.padded p.len }
    ensures out_after { out.new ≡ splice at (part_bytes at p.there row.number row.padded
        (piece_bytes (lent_of spelled.now first.now second.now) p)) out.old }
{
    if !p.there {
        return at;
    }
    let source = p.source;
    match source {
        Source::Spelled => put_bytes(out, at, row.number, row.padded, spelled, p.start, p.len),
        Source::First => put_bytes(out, at, row.number, row.padded, first, p.start, p.len),
        Source::Second => put_bytes(out, at, row.number, row.padded, second, p.start, p.len),
    }
}
