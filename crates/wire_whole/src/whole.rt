// A whole message: where it ends, its header, its fields.
ghost use Rattle.std.specs.Prelude.{◌≡◌, true, cond, ◌&&◌, ◌+◌, ◌<◌, ◌≤◌, min, leb, length};
ghost use Rattle.octet.specs.Part.{splice};
ghost use Rattle.wire_fields.specs.Message.{layout_from, message_bytes};
ghost use Rattle.wire_write.specs.Writing.{Wrote, fit};
ghost use Rattle.wire_write.specs.Pieces.{lent_of, past_of, AllIn, givens_of, contents_of, kinds_of_rows, end_rows, made_by};

use wire_shapes::padding;
use wire_write::{Piece, Row, Written, pieces_ok, put_header, put_piece};

// The place past a field of so many bytes; 1233 for any that is past 1232.
fn past(at: usize, padded: bool, len: usize) -> usize
    ensures { result ≡ min 1233 (past_of at true padded len) }
{
    if 1232 < at {
        return 1233;
    }
    if 1232 < len {
        return 1233;
    }
    let end = at + (len + 4);
    let next = end + padding(end, padded);
    if 1232 < next {
        return 1233;
    }
    next
}

// The same of a piece, where it is there.
fn piece_past(at: usize, row: Row, p: Piece) -> usize
    requires { at ≤ 1233 }
    ensures { result ≡ min 1233 (past_of at p.there row.padded p.len) }
{
    if !p.there {
        return at;
    }
    past(at, row.padded, p.len)
}

// Where the fields end; 1233 for any place past 1232.
fn pieces_end(rows: [Row; 9], ps: [Piece; 9]) -> usize
    requires { (length rows ≡ 9) × (length ps ≡ 9) }
    ensures { result ≡ min 1233 (end_rows 12 rows ps) }
{
    let mut at = 12;
    for i in 0..9 {
        let row = rows[i];
        let p = ps[i];
        at = piece_past(at, row, p);
    }
    at
}

// All fields, from place 12 on.
fn put_pieces(
    out: &mut [u8],
    rows: [Row; 9],
    ps: [Piece; 9],
    spelled: &[u8],
    first: &[u8],
    second: &[u8],
)
    requires rows_len { (length rows ≡ 9) × (length ps ≡ 9) }
    requires all_in { AllIn (lent_of spelled.now first.now second.now) ps }
    requires ps_in_bounds { end_rows 12 rows ps ≤ length out.old }
    requires ps_bound { end_rows 12 rows ps < 65536 }
    ensures { out.new ≡ splice 12 (message_bytes (layout_from 12 (kinds_of_rows rows)
        (contents_of (givens_of (lent_of spelled.now first.now second.now) ps)))) out.old }
{
    let mut at = 12;
    for i in 0..9 {
        let row = rows[i];
        let p = ps[i];
        at = put_piece(out, at, row, p, spelled, first, second);
    }
}

// Does a message of so many bytes fit the output and a datagram?
fn has_room(out: &[u8], size: usize) -> bool
    ensures { result ≡ leb size (length out.now) && leb size 1232 }
{
    if out.len() < size {
        return false;
    }
    size <= 1232
}

// Header and fields at the start of an output that has room; one that has none is left alone.
fn put_where(
    out: &mut [u8],
    room: bool,
    major: u8,
    minor: u8,
    kind: u8,
    id: u32,
    rows: [Row; 9],
    ps: [Piece; 9],
    spelled: &[u8],
    first: &[u8],
    second: &[u8],
)
    requires rows_len { (length rows ≡ 9) × (length ps ≡ 9) }
    requires all_in { AllIn (lent_of spelled.now first.now second.now) ps }
    requires out_value { room ≡ true → fit (made_by major minor kind id (lent_of spelled.now first.now second.now) rows ps).bytes
        out.old ≡ true }
    ensures { out.new ≡ cond room (splice 0 (made_by major minor kind id (lent_of spelled.now
        first.now second.now) rows ps).bytes out.old) out.old }
{
    if !room {
        return;
    }
    put_header(out, major, minor, kind, id);
    put_pieces(out, rows, ps, spelled, first, second);
}

// What is answered for a message whose fields are right.
fn written(room: bool, size: usize) -> Written
    ensures { result ≡ cond room (record { number = 0; length = size }) (record { number = 15; length = 0 }) }
{
    if room {
        return Written {
            number: 0,
            length: size,
        };
    }
    Written {
        number: 15,
        length: 0,
    }
}

// A message of any type, at the start of the output.
pub fn write_rows(
    out: &mut [u8],
    major: u8,
    minor: u8,
    kind: u8,
    id: u32,
    rows: [Row; 9],
    ps: [Piece; 9],
    spelled: &[u8],
    first: &[u8],
    second: &[u8],
) -> Written
    requires { (length rows ≡ 9) × (length ps ≡ 9) }
    ensures { Wrote (made_by major minor kind id (lent_of spelled.now first.now second.now) rows ps)
        out.old result out.new }
{
    if !pieces_ok(rows, ps, spelled, first, second) {
        return Written {
            number: 6,
            length: 0,
        };
    }
    let size = pieces_end(rows, ps);
    let room = has_room(out, size);
    put_where(
        out, room, major, minor, kind, id, rows, ps, spelled, first, second,
    );
    written(room, size)
}
