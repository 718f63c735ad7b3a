// Whether pieces are right for their rows: each stands within its slice and has the shape, or may be absent.
ghost use Rattle.std.specs.Prelude.{◌≡◌, ◌&&◌, ◌+◌, leb, length};
ghost use Rattle.octet.specs.Part.{part};
ghost use Rattle.wire_shapes.specs.Shapes.{has_shape};
ghost use Rattle.wire_write.specs.Pieces.{lent_of, piece_ok, rows_ok};

use crate::{Piece, Row, Source};
use wire_shapes::{Shape, has_shape};

// Whether contents stand within a slice and have a shape.
fn shaped_in(s: &[u8], start: usize, len: usize, shape: Shape) -> bool
    ensures { result ≡ leb (start + len) (length s.now) && has_shape shape (part start len s.now) }
{
    if s.len() < len {
        return false;
    }
    if s.len() - len < start {
        return false;
    }
    has_shape(s, start, len, shape)
}

fn piece_ok(row: Row, p: Piece, spelled: &[u8], first: &[u8], second: &[u8]) -> bool
    ensures { result ≡ piece_ok (lent_of spelled.now first.now second.now) row p }
{
    if !p.there {
        return row.optional;
    }
    let shape = row.shape;
    let source = p.source;
    match source {
        Source::Spelled => shaped_in(spelled, p.start, p.len, shape),
        Source::First => shaped_in(first, p.start, p.len, shape),
        Source::Second => shaped_in(second, p.start, p.len, shape),
    }
}

pub fn pieces_ok(
    rows: [Row; 9],
    ps: [Piece; 9],
    spelled: &[u8],
    first: &[u8],
    second: &[u8],
) -> bool
    requires { (length rows ≡ 9) × (length ps ≡ 9) }
    ensures { result ≡ rows_ok (lent_of spelled.now first.now second.now) rows ps }
{
    for i in 0..9 {
        let row = rows[i];
        let p = ps[i];
        if !piece_ok(row, p, spelled, first, second) {
            return false;
        }
    }
    true
}
