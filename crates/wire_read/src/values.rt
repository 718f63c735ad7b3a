// Flags, numbers and presence at the places of fields.
ghost use Rattle.std.specs.Prelude.{◌≡◌, ◌+◌, ◌<◌, ◌≤◌, get_or, length};
ghost use Rattle.wire_fields.specs.Kinds.{one_of};
ghost use Rattle.wire_read.specs.Answers.{is_here, part_flag, head_of, precision_at};

use crate::Head;
use wire_buffer::flag;
use wire_fields::Place;
use wire_shapes::byte;

// The bit of a weight in a field, clear where it is absent.
pub(crate) fn flag_in(d: &[u8], p: Option<Place>, offset: usize, weight: u8) -> bool
    requires { (offset < 4) × (0 < weight) }
    ensures { result ≡ part_flag d.now p offset weight }
{
    let Some(place) = p else {
        return false;
    };
    flag(d, place.start, offset, weight)
}

// The byte at a small offset from a place.
pub(crate) fn byte_from(d: &[u8], start: usize, offset: usize) -> u8
    requires { offset < 8 }
    ensures { result ≡ get_or d.now (start + offset) 0 }
{
    if d.len() <= start {
        return 0;
    }
    byte(d, start + offset)
}

// LOOKUP's precision: 0 unless the criteria are 8.
pub(crate) fn precision(d: &[u8], start: usize) -> u16
    ensures { result ≡ precision_at d.now start }
{
    if byte_from(d, start, 4) != 8 {
        return 0;
    }
    let high = byte_from(d, start, 2) as u16;
    let low = byte_from(d, start, 3) as u16;
    high * 256 + low
}

// Whether just one of two fields is there.
pub(crate) fn just_one(p: Option<Place>, q: Option<Place>) -> bool
    ensures { result ≡ one_of (is_here p) (is_here q) }
{
    p.is_some() != q.is_some()
}

// The minor version and the message ID.
pub(crate) fn head(d: &[u8]) -> Head
    requires { 12 ≤ length d.now }
    ensures { result ≡ head_of d.now }
{
    Head {
        minor: d[6],
        id: octet::read_u32(d, 8),
    }
}
