// What a field of a datagram is made of, wherever it stands: its bytes, its padding, and whether its contents have the shape they must.
#![tactic(auto)]

mod contents;

ghost use Rattle.std.specs.Prelude.{◌≡◌, ◌<◌, get_or};
ghost use Rattle.wire_shapes.specs.Field.{gap};

pub use contents::{has_shape, is_array, is_entry, is_lookup, is_split};

// What a field's contents must look like.
#[derive(Clone, Copy)]
pub enum Shape {
    // Just so many bytes.
    Sized(usize),
    // Any bytes.
    Any,
    // A route entry.
    Entry,
    // LOOKUP's controls.
    Lookup,
    // AUTHORITY's split controls.
    Split,
    // An array of elements: their number, their size, how many at least and at most.
    Array(u16, u16, u16, u16),
}

// The byte at a place, 0 past the end.
pub fn byte(d: &[u8], at: usize) -> u8
    ensures { result ≡ get_or d.now at 0 }
{
    if at < d.len() { d[at] } else { 0 }
}

// How many bytes of padding follow a place.
pub fn padding(end: usize, padded: bool) -> usize
    ensures value { result ≡ gap padded end }
    ensures upper_bound { result < 4 }
{
    if padded { (4 - end % 4) % 4 } else { 0 }
}
