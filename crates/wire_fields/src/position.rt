// One field at a reading position: a method for each shape of field, small enough for the compiler to put it where it is
// used.
ghost use Rattle.std.specs.Prelude.{◌≡◌, true, false, ◌+◌, ◌<◌, ◌≤◌, length};
ghost use Rattle.wire_shapes.specs.Field.{number_at};
ghost use Rattle.wire_shapes.specs.declared.Shape.TheVariants.{Sized, Any, Entry, Array, Lookup, Split};
ghost use Rattle.wire_fields.specs.Reading.{span_at, need_at, maybe_at};

use crate::{Cursor, Place, Span};
use wire_shapes::{is_array, is_entry, is_lookup, is_split, padding};

// The number of two bytes, as a load and a swap, which the compiler compares with a number in one step.
fn two(d: &[u8], at: usize) -> u16
    requires { at + 2 ≤ length d.now }
    ensures { result ≡ number_at at 2 d.now }
{
    let swapped = octet::read_u16_le(d, at);
    swapped % 256 * 256 + swapped / 256
}

impl Cursor {
    // The field of a number at this position.
    fn span(self, d: &[u8], number: u16, padded: bool) -> Span
        ensures { result ≡ span_at d.now self.at number padded }
    {
        let at = self.at;
        if d.len() < 4 {
            return Span::Other;
        }
        if d.len() - 4 < at {
            return Span::Other;
        }
        if two(d, at) != number {
            return Span::Other;
        }
        let whole = two(d, at + 2) as usize;
        if whole < 4 {
            return Span::Cut;
        }
        let end = at + whole;
        let next = end + padding(end, padded);
        if d.len() < next {
            return Span::Cut;
        }
        let place = Place {
            start: at + 4,
            len: whole - 4,
        };
        Span::Whole(place, Cursor { at: next })
    }

    // A field of so many bytes that must be there: its number and its length are compared as one number.
    pub fn fixed(self, d: &[u8], number: u16, padded: bool, len: u16) -> Option<(Place, Cursor)>
        requires { len + 4 < 65536 }
        ensures { result ≡ need_at d.now self.at number padded (Sized len) }
    {
        let at = self.at;
        if d.len() < 4 {
            return None;
        }
        if d.len() - 4 < at {
            return None;
        }
        let whole = (len as usize) + 4;
        let past = at + whole;
        let next = past + padding(past, padded);
        if d.len() < next {
            return None;
        }
        let head = (number as u32) * 65536 + (whole as u32);
        if octet::read_u32(d, at) != head {
            return None;
        }
        let place = Place {
            start: at + 4,
            len: len as usize,
        };
        Some((place, Cursor { at: next }))
    }

    // A field of so many bytes that may be absent.
    pub fn fixed_or_none(
        self,
        d: &[u8],
        number: u16,
        padded: bool,
        wanted: usize,
    ) -> Option<(Option<Place>, Cursor)>
        ensures { result ≡ maybe_at d.now self.at number padded (Sized wanted) }
    {
        match self.span(d, number, padded) {
            Span::Whole(place, next) => {
                if place.len == wanted {
                    Some((Some(place), next))
                } else {
                    None
                }
            }
            Span::Other => Some((None, self)),
            Span::Cut => None,
        }
    }

    // Any bytes, which may be absent.
    pub fn any_or_none(self, d: &[u8], number: u16, padded: bool) -> Option<(Option<Place>, Cursor)>
        ensures { result ≡ maybe_at d.now self.at number padded Any }
    {
        match self.span(d, number, padded) {
            Span::Whole(place, next) => Some((Some(place), next)),
            Span::Other => Some((None, self)),
            Span::Cut => None,
        }
    }

    // A route entry, which may be absent.
    pub fn entry_or_none(self, d: &[u8]) -> Option<(Option<Place>, Cursor)>
        ensures { result ≡ maybe_at d.now self.at 0x9A true Entry }
    {
        match self.span(d, wire_numbers::ENTRY, true) {
            Span::Whole(place, next) => {
                if is_entry(d, place.start, place.len) {
                    Some((Some(place), next))
                } else {
                    None
                }
            }
            Span::Other => Some((None, self)),
            Span::Cut => None,
        }
    }

    // An array of elements, their number, their size, how many at least and at most, which must be there.
    pub fn array(
        self,
        d: &[u8],
        number: u16,
        element: u16,
        size: u16,
        least: u16,
        most: u16,
    ) -> Option<(Place, Cursor)>
        ensures { result ≡ need_at d.now self.at number false (Array element size least most) }
    {
        match self.span(d, number, false) {
            Span::Whole(place, next) => {
                if is_array(d, place.start, place.len, element, size, least, most) {
                    Some((place, next))
                } else {
                    None
                }
            }
            Span::Other => None,
            Span::Cut => None,
        }
    }

    // The same, which may be absent.
    pub fn array_or_none(
        self,
        d: &[u8],
        number: u16,
        padded: bool,
        element: u16,
        size: u16,
        least: u16,
        most: u16,
    ) -> Option<(Option<Place>, Cursor)>
        ensures { result ≡ maybe_at d.now self.at number padded (Array element size least most) }
    {
        match self.span(d, number, padded) {
            Span::Whole(place, next) => {
                if is_array(d, place.start, place.len, element, size, least, most) {
                    Some((Some(place), next))
                } else {
                    None
                }
            }
            Span::Other => Some((None, self)),
            Span::Cut => None,
        }
    }

    // LOOKUP's controls.
    pub fn controls(self, d: &[u8]) -> Option<(Place, Cursor)>
        ensures { result ≡ need_at d.now self.at 0x45 false Lookup }
    {
        match self.span(d, wire_numbers::LOOKUP_CONTROLS, false) {
            Span::Whole(place, next) => {
                if is_lookup(d, place.start, place.len) {
                    Some((place, next))
                } else {
                    None
                }
            }
            Span::Other => None,
            Span::Cut => None,
        }
    }

    // AUTHORITY's split controls.
    pub fn split(self, d: &[u8]) -> Option<(Place, Cursor)>
        ensures { result ≡ need_at d.now self.at 0x98 false Split }
    {
        match self.span(d, wire_numbers::SPLIT, false) {
            Span::Whole(place, next) => {
                if is_split(d, place.start, place.len) {
                    Some((place, next))
                } else {
                    None
                }
            }
            Span::Other => None,
            Span::Cut => None,
        }
    }
}
