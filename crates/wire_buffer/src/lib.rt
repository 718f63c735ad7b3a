// The buffer of an AUTHORITY: whether it is whole, its flags, and where its fields are.
#![tactic(auto)]

ghost use Rattle.std.specs.Prelude.{◌≡◌, ◌<◌};
ghost use Rattle.wire_fields.specs.Reading.{whole_in, FourAt};
ghost use Rattle.wire_buffer.specs.Buffer.{flag_at, buffer_at};

use wire_fields::{Cursor, Place};
use wire_shapes::byte;

// What the buffer of an AUTHORITY holds: flags, and where its fields are.
#[derive(Clone, Copy)]
pub struct Inside {
    pub l: bool,
    pub b: bool,
    pub n: bool,
    pub chain: Option<Place>,
    pub token: Option<Place>,
    pub classifier: Option<Place>,
    pub payload: Option<Place>,
    pub entry: Option<Place>,
    pub cpa: Option<Place>,
}

// Whether split controls follow from the rest: the size is the number of bytes after them and the offset is 0.
pub fn is_whole(d: &[u8], p: Option<Place>) -> bool
    requires { FourAt d.now p }
    ensures { result ≡ whole_in d.now p }
{
    let Some(place) = p else {
        return true;
    };
    if octet::read_u16(d, place.start) as usize != d.len() - (place.start + place.len) {
        return false;
    }
    octet::read_u16(d, place.start + 2) == 0
}

// The bit of a weight in the byte at a small offset from a place.
pub fn flag(d: &[u8], start: usize, offset: usize, weight: u8) -> bool
    requires { (offset < 4) × (0 < weight) }
    ensures { result ≡ flag_at d.now start offset weight }
{
    if d.len() <= start {
        return false;
    }
    byte(d, start + offset) / weight % 2 == 1
}

// The buffer that stands from a position to the end of any slice, unless it is malformed.
pub fn read_buffer(d: &[u8], c: Cursor) -> Option<Inside>
    ensures { result ≡ buffer_at d.now c.at }
{
    let Some((flags, c)) = c.fixed(d, wire_numbers::FLAGS, true, 2) else {
        return None;
    };
    let Some((chain, c)) = c.any_or_none(d, wire_numbers::CREDENTIAL, true) else {
        return None;
    };
    let Some((token, c)) = c.any_or_none(d, wire_numbers::TOKEN, true) else {
        return None;
    };
    let Some((classifier, c)) = c.array_or_none(
        d,
        wire_numbers::CODES,
        true,
        wire_numbers::CODE,
        wire_numbers::CODES_EACH,
        0,
        wire_numbers::CODES_MOST,
    ) else {
        return None;
    };
    let Some((payload, c)) = c.any_or_none(d, wire_numbers::PAYLOAD, true) else {
        return None;
    };
    let Some((entry, c)) = c.entry_or_none(d) else {
        return None;
    };
    let Some((cpa, c)) = c.any_or_none(d, wire_numbers::CPA, false) else {
        return None;
    };
    if c.at != d.len() {
        return None;
    }
    Some(Inside {
        l: flag(d, flags.start, 0, 2),
        b: flag(d, flags.start, 1, 8),
        n: flag(d, flags.start, 1, 1),
        chain,
        token,
        classifier,
        payload,
        entry,
        cpa,
    })
}
