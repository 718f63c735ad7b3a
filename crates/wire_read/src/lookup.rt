// LOOKUP: controls; target key; validate key; route entry; path; credential, signature, key identifier.
ghost use Rattle.std.specs.Prelude.{◌≡◌, ◌≤◌, drop, length};
ghost use Rattle.wire_fields.specs.Kinds.{lookup_kinds};
ghost use Rattle.wire_fields.specs.Reading.{places_at, fields_as};
ghost use Rattle.wire_fields.specs.Refusals.{found_of};
ghost use Rattle.wire_read.specs.declared.Incoming.TheVariants as M;
ghost use Rattle.wire_read.specs.Readers.{or_six};
ghost use Rattle.wire_read.specs.Answers.{incoming_of, lookup_behind};

use crate::messages::Lookup;
use crate::values::{byte_from, head, precision};
use wire_buffer::flag;
use wire_fields::Cursor;

pub fn read_lookup(d: &[u8]) -> Option<Lookup>
    requires { 12 ≤ length d.now }
    ensures { or_six M.Lookup result ≡ incoming_of d.now (found_of 11 (fields_as 11 lookup_kinds d.now)) }
{
    let c = Cursor { at: 12 };
    let Some((controls, c)) = c.controls(d) else {
        return None;
    };
    let Some((target, c)) = c.fixed(d, wire_numbers::TARGET, false, 32) else {
        return None;
    };
    let Some((validate, c)) = c.fixed(d, wire_numbers::VALIDATE, false, 32) else {
        return None;
    };
    lookup_behind(d, controls.start, target.start, validate.start, c)
}

// The fields behind the first three, of which these are the places, from a position to the end. (A function of its own:
// so many fields in one, and the compiler would call the last instead of putting them in their place.)
fn lookup_behind(
    d: &[u8],
    controls: usize,
    target: usize,
    validate: usize,
    c: Cursor,
) -> Option<Lookup>
    requires { 12 ≤ length d.now }
    ensures { or_six M.Lookup result ≡ lookup_behind d.now controls target validate
        (places_at (drop 3 lookup_kinds) d.now c.at) }
{
    let Some((entry, c)) = c.entry_or_none(d) else {
        return None;
    };
    let Some((path, c)) = c.array(
        d,
        wire_numbers::ENDPOINTS,
        wire_numbers::ENDPOINT,
        wire_numbers::ENDPOINTS_EACH,
        wire_numbers::ENDPOINTS_LEAST,
        wire_numbers::ENDPOINTS_MOST,
    ) else {
        return None;
    };
    let Some((credential, c)) = c.any_or_none(d, wire_numbers::CREDENTIAL, false) else {
        return None;
    };
    let Some((signature, c)) = c.any_or_none(d, wire_numbers::SIGNATURE, false) else {
        return None;
    };
    let Some((key, c)) = c.any_or_none(d, wire_numbers::KEY_ID, false) else {
        return None;
    };
    if c.at != d.len() {
        return None;
    }
    Some(Lookup {
        head: head(d),
        a: flag(d, controls, 1, 2),
        precision: precision(d, controls),
        criteria: byte_from(d, controls, 4),
        reason: byte_from(d, controls, 5),
        target,
        validate,
        entry,
        path: Some(path),
        credential,
        signature,
        key,
    })
}
