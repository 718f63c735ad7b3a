// FLOOD: controls; validate key; key token; CPA revoked; route entry; endpoints reached.
ghost use Rattle.std.specs.Prelude.{◌≡◌, ◌≤◌, length};
ghost use Rattle.wire_fields.specs.Kinds.{flood_kinds};
ghost use Rattle.wire_fields.specs.Reading.{fields_as};
ghost use Rattle.wire_fields.specs.Refusals.{found_of};
ghost use Rattle.wire_buffer.specs.Buffer.{flag_at};
ghost use Rattle.wire_read.specs.declared.Incoming.TheVariants as M;
ghost use Rattle.wire_read.specs.Readers.{or_six};
ghost use Rattle.wire_read.specs.Answers.{incoming_of};

use crate::messages::Flood;
use crate::values::{head, just_one};
use wire_buffer::flag;
use wire_fields::Cursor;

// D, the last bit of the controls' first two bytes.
fn silent(d: &[u8], controls: usize) -> bool
    ensures { result ≡ flag_at d.now controls 1 1 }
{
    flag(d, controls, 1, 1)
}

pub fn read_flood(d: &[u8]) -> Option<Flood>
    requires { 12 ≤ length d.now }
    ensures { or_six M.Flood result ≡ incoming_of d.now (found_of 4 (fields_as 4 flood_kinds d.now)) }
{
    let c = Cursor { at: 12 };
    let Some((controls, c)) = c.fixed(d, wire_numbers::FLOOD_CONTROLS, true, 3) else {
        return None;
    };
    let Some((validate, c)) = c.fixed(d, wire_numbers::VALIDATE, false, 32) else {
        return None;
    };
    let Some((token, c)) = c.any_or_none(d, wire_numbers::TOKEN, true) else {
        return None;
    };
    let Some((revoke, c)) = c.any_or_none(d, wire_numbers::REVOKED, true) else {
        return None;
    };
    let Some((entry, c)) = c.entry_or_none(d) else {
        return None;
    };
    let Some((reached, c)) = c.array_or_none(
        d,
        wire_numbers::ENDPOINTS,
        false,
        wire_numbers::ENDPOINT,
        wire_numbers::ENDPOINTS_EACH,
        wire_numbers::ENDPOINTS_LEAST,
        wire_numbers::ENDPOINTS_MOST,
    ) else {
        return None;
    };
    if c.at != d.len() {
        return None;
    }
    if !just_one(revoke, entry) {
        return None;
    }
    Some(Flood {
        head: head(d),
        d: silent(d, controls.start),
        validate: validate.start,
        token,
        revoke,
        entry,
        reached,
    })
}
