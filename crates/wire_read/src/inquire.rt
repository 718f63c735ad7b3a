// INQUIRE: flags; validate key; nonce; credential, signature, key identifier.
ghost use Rattle.std.specs.Prelude.{◌≡◌, ◌≤◌, length};
ghost use Rattle.wire_fields.specs.Kinds.{inquire_kinds};
ghost use Rattle.wire_fields.specs.Reading.{fields_as};
ghost use Rattle.wire_fields.specs.Refusals.{found_of};
ghost use Rattle.wire_read.specs.declared.Incoming.TheVariants as M;
ghost use Rattle.wire_read.specs.Readers.{or_six};
ghost use Rattle.wire_read.specs.Answers.{incoming_of};

use crate::messages::Inquire;
use crate::values::head;
use wire_buffer::flag;
use wire_fields::Cursor;

pub fn read_inquire(d: &[u8]) -> Option<Inquire>
    requires { 12 ≤ length d.now }
    ensures { or_six M.Inquire result ≡ incoming_of d.now (found_of 7 (fields_as 7 inquire_kinds d.now)) }
{
    let c = Cursor { at: 12 };
    let Some((flags, c)) = c.fixed(d, wire_numbers::FLAGS, true, 2) else {
        return None;
    };
    let Some((validate, c)) = c.fixed(d, wire_numbers::VALIDATE, false, 32) else {
        return None;
    };
    let Some((nonce, c)) = c.fixed_or_none(d, wire_numbers::NONCE, false, wire_numbers::NONCE_LEN)
    else {
        return None;
    };
    let Some((credential, c)) = c.any_or_none(d, wire_numbers::CREDENTIAL, false) else {
        return None;
    };
    let Some((signature, c)) = c.any_or_none(d, wire_numbers::SIGNATURE, false) else {
        return None;
    };
    let Some((key, c)) = c.any_or_none(d, wire_numbers::KEY_ID, false) else {
        return None;
    };
    if c.at != d.len() {
        return None;
    }
    Some(Inquire {
        head: head(d),
        a: flag(d, flags.start, 1, 16),
        x: flag(d, flags.start, 1, 8),
        c: flag(d, flags.start, 1, 4),
        validate: validate.start,
        nonce,
        credential,
        signature,
        key,
    })
}
