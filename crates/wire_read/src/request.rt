// REQUEST: flags; split controls; nonce; keys; credential, signature, key identifier.
ghost use Rattle.std.specs.Prelude.{◌≡◌, ◌≤◌, length};
ghost use Rattle.wire_fields.specs.Kinds.{request_kinds};
ghost use Rattle.wire_fields.specs.Reading.{fields_as};
ghost use Rattle.wire_fields.specs.Refusals.{found_of};
ghost use Rattle.wire_read.specs.declared.Incoming.TheVariants as M;
ghost use Rattle.wire_read.specs.Readers.{or_six};
ghost use Rattle.wire_read.specs.Answers.{incoming_of};

use crate::messages::Request;
use crate::values::head;
use wire_buffer::is_whole;
use wire_fields::Cursor;

pub fn read_request(d: &[u8]) -> Option<Request>
    requires { 12 ≤ length d.now }
    ensures { or_six M.Request result ≡ incoming_of d.now (found_of 3 (fields_as 3 request_kinds d.now)) }
{
    let c = Cursor { at: 12 };
    let Some((flags, c)) = c.fixed_or_none(d, wire_numbers::FLAGS, true, wire_numbers::FLAGS_LEN)
    else {
        return None;
    };
    let Some((split, c)) = c.fixed_or_none(d, wire_numbers::SPLIT, false, wire_numbers::SPLIT_LEN)
    else {
        return None;
    };
    let Some((nonce, c)) = c.fixed(d, wire_numbers::NONCE, false, 16) else {
        return None;
    };
    let Some((keys, c)) = c.array(
        d,
        wire_numbers::KEYS,
        wire_numbers::KEY,
        wire_numbers::KEYS_EACH,
        0,
        wire_numbers::KEYS_MOST,
    ) else {
        return None;
    };
    let Some((credential, c)) = c.any_or_none(d, wire_numbers::CREDENTIAL, false) else {
        return None;
    };
    let Some((signature, c)) = c.any_or_none(d, wire_numbers::SIGNATURE, false) else {
        return None;
    };
    let Some((key, c)) = c.any_or_none(d, wire_numbers::KEY_ID, false) else {
        return None;
    };
    if c.at != d.len() {
        return None;
    }
    if !is_whole(d, split) {
        return None;
    }
    Some(Request {
        head: head(d),
        flags: flags.is_some(),
        split: split.is_some(),
        nonce: nonce.start,
        keys: Some(keys),
        credential,
        signature,
        key,
    })
}
