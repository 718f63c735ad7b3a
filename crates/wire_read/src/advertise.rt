// ADVERTISE: acked ID; keys; hashed nonce.
ghost use Rattle.std.specs.Prelude.{◌≡◌, ◌≤◌, length};
ghost use Rattle.wire_fields.specs.Kinds.{advertise_kinds};
ghost use Rattle.wire_fields.specs.Reading.{fields_as};
ghost use Rattle.wire_fields.specs.Refusals.{found_of};
ghost use Rattle.wire_read.specs.declared.Incoming.TheVariants as M;
ghost use Rattle.wire_read.specs.Readers.{or_six};
ghost use Rattle.wire_read.specs.Answers.{incoming_of};

use crate::messages::Advertise;
use crate::values::head;
use wire_fields::Cursor;

pub fn read_advertise(d: &[u8]) -> Option<Advertise>
    requires { 12 ≤ length d.now }
    ensures { or_six M.Advertise result ≡ incoming_of d.now (found_of 2 (fields_as 2 advertise_kinds d.now)) }
{
    let c = Cursor { at: 12 };
    let (acked, c) = c.fixed(d, wire_numbers::ACKED, false, 4)?;
    let (keys, c) = c.array(
        d,
        wire_numbers::KEYS,
        wire_numbers::KEY,
        wire_numbers::KEYS_EACH,
        0,
        wire_numbers::KEYS_MOST,
    )?;
    let (nonce, c) = c.fixed(d, wire_numbers::HASHED, false, 20)?;
    if c.at != d.len() {
        return None;
    }
    Some(Advertise {
        head: head(d),
        acked: octet::read_u32(d, acked.start),
        keys: Some(keys),
        nonce: nonce.start,
    })
}
