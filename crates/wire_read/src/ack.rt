// ACK: acked ID; flags.
ghost use Rattle.std.specs.Prelude.{◌≡◌, ◌≤◌, length};
ghost use Rattle.wire_fields.specs.Kinds.{ack_kinds};
ghost use Rattle.wire_fields.specs.Reading.{fields_as};
ghost use Rattle.wire_fields.specs.Refusals.{found_of};
ghost use Rattle.wire_read.specs.declared.Incoming.TheVariants as M;
ghost use Rattle.wire_read.specs.Readers.{or_six};
ghost use Rattle.wire_read.specs.Answers.{incoming_of};

use crate::messages::Ack;
use crate::values::{flag_in, head};
use wire_fields::Cursor;

pub fn read_ack(d: &[u8]) -> Option<Ack>
    requires { 12 ≤ length d.now }
    ensures { or_six M.Ack result ≡ incoming_of d.now (found_of 9 (fields_as 9 ack_kinds d.now)) }
{
    let c = Cursor { at: 12 };
    let (acked, c) = c.fixed(d, wire_numbers::ACKED, false, 4)?;
    let Some((flags, c)) = c.fixed_or_none(d, wire_numbers::FLAGS, false, wire_numbers::FLAGS_LEN)
    else {
        return None;
    };
    if c.at != d.len() {
        return None;
    }
    Some(Ack {
        head: head(d),
        acked: octet::read_u32(d, acked.start),
        flags: flags.is_some(),
        n: flag_in(d, flags, 1, 1),
    })
}
