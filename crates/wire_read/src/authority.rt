// AUTHORITY: the fields before its buffer, and the buffer.
ghost use Rattle.std.specs.Prelude.{◌≡◌, ◌≤◌, length};
ghost use Rattle.wire_fields.specs.Kinds.{authority_kinds};
ghost use Rattle.wire_fields.specs.Reading.{fields_as};
ghost use Rattle.wire_fields.specs.Refusals.{found_of};
ghost use Rattle.wire_fields.proofs.RefusalLaws.{gated};
ghost use Rattle.wire_read.specs.declared.Incoming.TheVariants as M;
ghost use Rattle.wire_read.specs.Readers.{or_number};
ghost use Rattle.wire_read.specs.Answers.{incoming_of};

use crate::messages::Authority;
use crate::values::head;
use wire_buffer::{is_whole, read_buffer};
use wire_fields::Cursor;

// 6 where the fields before the buffer are not right, 7 where the buffer is not whole, 6 where it is malformed.
pub fn read_authority(d: &[u8]) -> Result<Authority, u8>
    requires { 12 ≤ length d.now }
    ensures { or_number M.Authority result ≡ incoming_of d.now (gated 8 d.now (found_of 8 (fields_as 8 authority_kinds d.now))) }
{
    let c = Cursor { at: 12 };
    let Some((acked, c)) = c.fixed(d, wire_numbers::ACKED, false, 4) else {
        return Err(6);
    };
    let Some((split, c)) = c.split(d) else {
        return Err(6);
    };
    if !is_whole(d, Some(split)) {
        return Err(7);
    }
    let Some(fields) = read_buffer(d, c) else {
        return Err(6);
    };
    Ok(Authority {
        head: head(d),
        acked: octet::read_u32(d, acked.start),
        fields,
    })
}
