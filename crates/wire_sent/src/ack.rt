// ACK: the ID of the message answered, and the flags only where N is set.
ghost use Rattle.std.specs.Prelude.{◌≡◌, true, false};
ghost use Rattle.wire_write.specs.Writing.{Wrote};
ghost use Rattle.wire_write.specs.Making.{ack_made};

use crate::front::put_acked;
use crate::{Heading, NO_ROOM};
use wire_write::{Written, put_head};

// The last bit of the flags: the validate key is none of ours.
const N: u16 = 1;

pub fn write_ack(out: &mut [u8], head: Heading, acked: u32, n: bool) -> Written
    ensures { Wrote (ack_made head.major head.minor head.id acked n) out.old result out.new }
{
    if n {
        return write_noted(out, head, acked);
    }
    write_plain(out, head, acked)
}

// N clear.
fn write_plain(out: &mut [u8], head: Heading, acked: u32) -> Written
    ensures { Wrote (ack_made head.major head.minor head.id acked false) out.old result out.new }
{
    if out.len() < 20 {
        return NO_ROOM;
    }
    put_acked(out, head, wire_numbers::ACK, acked);
    Written {
        number: 0,
        length: 20,
    }
}

// N set.
fn write_noted(out: &mut [u8], head: Heading, acked: u32) -> Written
    ensures { Wrote (ack_made head.major head.minor head.id acked true) out.old result out.new }
{
    if out.len() < 26 {
        return NO_ROOM;
    }
    put_acked(out, head, wire_numbers::ACK, acked);
    put_head(out, 20, wire_numbers::FLAGS, wire_numbers::FLAGS_LEN);
    octet::write_u16(out, 24, N);
    Written {
        number: 0,
        length: 26,
    }
}
