// FLOOD to the neighbour of a key, of the record at a place: controls with D clear, the key, the record's route entry.
ghost use Rattle.std.specs.Prelude.{◌≡◌};
ghost use Rattle.wire_write.specs.Writing.{Wrote};
ghost use Rattle.wire_write.specs.Making.{flood_made};

use crate::front::{entry_len, put_entry, put_keyed};
use crate::{Heading, NO_ROOM, NOT_RIGHT};
use wire_write::Written;

pub fn write_flood(out: &mut [u8], head: Heading, key: &[u8], s: &[u8], at: usize) -> Written
    ensures { Wrote (flood_made head.major head.minor head.id key.now s.now at) out.old result out.new }
{
    if key.len() != wire_numbers::KEY_LEN {
        return NOT_RIGHT;
    }
    let entry = entry_len(s, at);
    if entry == 0 {
        return NOT_RIGHT;
    }
    let size = 56 + entry;
    if out.len() < size {
        return NO_ROOM;
    }
    put_keyed(
        out,
        head,
        wire_numbers::FLOOD,
        wire_numbers::FLOOD_CONTROLS,
        wire_numbers::FLOOD_CONTROLS_LEN,
        0,
        key,
    );
    put_entry(out, 56, head.major, head.minor, s, at);
    Written {
        number: 0,
        length: size,
    }
}
