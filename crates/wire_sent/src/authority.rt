// AUTHORITY: the ID of the message answered, split controls that say how many bytes follow them, clear flags; then our CPA, or
// the record closest to a target.
ghost use Rattle.std.specs.Prelude.{◌≡◌, ◌<◌, ◌≤◌, length};
ghost use Rattle.octet.specs.Part.{splice};
ghost use Rattle.wire_write.specs.Writing.{Wrote};
ghost use Rattle.wire_write.specs.Making.{cpa_made, closest_made};
ghost use Rattle.wire_sent.specs.Fronts.{answer_front};

use crate::front::{entry_len, put_acked, put_entry, put_word};
use crate::{Heading, NO_ROOM, NOT_RIGHT};
use wire_write::{Written, put_head};

// With a CPA. One that leaves no datagram room for the rest has no room in any output.
pub fn write_cpa(out: &mut [u8], head: Heading, acked: u32, cpa: &[u8]) -> Written
    ensures { Wrote (cpa_made head.major head.minor head.id acked cpa.now) out.old result out.new }
{
    if 1192 < cpa.len() {
        return NO_ROOM;
    }
    let size = 40 + cpa.len();
    if out.len() < size {
        return NO_ROOM;
    }
    put_answer(out, head, acked, 12 + cpa.len());
    put_head(out, 36, wire_numbers::CPA, cpa.len());
    runs::copy_to(out, 40, cpa);
    Written {
        number: 0,
        length: size,
    }
}

// With the record at a place.
pub fn write_closest(out: &mut [u8], head: Heading, acked: u32, s: &[u8], at: usize) -> Written
    ensures { Wrote (closest_made head.major head.minor head.id acked s.now at) out.old result out.new }
{
    let entry = entry_len(s, at);
    if entry == 0 {
        return NOT_RIGHT;
    }
    let size = 36 + entry;
    if out.len() < size {
        return NO_ROOM;
    }
    put_answer(out, head, acked, 8 + entry);
    put_entry(out, 36, head.major, head.minor, s, at);
    Written {
        number: 0,
        length: size,
    }
}

// Header, acked ID, split controls of so many bytes, flags.
fn put_answer(out: &mut [u8], head: Heading, acked: u32, size: usize)
    requires { (36 ≤ length out.old) × (size < 65536) }
    ensures { out.new ≡ splice 0 (answer_front head.major head.minor head.id acked size) out.old }
{
    put_acked(out, head, wire_numbers::AUTHORITY, acked);
    put_head(out, 20, wire_numbers::SPLIT, wire_numbers::SPLIT_LEN);
    octet::write_u16(out, 24, size as u16);
    octet::write_u16(out, 26, 0);
    put_word(out, 28, wire_numbers::FLAGS, wire_numbers::FLAGS_LEN, 0);
}
