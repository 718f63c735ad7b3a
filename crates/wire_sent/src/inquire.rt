// INQUIRE for a key: flags, the key, a nonce.
ghost use Rattle.std.specs.Prelude.{◌≡◌};
ghost use Rattle.wire_write.specs.Writing.{Wrote};
ghost use Rattle.wire_write.specs.Making.{inquire_made};

use crate::front::put_keyed;
use crate::{Heading, NO_ROOM, NOT_RIGHT};
use wire_write::{Written, put_head};

// The flags, with their padding: A alone is set, by which an INQUIRE asks for a CPA.
const ASKS_CPA: u32 = 0x0010_0000;

pub fn write_inquire(out: &mut [u8], head: Heading, key: &[u8], nonce: &[u8]) -> Written
    ensures { Wrote (inquire_made head.major head.minor head.id key.now nonce.now) out.old result out.new }
{
    if key.len() != wire_numbers::KEY_LEN {
        return NOT_RIGHT;
    }
    if nonce.len() != wire_numbers::NONCE_LEN {
        return NOT_RIGHT;
    }
    if out.len() < 76 {
        return NO_ROOM;
    }
    put_keyed(
        out,
        head,
        wire_numbers::INQUIRE,
        wire_numbers::FLAGS,
        wire_numbers::FLAGS_LEN,
        ASKS_CPA,
        key,
    );
    put_head(out, 56, wire_numbers::NONCE, wire_numbers::NONCE_LEN);
    runs::copy_block::<16>(out, 60, nonce, 0);
    Written {
        number: 0,
        length: 76,
    }
}
