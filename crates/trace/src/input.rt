// Records from a reader, as standard input.
ghost use Rattle.std.specs.Prelude.{◌≤◌, length};

use std::io::Read;
use text::read_full;

// Reads the next record to the start of `room`: its length, and as many bytes as that says. Answers how many there are: fewer
// where the input ends first, 0 where it has ended. `room` has RECORD bytes: what doesn't fit in less is not read.
pub fn next_record<R: Read>(input: &mut R, room: &mut [u8]) -> usize
    ensures { result ≤ length room.old }
{
    if room.len() < 2 {
        return 0;
    }
    let got = read_full(input, &mut room[..2]);
    if got < 2 {
        return got;
    }
    let told = usize::from(octet::read_u16_le(room, 0));
    if room.len() - 2 < told {
        return 2;
    }
    2 + read_full(input, &mut room[2..2 + told])
}
