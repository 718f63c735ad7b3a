// Input up to an end.
ghost use Rattle.std.specs.Prelude.{◌≤◌, length};

use std::io::Read;

// Reads until `room` is full, the input ends or a read fails, and tells how many bytes came to the start of it.
pub fn read_full<R: Read>(input: &mut R, room: &mut [u8]) -> usize
    ensures { result ≤ length room.new }
{
    let mut came = 0;
    while came < room.len() {
        match input.read(&mut room[came..]) {
            Ok(0) | Err(_) => break,
            Ok(n) => came += n,
        }
    }
    came
}
