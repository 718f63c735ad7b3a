// Pond readings as a keeper reads them. Packed readings, in the form of document 02's request 7, are standard input,
// one behind the other; each has a line, and the sums stand behind the last. Names of ponds stand at file descriptor 3,
// which need not be open: bytes with a line for each reading, in their order, of which an empty one names none.
//
// What a reading is, which are refused and what a balance is, is said by crate `readings`.
#![tactic(auto)]

mod input;
mod line;
mod sums;

use std::io::{Read, Result, Write};
use sums::Sums;
use text::Roomy;

// Room for the names; of a longer text the rest is not read.
const NAMES: usize = 65536;

// So many readings are taken at most. Each has less than 2 ^ 32 litres in and out, so their sums stay below 2 ^ 64.
const MOST: u64 = 0x1_0000_0000;

// The readings, one after the other, up to the end of the input, and what they add up to; what is said of one is written before
// the next is read. A proved loop has to end, and nothing says that the input does: where as many were taken as can be, that is
// said.
fn write_each<R: Read, W: Write>(input: &mut R, out: &mut W, names: &[u8]) -> Result<Sums> {
    let mut room = [0u8; input::READING];
    let mut names = names.split(|b| *b == b'\n');
    let mut sums = Sums::default();
    for number in 1..=MOST {
        let packed = input::next_reading(input, &mut room);
        if packed.is_empty() {
            return Ok(sums);
        }
        let found = packing::unpack(packed);
        let unseen = input::unseen(packed, found);
        let name = names.next().unwrap_or(&[]);
        line::write_found(out, name, number, found, unseen)?;
        out.flush()?;
        sums.add(found, unseen);
        if !input::is_whole(packed) {
            return Ok(sums);
        }
    }
    writeln!(
        out,
        "So many readings are the most that can be added up: what follows was not looked at."
    )?;
    Ok(sums)
}

fn write_all<R: Read, W: Write>(input: &mut R, out: &mut W, names: &[u8]) -> Result<()> {
    line::write_heading(out, names)?;
    out.flush()?;
    write_each(input, out, names)?.write(out)?;
    out.flush()
}

// Output that can't be written is seen by who reads it: the launcher.
fn main(rt: HostRuntime) {
    let mut names = [0u8; NAMES];
    let named = io::read_full(3, &mut names);
    let _ = write_all(
        &mut rt.stdin(),
        &mut Roomy::new(rt.stdout()),
        &names[..named],
    );
}
