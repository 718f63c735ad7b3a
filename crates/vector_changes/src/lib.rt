// Vectors of what changed between two caches, each made through the function that the host calls, with an output filled with
// EE. Used by the programs `vectors` and `vector_rooms`.
#![tactic(auto)]

use gauge_commit::Answer;
use std::io::{self, Write};
use vector_text::line::{Line, Rooms};
use vector_text::say;

// The longest output that a line has: 512 changes of 101 bytes.
const OUTPUT: usize = 51712;

const NAMES: [(&str, ()); 1] = [("changes", ())];

// What the call answers, what it has written, and whether the rest of the output is as it was.
fn told<W: Write>(
    own: &[u8],
    before: &[u8],
    after: &[u8],
    output: &mut [u8],
    out: &mut W,
) -> io::Result<()> {
    let Answer {
        number,
        first,
        second,
    } = changes::gauge_changes(own, before, after, output);
    let (written, rest) = say::written(output, second as usize);
    write!(out, "{number} {first} {second} {written} {rest}")
}

// `changes OWN BEFORE AFTER ROOM`; false for a line of another name.
pub fn answer<W: Write>(line: &mut Line<'_>, out: &mut W) -> io::Result<bool> {
    if line.named(&NAMES).is_none() {
        return Ok(false);
    }
    let mut room = [0xEEu8; OUTPUT];
    let Some(output) = room.get_mut(..line.place(4)) else {
        say::outside(out)?;
        return Ok(true);
    };
    told(line.bytes(1), line.bytes(2), line.bytes(3), output, out)?;
    Ok(true)
}

// The same in rooms that stay: a line of this name leaves its operands there also where the output has no room.
pub fn answer_in<W: Write>(text: &[u8], rooms: &mut Rooms, out: &mut W) -> io::Result<bool> {
    let mut line = rooms.line(text);
    if line.named(&NAMES).is_none() {
        return Ok(false);
    }
    let own = line.bytes(1);
    let before = line.bytes(2);
    let after = line.bytes(3);
    let mut room = [0xEEu8; OUTPUT];
    match room.get_mut(..line.place(4)) {
        Some(output) => told(own, before, after, output, out)?,
        None => say::outside(out)?,
    }
    Ok(true)
}
