// Runs vectors from standard input and writes a line for each: the vector, and what the gauge's functions make of it.
//
// A line of the input is a name and operands in hexadecimal, one space before each; an operand of no bytes is `-`. A line
// that begins with `#` is a heading. What is to be written is the file `stdout`, made from the documents by tests/vectors/vectors.py.
#![tactic(auto)]

ghost use Rattle.std.specs.Prelude.{◌≤◌, length};

use std::io::{self, Read, Write};
use text::Roomy;
use vector_lent::Lent;
use vector_text::line::Rooms;

// Room for a line.
const TEXT: usize = 131072;

// The next line of the input, without its end; one that is longer than the room is cut there. None where the input ends
// within it.
fn next_line<'a, R: Read>(input: &mut R, room: &'a mut [u8]) -> Option<&'a [u8]> {
    for at in 0..room.len() {
        let mut byte = [0u8];
        let Ok(1) = input.read(&mut byte) else {
            return None;
        };
        if byte[0] == b'\n' {
            return Some(&room[..at]);
        }
        room[at] = byte[0];
    }
    Some(room)
}

// A layer that has a vector of the name answers: these stand each by itself, and the last two act on what the lines before
// them left.
fn answer<W: Write>(
    text: &[u8],
    rooms: &mut Rooms,
    lent: &mut Lent,
    out: &mut W,
) -> io::Result<()> {
    let answered = vector_ground::answer_in(text, rooms, out)?
        || vector_messages::answer_in(text, rooms, out)?
        || vector_memory::answer_in(text, rooms, out)?
        || vector_changes::answer_in(text, rooms, out)?
        || vector_lent::answer(&rooms.line(text), lent, out)?
        || vector_calls::answer(&rooms.line(text), lent, out)?;
    if answered {
        return Ok(());
    }
    out.write_all(b"no such vector")
}

// A heading is repeated; a vector is repeated and answered.
fn one_line<W: Write>(
    text: &[u8],
    rooms: &mut Rooms,
    lent: &mut Lent,
    out: &mut W,
) -> io::Result<()> {
    out.write_all(text)?;
    if rooms.line(text).is_vector() {
        out.write_all(b" = ")?;
        answer(text, rooms, lent, out)?;
    }
    out.write_all(b"\n")
}

// The lines of the input, one after the other. A proved loop has to end, and nothing says that the input does: so the
// lines are counted, up to a number that no input uses up.
fn main(rt: HostRuntime) {
    let mut input = rt.stdin();
    let mut out = Roomy::new(rt.stdout());
    let mut text = [0u8; TEXT];
    let mut rooms = Rooms::new();
    let mut lent = Lent::new();
    for _ in 0..u64::MAX {
        let Some(text) = next_line(&mut input, &mut text) else {
            return;
        };
        if one_line(text, &mut rooms, &mut lent, &mut out).is_err() || out.flush().is_err() {
            return;
        }
    }
}
