// Answers vectors as a caller may who lends rooms of its own: by the functions that take a line, in rooms that are larger than
// those of `vectors`. Used by the gate alone.
//
// The input is lines as those of `vectors`, up to as many bytes as there is room for. Each vector is repeated, and answered
// behind a column that no other program fills up to. What is to be written is the file `stdout`, made from the documents by
// tests/vectors/vectors.py.
#![tactic(auto)]

use std::io::{self, Write};
use text::{Columns, Roomy};
use vector_text::line::Line;

// Room for the whole input, and for the bytes of a line's operands.
const TEXT: usize = 65536;

const ROOM: usize = 131072;

// The column behind which answers stand.
const ANSWERS: usize = 120;

fn answer<W: Write>(line: &mut Line<'_>, out: &mut W) -> io::Result<()> {
    let answered = vector_ground::answer(line, out)?
        || vector_messages::answer(line, out)?
        || vector_memory::answer(line, out)?
        || vector_changes::answer(line, out)?;
    if answered {
        return Ok(());
    }
    out.write_all(b"no such vector")
}

fn one_line<W: Write>(mut line: Line<'_>, out: &mut W) -> io::Result<()> {
    let mut out = Columns::of(out);
    out.write_all(line.text)?;
    out.fill_to(ANSWERS)?;
    out.write_all(b" = ")?;
    answer(&mut line, &mut out)?;
    out.write_all(b"\n")
}

fn main(rt: HostRuntime) {
    let mut input = rt.stdin();
    let mut out = Roomy::new(rt.stdout());
    let mut text = [0u8; TEXT];
    let mut room = [0u8; ROOM];
    let mut side = [0u8; ROOM];
    let came = text::read_full(&mut input, &mut text);
    for text in text[..came].split(|b| *b == b'\n') {
        let line = Line {
            text,
            room: &mut room,
            side: &mut side,
        };
        if line.is_vector() && one_line(line, &mut out).is_err() {
            return;
        }
    }
    let _ = out.flush();
}
