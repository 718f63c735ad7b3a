// Vectors of the ground: bytes, runs of bytes, keys. Used by the programs `vectors` and `vector_rooms`.
#![tactic(auto)]

mod bytes;
mod keys;
mod written;

use std::io::{self, Write};
use vector_text::line::{Line, Rooms};

// The group of vectors that has the line's name answers; false where none has.
pub fn answer<W: Write>(line: &mut Line<'_>, out: &mut W) -> io::Result<bool> {
    Ok(bytes::answer(line, out)? || written::answer(line, out)? || keys::answer(line, out)?)
}

// The same in rooms that stay: a line of another name leaves its operands there too, which the next line may see.
pub fn answer_in<W: Write>(text: &[u8], rooms: &mut Rooms, out: &mut W) -> io::Result<bool> {
    Ok(
        bytes::answer_in(text, rooms, out)?
            || written::answer_in(text, rooms, out)?
            || keys::answer_in(text, rooms, out)?,
    )
}
