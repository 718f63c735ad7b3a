// Lines beside the calls: the memory that they are lent is laid out and shown. It stays from line to line. Used by the program
// `vectors` alone.
#![tactic(auto)]

mod memory;
mod set;
mod shown;

pub use memory::{Lent, Records};
use std::io::{self, Write};
use vector_text::line::Line;

// The group of vectors that has the line's name answers; false where none has.
pub fn answer<W: Write>(line: &Line<'_>, lent: &mut Lent, out: &mut W) -> io::Result<bool> {
    Ok(set::answer(line, lent, out)? || shown::answer(line, lent, out)?)
}
