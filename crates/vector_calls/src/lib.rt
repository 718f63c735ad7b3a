// Vectors of the calls, each made through the function that the radio program calls: those that act on the memory that the lines
// before left, which `vector_lent` lays out and shows, and the look at a datagram. Used by the program `vectors` alone.
#![tactic(auto)]

mod called;
mod looked;

use std::io::{self, Write};
use vector_lent::Lent;
use vector_text::line::Line;

// The group of vectors that has the line's name answers; false where none has.
pub fn answer<W: Write>(line: &Line<'_>, lent: &mut Lent, out: &mut W) -> io::Result<bool> {
    Ok(called::answer(line, lent, out)? || looked::answer(line, lent, out)?)
}
