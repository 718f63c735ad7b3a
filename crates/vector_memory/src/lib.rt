// Vectors of lent memory: forms, learning, removing, the neighbour list, the closest record, the tick. Used by the programs
// `vectors` and `vector_rooms`.
#![tactic(auto)]

mod cached;
mod searched;
mod waits;

use std::io::{self, Write};
use vector_text::line::{Line, Rooms};

// The group of vectors that has the line's name answers; false where none has.
pub fn answer<W: Write>(line: &mut Line<'_>, out: &mut W) -> io::Result<bool> {
    Ok(cached::answer(line, out)? || waits::answer(line, out)?)
}

// The same in rooms that stay: a line of another name leaves its operands there too, which the next line may see.
pub fn answer_in<W: Write>(text: &[u8], rooms: &mut Rooms, out: &mut W) -> io::Result<bool> {
    Ok(cached::answer_in(text, rooms, out)? || waits::answer(&mut rooms.line(text), out)?)
}
