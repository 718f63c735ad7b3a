// How many records there are, and how many have more than one address.
ghost use Rattle.std.specs.Prelude.{◌<◌};

use std::io::{self, Write};

#[derive(Clone, Copy)]
struct Count {
    all: usize,
    more: usize,
}

// Of the records that lie so many bytes from each other, each with its address count at a place behind that. A record in form has
// one at least, and a free place has none; a flood that waits has no record, and there a zero.
fn counted(rows: &[u8], len: usize, place: usize) -> Count
    requires { 0 < len }
{
    let counts = rows.chunks_exact(len).filter_map(|row| row.get(place));
    let all = counts.filter(|addresses| **addresses > 0).count();
    let counts = rows.chunks_exact(len).filter_map(|row| row.get(place));
    let more = counts.filter(|addresses| **addresses > 1).count();
    Count { all, more }
}

impl Count {
    fn write<W: Write>(self, out: &mut W, what: &str) -> io::Result<()> {
        let Count { all, more } = self;
        write!(out, "{what} {all}, with more than one address {more}")
    }
}

// Of the records held, the inquiries that wait, and the own record.
#[derive(Clone, Copy)]
pub(crate) struct Counts {
    held: Count,
    asked: Count,
    own: Count,
}

impl Counts {
    pub(crate) fn of(own: &[u8], waiting: &[u8], cache: &[u8]) -> Counts {
        Counts {
            held: counted(cache, record::RECORD_LEN, 34),
            asked: counted(waiting, waiting::PLACE_LEN, 74),
            own: Count {
                all: 1,
                ..counted(own, record::RECORD_LEN, 34)
            },
        }
    }

    // The line of what is done.
    pub(crate) fn write<W: Write>(self, out: &mut W) -> io::Result<()> {
        self.held.write(out, "records held")?;
        self.asked.write(out, "; inquiries waiting")?;
        self.own.write(out, "; own record")?;
        writeln!(out)
    }
}
