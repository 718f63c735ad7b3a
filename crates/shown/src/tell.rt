// Facts in words. What has a line of its own, or none, is passed over.
use amounts::{balance, depth};
use facts::{
    Because, Distance, Endpoint, Fact, Hour, Message, Origin, Reading, Row, Tell, Waiting, Way,
};
use key::Key;
use shown_words::names::Names;
use std::io::{self, Write};

#[derive(Drop)]
pub(crate) struct Words<'a, W> {
    pub(crate) out: &'a mut W,
    pub(crate) names: Names<'a>,
}

// Hours are told from the year 1970 to 9999.
fn hour_of(ms: u64) -> Option<Hour> {
    if ms != 0 && ms < 253402300800000 {
        Some(Hour(ms))
    } else {
        None
    }
}

fn write_began<W: Write>(out: &mut W, row: Row) -> io::Result<()> {
    match hour_of(row.ms) {
        Some(hour) => writeln!(out, "Opened    {hour}"),
        None => Ok(()),
    }
}

fn write_row<W: Write>(out: &mut W, row: Row, way: Way, same: bool) -> io::Result<()> {
    write!(out, "                  ")?;
    if let Some(hour) = hour_of(row.ms) {
        write!(out, "at {hour} ")?;
    }
    match way {
        Way::From => write!(out, "from {} ", Endpoint(&row.endpoint))?,
        Way::To => write!(out, "to {} ", Endpoint(&row.endpoint))?,
        Way::Unknown => {}
    }
    if same {
        return writeln!(out, "(as it was that night)");
    }
    let was = row.answer;
    write!(out, "(OTHERWISE THAT NIGHT: answer {}", was.number)?;
    writeln!(out, ", with {} and {})", was.first, was.second)
}

fn write_far<W: Write>(out: &mut W, far: Key) -> io::Result<()> {
    writeln!(out, "                    distance {}", Distance(far))
}

fn write_other<W: Write>(
    out: &mut W,
    names: Names<'_>,
    before: &str,
    key: &[u8],
    behind: &str,
) -> io::Result<()> {
    write!(out, "                    {before} ")?;
    names.write_whose(out, key)?;
    writeln!(out, "{behind}")
}

fn write_because<W: Write>(out: &mut W, names: Names<'_>, because: Because<'_>) -> io::Result<()> {
    match because {
        Because::Only => writeln!(out, "                    no other could be named"),
        Because::Target => writeln!(out, "                    its key is the one asked for"),
        Because::Tied(key, far) => {
            let up = ", which is reached by going up";
            write_other(out, names, "as far away is", key, up)?;
            write_far(out, far)
        }
        Because::Nearest(key, far) => {
            write_other(out, names, "nearer than any other; the next is", key, "")?;
            write_far(out, far)
        }
    }
}

// A line that ends with whose key it is.
fn write_whose<W: Write>(out: &mut W, names: Names<'_>, word: &str, key: &[u8]) -> io::Result<()> {
    write!(out, "                  {word} ")?;
    names.write_whose(out, key)?;
    writeln!(out)
}

fn write_answered<W: Write>(
    out: &mut W,
    names: Names<'_>,
    key: &[u8],
    id: u32,
    origin: Option<Origin>,
) -> io::Result<()> {
    write!(out, "                  answers for ")?;
    names.write_whose(out, key)?;
    write!(out, ": INQUIRE {id}")?;
    if let Some(from) = origin {
        write!(out, ", sent after {} {}", from.message, from.id)?;
        write!(out, " of record {}", from.record)?;
    }
    writeln!(out)
}

fn write_litres<W: Write>(out: &mut W, inflow: u32, outflow: u32) -> io::Result<()> {
    write!(out, ", {inflow} litres in, {outflow} out, balance ")?;
    balance::write(out, inflow, outflow, 0)?;
    writeln!(out)
}

fn write_reading<W: Write>(out: &mut W, reading: Reading) -> io::Result<()> {
    write!(out, "                  reading")?;
    match reading {
        Reading::Depth {
            bits,
            litres_in,
            litres_out,
        } => {
            write!(out, ": depth ")?;
            depth::write(out, bits, 0)?;
            write!(out, " m")?;
            write_litres(out, litres_in, litres_out)
        }
        Reading::Fault {
            fault,
            litres_in,
            litres_out,
        } => {
            write!(out, ": fault {fault}")?;
            write_litres(out, litres_in, litres_out)
        }
        Reading::Refused(1) => writeln!(out, " refused: of wrong length, or cut short"),
        Reading::Refused(2) => writeln!(out, " refused: of an unknown kind"),
        Reading::Refused(_) => { writeln!(out, " refused: its depth is not from 0 to 20 metres") }
    }
}

fn word_of(what: Waiting) -> &'static str {
    match what {
        Waiting::ListedAgain => "listed again",
        Waiting::GivenUp => "given up",
        Waiting::Freed => "waits no longer",
    }
}

// How the answers compare, and whether the rows fit.
fn write_compared<W: Write>(
    out: &mut W,
    compared: Option<(u64, u64)>,
    rows: Option<u64>,
) -> io::Result<()> {
    if let Some((of, others)) = compared {
        if others == 0 {
            writeln!(out, "Answers that are those of that night: {of} of {of}")?;
        } else {
            write!(out, "Answers that are not those of that night: ")?;
            writeln!(out, "{others} of {of}")?;
        }
    }
    if let Some(count) = rows {
        write!(out, "The second file does not fit: it has {count}")?;
        writeln!(out, " good rows, and must have one for each record.")?;
    }
    Ok(())
}

impl<W: Write> Tell for Words<'_, W> {
    fn tell(&mut self, fact: Fact<'_>) -> io::Result<()> {
        let names = self.names;
        let out = &mut *self.out;
        match fact {
            Fact::Began(row) => write_began(out, row),
            Fact::Then { row, way, same } => write_row(out, row, way, same),
            Fact::Named {
                key,
                far,
                because,
                ..
            } => {
                write_whose(out, names, "named", key)?;
                write_far(out, far)?;
                write_because(out, names, because)
            }
            Fact::Answered { key, id, origin } => write_answered(out, names, key, id, origin),
            Fact::Carried(reading) => write_reading(out, reading),
            Fact::Sent {
                message,
                id,
                key: None,
            } => writeln!(out, "                  sent {message} {id}"),
            Fact::Sent {
                message,
                id,
                key: Some(key),
            } => {
                if message == Message::Flood {
                    return Ok(());
                }
                write!(out, "                  sent {message} {id} about ")?;
                names.write_whose(out, key)?;
                writeln!(out)
            }
            Fact::Waited {
                what,
                message,
                id,
                key,
            } => {
                write!(out, "                  {}: {message} {id}, ", word_of(what))?;
                names.write_whose(out, key)?;
                writeln!(out)
            }
            Fact::Joined(key) => write_whose(out, names, "now held:", key),
            Fact::Left(key) => write_whose(out, names, "no longer held:", key),
            Fact::Ends { compared, rows, .. } => write_compared(out, compared, rows),
            _ => Ok(()),
        }
    }
}
