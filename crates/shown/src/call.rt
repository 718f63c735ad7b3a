// What a record of the trace was: a datagram received, a FLOOD to send, or a tick. The record has its two length
// bytes and its kind in front, and is of the length of its kind.
use gauge_commit::Answer;
use happened::Walk;
use shown_state::whose;
use shown_words::names::Names;
use shown_words::{message, words};
use std::io::{self, Read, Write};
use text::Columns;

// The columns that what it was has in a line.
const COLUMNS: usize = 68;

const UNUSED: &str = "a record that cannot be used";

// A record of a FLOOD to send: message ID, neighbour's key, record's key. One that was refused was not sent.
fn write_sent<W: Write>(
    out: &mut W,
    names: Names<'_>,
    answer: Answer,
    call: &[u8],
) -> io::Result<()> {
    let Some(call) = call.first_chunk::<72>() else {
        return Ok(());
    };
    let verb = match answer.number {
        0 => "sent",
        _ => "not sent:",
    };
    let id = u32::from_le_bytes([call[4], call[5], call[6], call[7]]);
    write!(out, "{verb} FLOOD {id} to ")?;
    names.write_whose(out, &call[8..40])?;
    write!(out, " about ")?;
    names.write_whose(out, &call[40..72])
}

fn write_what<W: Write>(
    out: &mut W,
    names: Names<'_>,
    major: u8,
    answer: Answer,
    call: &[u8],
) -> io::Result<()> {
    if trace::is_end(answer.number) {
        return write!(out, "{UNUSED}");
    }
    match call.get(2) {
        Some(1) => message::write_received(out, names, major, call),
        Some(2) => write_sent(out, names, answer, call),
        Some(3) => write!(out, "tick"),
        _ => Ok(()),
    }
}

pub(crate) fn write_heading<W: Write>(out: &mut W) -> io::Result<()> {
    writeln!(out, "Record  Second  {:<COLUMNS$}  Answer", "What it was")
}

// The rest of a line, behind what the record was: its answer. What is too long for its columns moves the answer on.
fn write_answer<W: Write>(mut line: Columns<'_, W>, answer: Answer) -> io::Result<()> {
    line.fill_to(COLUMNS)?;
    write!(line, "  ")?;
    words::write_answer(&mut line, answer.number)?;
    writeln!(line)
}

// The line of a record: its number, its second, what it was, its answer.
pub(crate) fn write_call<R: Read, W: Write>(
    out: &mut W,
    names: Names<'_>,
    at: u64,
    night: &Walk<R>,
) -> io::Result<()> {
    let answer = night.answer();
    let second = night.seconds();
    let major = whose::major(night.opening());
    write!(out, "{at:>6}{second:>8}  ")?;
    let mut line = Columns::of(out);
    write_what(&mut line, names, major, answer, night.record())?;
    write_answer(line, answer)
}

// The line of an opening record that is bad, or missing, as there is no byte of it.
pub(crate) fn write_bad<R: Read, W: Write>(out: &mut W, night: &Walk<R>) -> io::Result<()> {
    write!(out, "     0       0  ")?;
    let mut line = Columns::of(out);
    if night.record().is_empty() {
        write!(line, "no record: the trace is empty")?;
    } else {
        write!(line, "{UNUSED}")?;
    }
    write_answer(line, night.answer())
}
