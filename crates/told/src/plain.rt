// Facts as plain lines, one fact each.
use facts::{Because, Call, Distance, Ending, Fact, Hex, Origin, Reading, Row, Tell, Waiting};
use gauge_commit::Answer;
use std::io::{self, Write};

#[derive(Drop)]
pub(crate) struct Plain<'a, W> {
    pub(crate) out: &'a mut W,
}

fn write_opened<W: Write>(
    out: &mut W,
    major: u8,
    minor: u8,
    key: &[u8],
    port: u16,
    address: &[u8],
) -> io::Result<()> {
    write!(out, "opened {major} {minor} {} {port}", Hex(key))?;
    writeln!(out, " {}", Hex(address))
}

fn write_answer<W: Write>(out: &mut W, answer: Answer) -> io::Result<()> {
    write!(out, " {} {} {}", answer.number, answer.first, answer.second)
}

fn write_call<W: Write>(out: &mut W, call: Call<'_>) -> io::Result<()> {
    match call {
        Call::Bad => writeln!(out, " bad"),
        Call::Received { message, id, bytes } => writeln!(out, " receive {message} {id} {bytes}"),
        Call::Sending { id, neighbour, key } => {
            writeln!(out, " send {id} {} {}", Hex(neighbour), Hex(key))
        }
        Call::Tick => writeln!(out, " tick"),
    }
}

fn write_record<W: Write>(
    out: &mut W,
    at: u64,
    second: u64,
    answer: Answer,
    call: Call<'_>,
) -> io::Result<()> {
    write!(out, "record {at} {second}")?;
    write_answer(out, answer)?;
    write_call(out, call)
}

fn write_row<W: Write>(out: &mut W, row: Row) -> io::Result<()> {
    write!(out, "hour {} {}", row.ms, Hex(&row.endpoint))?;
    write_answer(out, row.answer)?;
    writeln!(out)
}

fn write_key<W: Write>(out: &mut W, word: &str, key: &[u8]) -> io::Result<()> {
    writeln!(out, "{word} {}", Hex(key))
}

fn write_named<W: Write>(
    out: &mut W,
    key: &[u8],
    port: u16,
    address: &[u8],
    because: Because<'_>,
    far: Distance,
) -> io::Result<()> {
    write!(out, "named {} {port} {} {far}", Hex(key), Hex(address))?;
    match because {
        Because::Only => writeln!(out, " only"),
        Because::Target => writeln!(out, " target"),
        Because::Tied(key, far) => writeln!(out, " tied {} {}", Hex(key), Distance(far)),
        Because::Nearest(key, far) => writeln!(out, " nearest {} {}", Hex(key), Distance(far)),
    }
}

fn write_answered<W: Write>(
    out: &mut W,
    key: &[u8],
    id: u32,
    origin: Option<Origin>,
) -> io::Result<()> {
    write!(out, "answered {} {id}", Hex(key))?;
    if let Some(from) = origin {
        write!(out, " {} {} {}", from.record, from.message, from.id)?;
    }
    writeln!(out)
}

fn write_reading<W: Write>(out: &mut W, reading: Reading) -> io::Result<()> {
    match reading {
        Reading::Depth {
            bits,
            litres_in,
            litres_out,
        } => writeln!(out, "reading depth {bits} {litres_in} {litres_out}"),
        Reading::Fault {
            fault,
            litres_in,
            litres_out,
        } => writeln!(out, "reading fault {fault} {litres_in} {litres_out}"),
        Reading::Refused(number) => writeln!(out, "reading refused {number}"),
    }
}

fn write_keys<W: Write>(out: &mut W, word: &str, keys: &[[u8; 32]]) -> io::Result<()> {
    write!(out, "{word}")?;
    for key in keys {
        write!(out, " {}", Hex(key))?;
    }
    writeln!(out)
}

fn word_of(what: Waiting) -> &'static str {
    match what {
        Waiting::ListedAgain => "again",
        Waiting::GivenUp => "gaveup",
        Waiting::Freed => "freed",
    }
}

fn write_end<W: Write>(out: &mut W, ending: Ending, rows: Option<u64>) -> io::Result<()> {
    let word = match ending {
        Ending::Whole => "whole",
        Ending::Middle => "middle",
        Ending::Refused => "refused",
        Ending::Unopened => "unopened",
    };
    write!(out, "end {word}")?;
    if let Some(count) = rows {
        write!(out, " rows {count}")?;
    }
    writeln!(out)
}

impl<W: Write> Tell for Plain<'_, W> {
    fn tell(&mut self, fact: Fact<'_>) -> io::Result<()> {
        let out = &mut *self.out;
        match fact {
            Fact::Opened {
                major,
                minor,
                key,
                port,
                address,
            } => write_opened(out, major, minor, key, port, address),
            Fact::Record {
                at,
                second,
                answer,
                call,
            } => write_record(out, at, second, answer, call),
            Fact::Began(row) | Fact::Then { row, .. } => write_row(out, row),
            Fact::About(key) => write_key(out, "about", key),
            Fact::For(key) => write_key(out, "for", key),
            Fact::Revoking(key) => write_key(out, "revoking", key),
            Fact::Answers(id) => writeln!(out, "answers {id}"),
            Fact::Named {
                key,
                port,
                address,
                far,
                because,
            } => write_named(out, key, port, address, because, Distance(far)),
            Fact::Answered { key, id, origin } => write_answered(out, key, id, origin),
            Fact::Carried(reading) => write_reading(out, reading),
            Fact::Sent {
                message,
                id,
                key: None,
            } => writeln!(out, "sent {message} {id}"),
            Fact::Sent {
                message,
                id,
                key: Some(key),
            } => writeln!(out, "sent {message} {id} {}", Hex(key)),
            Fact::Waited {
                what,
                message,
                id,
                key,
            } => writeln!(out, "{} {id} {message} {}", word_of(what), Hex(key)),
            Fact::Joined(key) => write_key(out, "joined", key),
            Fact::Left(key) => write_key(out, "left", key),
            Fact::Held(count) => writeln!(out, "held {count}"),
            Fact::Below(keys) => write_keys(out, "below", keys),
            Fact::Above(keys) => write_keys(out, "above", keys),
            Fact::Ends { ending, rows, .. } => write_end(out, ending, rows),
        }
    }
}
