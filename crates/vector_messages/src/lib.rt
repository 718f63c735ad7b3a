// Vectors of messages: datagrams read, each prefix of them too, and written again. Used by the programs `vectors` and `vector_rooms`.
#![tactic(auto)]

use std::io::{self, Write};
use vector_text::line::{Line, Rooms};
use vector_text::say::Hex;
use wire_read::{Head, Incoming};

#[derive(Clone, Copy)]
enum Asked {
    Read,
    Again,
    Prefixes,
}

const NAMES: [(&str, Asked); 3] = [
    ("read", Asked::Read),
    ("again", Asked::Again),
    ("prefixes", Asked::Prefixes),
];

// What a message is called, and its head; document 01's number for one that is refused.
fn told(message: Incoming) -> Result<(&'static str, Head), u8> {
    match message {
        Incoming::Refused(number) => Err(number),
        Incoming::Solicit(m) => Ok(("solicit", m.head)),
        Incoming::Advertise(m) => Ok(("advertise", m.head)),
        Incoming::Request(m) => Ok(("request", m.head)),
        Incoming::Flood(m) => Ok(("flood", m.head)),
        Incoming::Inquire(m) => Ok(("inquire", m.head)),
        Incoming::Authority(m) => Ok(("authority", m.head)),
        Incoming::Ack(m) => Ok(("ack", m.head)),
        Incoming::Lookup(m) => Ok(("lookup", m.head)),
    }
}

// Document 01's number for what reading gave.
fn number_of(message: Incoming) -> u8 {
    told(message).err().unwrap_or(0)
}

// The number of a refusal, or the message's type, minor version and ID.
fn read<W: Write>(d: &[u8], major: u8, out: &mut W) -> io::Result<()> {
    match told(wire_read::read(d, major)) {
        Err(number) => write!(out, "{number}"),
        Ok((name, Head { minor, id })) => write!(out, "0 {name} {minor} {id:08x}"),
    }
}

// The number of reading each prefix, from the empty one to the whole, with how many in a row gave it.
fn prefixes<W: Write>(d: &[u8], major: u8, out: &mut W) -> io::Result<()> {
    let mut last = number_of(wire_read::read(&d[..0], major));
    let mut count = 1u32;
    for len in 1..=d.len() {
        let number = number_of(wire_read::read(&d[..len], major));
        if number == last {
            count = count.saturating_add(1);
        } else {
            write!(out, "{count}x{last} ")?;
            last = number;
            count = 1;
        }
    }
    write!(out, "{count}x{last}")
}

// The message written again: the datagram with its ignored bits zero. The number where it is refused.
fn again<W: Write>(d: &[u8], major: u8, out: &mut W) -> io::Result<()> {
    let message = wire_read::read(d, major);
    if let Err(number) = told(message) {
        return write!(out, "{number}");
    }
    let mut room = [0u8; 1232];
    let wrote = wire_copy::write(&mut room, major, message, d);
    let again = Hex(room.get(..wrote.length).unwrap_or_default());
    write!(out, "{again}")
}

// The group of vectors that has the line's name answers; false where none has.
pub fn answer<W: Write>(line: &mut Line<'_>, out: &mut W) -> io::Result<bool> {
    let Some(asked) = line.named(&NAMES) else {
        return Ok(false);
    };
    let major = line.byte(1);
    let d = line.bytes(2);
    match asked {
        Asked::Read => read(d, major, out)?,
        Asked::Again => again(d, major, out)?,
        Asked::Prefixes => prefixes(d, major, out)?,
    }
    Ok(true)
}

// The same in rooms that stay: a line of another name leaves its second operand there too, which the next line may see.
pub fn answer_in<W: Write>(text: &[u8], rooms: &mut Rooms, out: &mut W) -> io::Result<bool> {
    let mut line = rooms.line(text);
    let answered = answer(&mut line, out)?;
    if !answered {
        line.bytes(2);
    }
    Ok(answered)
}
