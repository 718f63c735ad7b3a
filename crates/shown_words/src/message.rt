// What a datagram received was: a message, as far as it can be read, and how many bytes.
use crate::names::Names;
use crate::words;
use look::Look;
use std::io::{self, Write};

// Where the datagram stands in the record of one received: behind message ID, verdict, key and nonce.
const DATAGRAM: usize = 57;

// A record of a datagram received, with what is seen of its message, and the names.
#[derive(Clone, Copy)]
struct Received<'a> {
    names: Names<'a>,
    call: &'a [u8],
    seen: Look,
}

impl Received<'_> {
    // " about" or " for" whom: the key that stands at a place of the datagram, if there is one.
    fn write_key_at<W: Write>(&self, out: &mut W, word: &str, place: u32) -> io::Result<()> {
        if place == 0 {
            return Ok(());
        }
        write!(out, "{word}")?;
        let start = DATAGRAM + place as usize;
        match self.call.get(start..start + 32) {
            Some(key) => self.names.write_whose(out, key),
            None => Ok(()),
        }
    }

    // A FLOOD without a route entry revokes the key that the verdict names. A verdict that is not good names none.
    fn write_revoked<W: Write>(&self, out: &mut W) -> io::Result<()> {
        if self.seen.kind != 4 || self.seen.entry != 0 {
            return Ok(());
        }
        match self.call.get(8..41) {
            Some([1, key @ ..]) => {
                write!(out, " revoking ")?;
                self.names.write_whose(out, key)
            }
            _ => write!(out, " revoking some key"),
        }
    }

    // Its type and ID, and the message that an ADVERTISE, AUTHORITY or ACK answers.
    fn write_head<W: Write>(&self, out: &mut W) -> io::Result<()> {
        let seen = self.seen;
        write!(out, "{} {}", words::type_of(seen.kind), seen.id)?;
        match seen.kind {
            2 | 8 | 9 => write!(out, " in answer to {}", seen.acked),
            _ => Ok(()),
        }
    }

    // The message that the datagram holds, as far as it can be read; without one, what it is.
    fn write_message<W: Write>(&self, out: &mut W) -> io::Result<()> {
        match self.seen.number {
            0 => {
                self.write_head(out)?;
                self.write_revoked(out)?;
                self.write_key_at(out, " about ", self.seen.entry)?;
                self.write_key_at(out, " for ", self.seen.target)
            }
            7 => write!(out, "a part of an AUTHORITY"),
            _ => write!(out, "what cannot be read"),
        }
    }
}

// A record of a datagram received.
pub fn write_received<W: Write>(
    out: &mut W,
    names: Names<'_>,
    major: u8,
    call: &[u8],
) -> io::Result<()> {
    let datagram = call.get(DATAGRAM..).unwrap_or(&[]);
    let seen = look::look_at(major, datagram);
    write!(out, "received ")?;
    Received { names, call, seen }.write_message(out)?;
    write!(out, ", {} bytes", datagram.len())
}
