// What happened at each record of a night, as facts (crate `facts`): what it was, and what its call has done. The programs `told` and
// `shown` tell them, each in its own way.
#![tactic(auto)]

mod held;
mod known;
mod message;
mod naming;
mod origin;
mod places;
mod rows;
mod walk;

use crate::known::{Known, key_at};
use crate::origin::Origins;
use facts::{Fact, Message, Reading, Tell, Waiting};
use std::io::{self, Read};
pub use walk::Walk;

// A datagram that a call hands out; behind an INQUIRE the key that it asks about, behind a FLOOD the neighbour's.
fn say_sent<T: Tell>(to: &mut T, major: u8, datagram: &[u8]) -> io::Result<()> {
    let told = look::brief_at(major, datagram);
    let seen = told.seen;
    if seen.kind == 0 {
        return Ok(());
    }
    to.tell(Fact::Sent {
        message: Message::from(seen.kind),
        id: seen.id,
        key: if told.validate == 0 {
            None
        } else {
            Some(key_at(datagram, told.validate))
        },
    })
}

// Of the two datagrams that a call has written the second begins behind the first.
fn say_both_sent<T: Tell>(to: &mut T, known: &Known<'_>) -> io::Result<()> {
    let written = known.output;
    let answer = known.answer;
    let (first, behind) = written
        .split_at_checked(answer.first as usize)
        .unwrap_or((&[], &[]));
    let second = behind.get(..answer.second as usize).unwrap_or(&[]);
    say_sent(to, known.major, first)?;
    say_sent(to, known.major, second)
}

// The reading that an AUTHORITY carries.
fn reading_of(major: u8, datagram: &[u8]) -> Option<Reading> {
    let taken = carried::gauge_carried(major, datagram);
    let litres_in = taken.litres_in;
    let litres_out = taken.litres_out;
    if taken.reading != 0 {
        return Some(Reading::Refused(taken.reading));
    }
    match taken.kind {
        1 => Some(Reading::Depth {
            bits: taken.measure,
            litres_in,
            litres_out,
        }),
        2 => Some(Reading::Fault {
            fault: taken.measure,
            litres_in,
            litres_out,
        }),
        _ => None,
    }
}

// An AUTHORITY that was accepted: whom it answered for, where its inquiry came from, and what it carries.
fn say_authority<T: Tell>(to: &mut T, known: &Known<'_>, origins: &Origins) -> io::Result<()> {
    let id = known.look.acked;
    to.tell(Fact::Answered {
        key: match places::find(known.before.waiting, id) {
            Some(there) => there.key,
            None => &[],
        },
        id,
        origin: origins.of(id),
    })?;
    match reading_of(known.major, known.datagram()) {
        Some(reading) => to.tell(Fact::Carried(reading)),
        None => Ok(()),
    }
}

// What a datagram that was accepted has done. What an AUTHORITY has freed, is told with it.
fn say_taken<T: Tell>(to: &mut T, known: &Known<'_>, origins: &Origins) -> io::Result<()> {
    let kind = known.look.kind;
    if kind == 11 {
        naming::say(to, known)?;
    }
    if kind == 8 {
        say_authority(to, known, origins)?;
    }
    say_both_sent(to, known)?;
    if kind != 8 {
        places::say(to, known, Waiting::Freed, false)?;
    }
    held::say_changes(to, known)
}

// What a call that was accepted has done.
fn say_done<T: Tell>(to: &mut T, kind: u8, known: &Known<'_>, origins: &Origins) -> io::Result<()> {
    match kind {
        1 => say_taken(to, known, origins),
        2 => say_both_sent(to, known),
        _ => {
            places::say(to, known, Waiting::ListedAgain, true)?;
            places::say(to, known, Waiting::GivenUp, false)
        }
    }
}

impl<R: Read> Walk<R> {
    // The record that opens the night.
    fn say_opened<T: Tell>(&self, to: &mut T) -> io::Result<()> {
        let opening = self.opening();
        to.tell(Fact::Opened {
            major: opening[0],
            minor: opening[1],
            key: &opening[2..34],
            port: octet::read_u16(opening, 34),
            address: &opening[38..54],
        })?;
        match self.row() {
            Some(row) => to.tell(Fact::Began(row)),
            None => Ok(()),
        }
    }

    // A record behind the opening one, or a bad one.
    fn say_record<T: Tell>(&self, to: &mut T, at: u64) -> io::Result<()> {
        let known = self.known();
        let kind = self.kind();
        to.tell(Fact::Record {
            at,
            second: self.seconds(),
            answer: known.answer,
            call: message::call_of(kind, &known),
        })?;
        if let Some(row) = self.row() {
            to.tell(Fact::Then {
                row,
                way: message::way_of(kind, row),
                same: self.is_same(row),
            })?;
        }
        message::say(to, &known)?;
        if known.answer.number != 0 {
            return Ok(());
        }
        say_done(to, kind, &known, self.origins())
    }

    // What happened at record number `at`, if there is one. Where the trace has none at all, the opening one is missing.
    pub fn say<T: Tell>(&self, to: &mut T, at: u64) -> io::Result<()> {
        if at == 0 && self.answer().number == 0 {
            return self.say_opened(to);
        }
        if at != 0 && self.record().is_empty() {
            return Ok(());
        }
        self.say_record(to, at)
    }
}
