// The facts of a recorded night: what a record was and what its call has done, as values. One program has words for them, and
// another a plain line: each tells them in its own way (Tell).
#![tactic(auto)]

mod hour;
mod message;
mod written;

use gauge_commit::Answer;
pub use hour::Hour;
use key::Key;
pub use message::Message;
use std::io;
pub use written::{Distance, Endpoint, Hex};

// A row of the second file: milliseconds since 1970, 0 where the hour is not known; an endpoint; the answer that was given.
#[derive(Clone, Copy)]
pub struct Row {
    pub ms: u64,
    pub endpoint: [u8; 18],
    pub answer: Answer,
}

// What a record was.
#[derive(Clone, Copy)]
pub enum Call<'a> {
    Bad,
    Received {
        message: Message,
        id: u32,
        bytes: usize,
    },
    Sending {
        id: u32,
        neighbour: &'a [u8],
        key: &'a [u8],
    },
    Tick,
}

// Whether the endpoint of a row is one that a datagram came from, or went to.
#[derive(Clone, Copy)]
pub enum Way {
    From,
    To,
    Unknown,
}

// Why a record is named; of the last two reasons the key of the other candidate, and how far that is from the target.
#[derive(Clone, Copy)]
pub enum Because<'a> {
    Only,
    Target,
    Tied(&'a [u8], Key),
    Nearest(&'a [u8], Key),
}

// The message that an INQUIRE came from, and the number of its record.
#[derive(Clone, Copy)]
pub struct Origin {
    pub message: Message,
    pub id: u32,
    pub record: u64,
}

// What an AUTHORITY carries. A depth is told by its bits.
#[derive(Clone, Copy)]
pub enum Reading {
    Depth {
        bits: u32,
        litres_in: u32,
        litres_out: u32,
    },
    Fault {
        fault: u32,
        litres_in: u32,
        litres_out: u32,
    },
    Refused(u32),
}

// What a call has done with a message that waits.
#[derive(Clone, Copy)]
pub enum Waiting {
    ListedAgain,
    GivenUp,
    Freed,
}

#[derive(Clone, Copy)]
pub enum Ending {
    Whole,
    Middle,
    Refused,
    Unopened,
}

#[derive(Clone, Copy)]
pub enum Fact<'a> {
    // a record opens the night: versions and own record
    Opened {
        major: u8,
        minor: u8,
        key: &'a [u8],
        port: u16,
        address: &'a [u8],
    },
    // the row of that record
    Began(Row),
    // a record behind the opening one, or a bad one: its number, its second, its answer
    Record {
        at: u64,
        second: u64,
        answer: Answer,
        call: Call<'a>,
    },
    // the row of such a record, and whether the answer is the one given
    Then {
        row: Row,
        way: Way,
        same: bool,
    },
    // what a message says: a key, or an ID
    About(&'a [u8]),
    For(&'a [u8]),
    Revoking(&'a [u8]),
    Answers(u32),
    // a record is named, so far from the target
    Named {
        key: &'a [u8],
        port: u16,
        address: &'a [u8],
        far: Key,
        because: Because<'a>,
    },
    // an AUTHORITY answers for a key: the ID of the INQUIRE, and what that came from
    Answered {
        key: &'a [u8],
        id: u32,
        origin: Option<Origin>,
    },
    Carried(Reading),
    // a message is sent, and the key that an INQUIRE is about, or the neighbour's of a FLOOD
    Sent {
        message: Message,
        id: u32,
        key: Option<&'a [u8]>,
    },
    Waited {
        what: Waiting,
        message: Message,
        id: u32,
        key: &'a [u8],
    },
    // what is held: a key, how many, the keys of a side
    Joined(&'a [u8]),
    Left(&'a [u8]),
    Held(usize),
    Below(&'a [[u8; 32]]),
    Above(&'a [[u8; 32]]),
    // how the night ends: how many answers were compared, and how many of them were others; how many good rows there are, where
    // they do not fit
    Ends {
        ending: Ending,
        compared: Option<(u64, u64)>,
        rows: Option<u64>,
    },
}

// Whoever tells the facts.
pub trait Tell {
    fn tell(&mut self, fact: Fact<'_>) -> io::Result<()>;
}
