// The walk through a night: its records, in the form of document 02's request 1, and beside them the rows of a second file.
ghost use Rattle.std.specs.Prelude.{◌≡◌, length};

use crate::known::{Known, Tables, datagram};
use crate::origin::Origins;
use crate::rows::Rows;
use facts::{Ending, Fact, Row, Tell};
use gauge_commit::Answer;
use look::Look;
use std::io::{self, Read};

// The night as it is now, the tables as they were before the call, what the call has written and answered, the record, its row and
// what its datagram is; how many ticks were accepted so far, and how many calls, and how many answers were not the one given that
// night. Where the trace has ended, the record has no byte, and the answer is 17.
#[derive(Drop)]
pub struct Walk<R> {
    input: R,
    rows: Rows,
    origins: Origins,
    state: [u8; night::STATE],
    before: [u8; night::TABLES],
    output: [u8; night::OUTPUT],
    answer: Answer,
    room: [u8; trace::RECORD],
    len: usize,
    row: Option<Row>,
    look: Look,
    seconds: u64,
    accepted: u64,
    others: u64,
}

const ENDED: Answer = Answer {
    number: 17,
    first: 0,
    second: 0,
};

fn are_same(x: Answer, y: Answer) -> bool {
    x.number == y.number && x.first == y.first && x.second == y.second
}

// 0 for a record that can't be used, else its kind.
fn kind_of(record: &[u8], answer: Answer) -> u8 {
    if trace::is_end(answer.number) {
        return 0;
    }
    record.get(2).copied().unwrap_or(0)
}

// What the datagram of a record is; of another record, what no datagram is.
fn look_of(major: u8, kind: u8, record: &[u8]) -> Look {
    let of = if kind == 1 { datagram(record) } else { &[] };
    look::look_at(major, of)
}

impl<R: Read> Walk<R> {
    // Before the first record.
    pub fn begin(input: R) -> Walk<R> {
        Walk {
            input,
            rows: Rows::begun(),
            origins: Origins::none(),
            state: [0; night::STATE],
            before: [0; night::TABLES],
            output: [0; night::OUTPUT],
            answer: ENDED,
            room: [0; trace::RECORD],
            len: 0,
            row: None,
            look: look::look_at(0, &[]),
            seconds: 0,
            accepted: 0,
            others: 0,
        }
    }

    // Record number `at`, if there is one: its call is made, and its row read; beside a trace that has ended none is.
    pub fn next(&mut self, at: u64) {
        self.before.copy_from_slice(&self.state[..night::TABLES]);
        let len = trace::next_record(&mut self.input, &mut self.room);
        self.len = len;
        self.answer = ENDED;
        self.row = None;
        if len != 0 {
            let record = &self.room[..len];
            self.answer = night::step_told(at, &mut self.state, record, &mut self.output);
            self.row = self.rows.next();
        }
        self.look = look_of(self.major(), self.kind(), self.record());
        if at != 0 {
            self.count(at);
        }
    }

    // The record was a call.
    fn count(&mut self, at: u64) {
        if self.is_other() {
            self.others = self.others.saturating_add(1);
        }
        if self.answer.number != 0 {
            return;
        }
        self.accepted = self.accepted.saturating_add(1);
        if self.kind() == 3 {
            self.seconds = self.seconds.saturating_add(1);
        }
        let record = self.room.get(..self.len).unwrap_or(&[]);
        self.origins.note(
            Tables::of(&self.before).waiting,
            Tables::of(&self.state).waiting,
            record,
            at,
            self.look,
        );
    }

    pub(crate) fn kind(&self) -> u8 {
        kind_of(self.record(), self.answer)
    }

    pub(crate) fn is_same(&self, row: Row) -> bool {
        are_same(row.answer, self.answer)
    }

    fn is_other(&self) -> bool {
        match self.row {
            Some(row) => !self.is_same(row),
            None => false,
        }
    }

    pub(crate) fn origins(&self) -> &Origins {
        &self.origins
    }

    pub(crate) fn row(&self) -> Option<Row> {
        self.row
    }

    pub(crate) fn known(&self) -> Known<'_> {
        Known {
            major: self.major(),
            own: self.own(),
            before: Tables::of(&self.before),
            now: self.now(),
            record: self.record(),
            look: self.look,
            output: &self.output,
            answer: self.answer,
        }
    }

    fn now(&self) -> Tables<'_> {
        Tables::of(&self.state)
    }

    fn major(&self) -> u8 {
        self.state[night::OPENING]
    }

    fn own(&self) -> &[u8] {
        &self.state[night::OPENING + 2..night::STATE]
    }

    pub fn answer(&self) -> Answer {
        self.answer
    }

    // How many ticks were accepted so far.
    pub fn seconds(&self) -> u64 {
        self.seconds
    }

    // Is there a row of the second file for this record?
    pub fn has_row(&self) -> bool {
        self.row.is_some()
    }

    // The record; no byte where the trace has ended.
    pub fn record(&self) -> &[u8] {
        self.room.get(..self.len).unwrap_or(&[])
    }

    // Versions and own record, and the tables as they are now.
    pub fn opening(&self) -> &[u8]
        ensures { length result.now ≡ 102 }
    {
        &self.state[night::OPENING..night::STATE]
    }

    pub fn cache(&self) -> &[u8] {
        self.now().cache
    }

    pub fn waiting(&self) -> &[u8] {
        self.now().waiting
    }

    // Was this the last, as the trace has ended or a record is bad?
    pub fn is_last(&self) -> bool {
        trace::is_end(self.answer.number)
    }

    // How a night of so many good records ends: in the middle at a bad one, refused where no call of it was accepted.
    fn ending(&self, good: u64) -> Ending {
        if good == 0 {
            Ending::Unopened
        } else if self.len != 0 {
            Ending::Middle
        } else if good != 1 && self.accepted == 0 {
            Ending::Refused
        } else {
            Ending::Whole
        }
    }

    // How the night ends, behind so many good records. The last record may be a bad one, and has a row all the same.
    pub fn say_end<T: Tell>(&mut self, to: &mut T, good: u64) -> io::Result<()> {
        let so_far = self.rows.count();
        self.rows.close();
        let bad = if self.len == 0 { 0 } else { 1 };
        let fit = self.rows.fit(good.saturating_add(bad));
        to.tell(Fact::Ends {
            ending: self.ending(good),
            compared: if so_far < 2 {
                None
            } else {
                Some((so_far - 1, self.others))
            },
            rows: if fit { None } else { Some(self.rows.count()) },
        })
    }
}
