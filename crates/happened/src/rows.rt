// The rows of the second file, which need not be there: 40 bytes for each record, of which the last two are zero. They are read at
// file descriptor 4 by the kit's `io`, as std takes a descriptor by its number in unsafe code alone.
use facts::Row;
use gauge_commit::Answer;

#[derive(Clone, Copy, PartialEq, Eq)]
enum Behind {
    More,
    Nothing,
    NoGoodRow,
}

// How many good rows there were, and what is behind them.
#[derive(Clone, Copy)]
pub(crate) struct Rows {
    count: u64,
    behind: Behind,
}

// A row, if it is a good one.
fn row_of(bytes: &[u8; 40]) -> Option<Row> {
    if octet::read_u16_le(bytes, 38) != 0 {
        return None;
    }
    let mut endpoint = [0; 18];
    endpoint.copy_from_slice(&bytes[8..26]);
    let answer = Answer {
        number: octet::read_u32_le(bytes, 26),
        first: octet::read_u32_le(bytes, 30),
        second: octet::read_u32_le(bytes, 34),
    };
    Some(Row {
        ms: octet::read_u64_le(bytes, 0),
        endpoint,
        answer,
    })
}

impl Rows {
    pub(crate) fn begun() -> Rows {
        Rows {
            count: 0,
            behind: Behind::More,
        }
    }

    pub(crate) fn count(&self) -> u64 {
        self.count
    }

    // Behind the last, or behind what is no good row, none is read.
    pub(crate) fn next(&mut self) -> Option<Row> {
        if self.behind != Behind::More {
            return None;
        }
        let mut bytes = [0; 40];
        let got = io::read_full(4, &mut bytes);
        let row = if got == 40 { row_of(&bytes) } else { None };
        match row {
            Some(_) => self.count = self.count.saturating_add(1),
            None if got == 0 => self.behind = Behind::Nothing,
            None => self.behind = Behind::NoGoodRow,
        }
        row
    }

    // Reads those that are left. A proved loop has to end, and nothing says that the file does.
    pub(crate) fn close(&mut self) {
        for _ in 0..u64::MAX {
            if self.next().is_none() {
                return;
            }
        }
    }

    // Is there a good row for each of so many records and nothing else, or none at all?
    pub(crate) fn fit(&self, records: u64) -> bool {
        self.behind != Behind::NoGoodRow && (self.count == 0 || self.count == records)
    }
}
