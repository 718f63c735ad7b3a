// All that is known at a record.
use gauge_commit::Answer;
use look::Look;

// The cache and the waiting table.
#[derive(Clone, Copy)]
pub(crate) struct Tables<'a> {
    pub(crate) cache: &'a [u8],
    pub(crate) waiting: &'a [u8],
}

impl<'a> Tables<'a> {
    // Of the memory of a night.
    pub(crate) fn of(memory: &'a [u8]) -> Tables<'a> {
        Tables {
            cache: memory.get(..night::CACHE).unwrap_or(&[]),
            waiting: memory.get(night::WAITING_AT..night::TABLES).unwrap_or(&[]),
        }
    }
}

// Major version and own record, the tables before the call and behind it, the record, what its datagram is, and what the call has
// written and answered.
#[derive(Clone, Copy)]
pub(crate) struct Known<'a> {
    pub(crate) major: u8,
    pub(crate) own: &'a [u8],
    pub(crate) before: Tables<'a>,
    pub(crate) now: Tables<'a>,
    pub(crate) record: &'a [u8],
    pub(crate) look: Look,
    pub(crate) output: &'a [u8],
    pub(crate) answer: Answer,
}

impl<'a> Known<'a> {
    pub(crate) fn datagram(&self) -> &'a [u8] {
        datagram(self.record)
    }
}

// The datagram of a record of one received: behind message ID, verdict, key and nonce.
pub(crate) fn datagram(record: &[u8]) -> &[u8] {
    record.get(57..).unwrap_or(&[])
}

// The key that stands at a place: no byte where there is none.
pub(crate) fn key_at(s: &[u8], place: usize) -> &[u8] {
    let behind = s.get(place..).unwrap_or(&[]);
    behind.get(..32).unwrap_or(&[])
}
