// The list of changes: entries of a kind, and a record.
use crate::records::Record;

pub(crate) const ENTRY: usize = 101;

#[derive(Clone, Copy, PartialEq, Eq)]
pub(crate) enum Kind {
    Gone,
    New,
    Changed,
}

#[derive(Clone, Copy)]
pub(crate) struct Entry<'a> {
    pub(crate) kind: Kind,
    pub(crate) record: &'a Record,
}

// The entry that these bytes are.
pub(crate) fn entry_of(bytes: &[u8]) -> Option<Entry<'_>> {
    let (kind, record) = bytes.split_first()?;
    let kind = match *kind {
        1 => Kind::Gone,
        2 => Kind::New,
        3 => Kind::Changed,
        _ => return None,
    };
    let record = record.first_chunk()?;
    Some(Entry { kind, record })
}
