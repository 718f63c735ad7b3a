// The line of a change.
use crate::entry::{Entry, Kind};
use crate::records::{self, Record};
use shown_words::names::Names;
use std::io::{self, Write};

fn port(record: &Record) -> u16 {
    u16::from_be_bytes([record[32], record[33]])
}

// 16 bytes.
fn address(record: &Record) -> &[u8] {
    &record[36..52]
}

// An address as eight groups of digits, all of them written out.
fn write_address<W: Write>(out: &mut W, address: &[u8]) -> io::Result<()> {
    let (groups, _) = address.as_chunks::<2>();
    let mut between = "";
    for [high, low] in groups {
        write!(out, "{between}{high:02x}{low:02x}")?;
        between = ":";
    }
    Ok(())
}

// Port and address of a new key.
fn write_both<W: Write>(out: &mut W, record: &Record) -> io::Result<()> {
    write!(out, "; port {}; address ", port(record))?;
    write_address(out, address(record))
}

// The port, where it is another.
fn write_other_port<W: Write>(out: &mut W, old: u16, new: u16) -> io::Result<()> {
    if old == new {
        return Ok(());
    }
    write!(out, "; port {old} before, {new} now")
}

// The address, where it is another.
fn write_other_address<W: Write>(out: &mut W, old: &[u8], new: &[u8]) -> io::Result<()> {
    if old == new {
        return Ok(());
    }
    write!(out, "; address ")?;
    write_address(out, old)?;
    write!(out, " before, ")?;
    write_address(out, new)?;
    write!(out, " now")
}

// What is told behind the name, by the kind; of a changed record as it was before, too.
fn write_what<W: Write>(out: &mut W, entry: Entry<'_>, old: Option<&Record>) -> io::Result<()> {
    match (entry.kind, old) {
        (Kind::New, _) => write_both(out, entry.record),
        (Kind::Changed, Some(old)) => {
            write_other_port(out, port(old), port(entry.record))?;
            write_other_address(out, address(old), address(entry.record))
        }
        _ => Ok(()),
    }
}

// The line of an entry, with the cache before, in which a changed record is found as it was.
pub(crate) fn write_entry<W: Write>(
    out: &mut W,
    names: Names<'_>,
    before: &[u8],
    entry: Entry<'_>,
) -> io::Result<()> {
    let Entry { kind, record } = entry;
    let kind = match kind {
        Kind::Gone => "gone",
        Kind::New => "new",
        Kind::Changed => "changed",
    };
    let key = &record[..32];
    write!(out, "{kind:<9}")?;
    names.write_whose(out, key)?;
    write_what(out, entry, records::of_key(before, key))?;
    writeln!(out)
}
