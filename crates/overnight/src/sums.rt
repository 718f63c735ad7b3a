// How many keys were held, and how many changed.
use crate::entry::{self, Kind};
use crate::records;
use std::io::{self, Write};

// How many entries of the list are of a kind.
fn of_kind(list: &[u8], kind: Kind) -> usize {
    list.chunks_exact(entry::ENTRY)
        .filter_map(entry::entry_of)
        .filter(|entry| entry.kind == kind)
        .count()
}

fn write_sum<W: Write>(out: &mut W, what: &str, sum: usize) -> io::Result<()> {
    writeln!(out, "{what:<16}{sum:>4}")
}

pub(crate) fn write_sums<W: Write>(
    out: &mut W,
    before: &[u8],
    after: &[u8],
    list: &[u8],
) -> io::Result<()> {
    let held = records::count(before);
    let gone = of_kind(list, Kind::Gone);
    let changed = of_kind(list, Kind::Changed);
    if !list.is_empty() {
        writeln!(out)?;
    }
    write_sum(out, "Held before", held)?;
    write_sum(out, "Held after", records::count(after))?;
    write_sum(out, "Gone", gone)?;
    write_sum(out, "New", of_kind(list, Kind::New))?;
    write_sum(out, "Changed", changed)?;
    // What both caches hold in the same way: of the keys held before, those neither gone nor changed.
    write_sum(
        out,
        "Unchanged",
        held.wrapping_sub(gone).wrapping_sub(changed),
    )
}
