// What the gauge kept at the end of the night: the keys held, the neighbours, what waits.
use crate::whose;
use shown_words::names::Names;
use std::io::{self, Write};

// A key's line.
fn write_line<W: Write>(out: &mut W, names: Names<'_>, key: &[u8]) -> io::Result<()> {
    names.write_whose(out, key)?;
    writeln!(out)
}

// So many of the records held.
fn write_held<W: Write>(
    out: &mut W,
    names: Names<'_>,
    cache: &[u8],
    used: usize,
) -> io::Result<()> {
    writeln!(out, "\nKeys held: {used} of 64")?;
    if used == 0 {
        return Ok(());
    }
    writeln!(out, "   Port  Addresses  Whose")?;
    let (records, _) = cache.as_chunks::<{ record::RECORD_LEN }>();
    for record in records.iter().take(used) {
        let port = u16::from_be_bytes([record[32], record[33]]);
        write!(out, "{port:>7}{:>11}  ", record[34])?;
        write_line(out, names, &record[..32])?;
    }
    Ok(())
}

// One side of the neighbours: how many, and which.
fn write_side<W: Write>(
    out: &mut W,
    what: &str,
    names: Names<'_>,
    keys: &[[u8; 32]],
) -> io::Result<()> {
    writeln!(out, "\nNeighbours {what}, nearest first: {}", keys.len())?;
    for key in keys {
        write!(out, "  ")?;
        write_line(out, names, key)?;
    }
    Ok(())
}

// The neighbours, of which a gauge has five on either side at most.
fn write_neighbours<W: Write>(
    out: &mut W,
    names: Names<'_>,
    own: &[u8],
    cache: &[u8],
) -> io::Result<()> {
    let mut room = [0u8; 320];
    let key = own.get(..32).unwrap_or(&[]);
    let (low, high) = match neighbours::neighbour_list(own, cache, key, &mut room) {
        Ok(counts) => (counts.below, counts.above),
        Err(_) => (0, 0),
    };
    let (keys, _) = room.as_chunks::<32>();
    let (below, behind) = keys.split_at_checked(low).unwrap_or((&[], &[]));
    let above = behind.get(..high).unwrap_or(&[]);
    write_side(out, "below, the next keys down", names, below)?;
    write_side(out, "above, the next keys up", names, above)
}

// So many of the waiting table's places.
fn write_places<W: Write>(
    out: &mut W,
    names: Names<'_>,
    waiting: &[u8],
    used: usize,
) -> io::Result<()> {
    writeln!(out, "\nWaiting for an answer: {used} of 16 places")?;
    if used == 0 {
        return Ok(());
    }
    writeln!(out, "  Message ID  Tries left  What it was")?;
    let (places, _) = waiting.as_chunks::<{ waiting::PLACE_LEN }>();
    for place in places.iter().take(used) {
        let id = u32::from_le_bytes([place[0], place[1], place[2], place[3]]);
        let what = match place[4] {
            1 => "FLOOD sent to",
            _ => "INQUIRE about",
        };
        write!(out, "{id:>12}{:>12}  {what} ", place[5])?;
        write_line(out, names, &place[8..40])?;
    }
    Ok(())
}

// How many records are held. A call leaves the cache in form.
fn held(own: &[u8], cache: &[u8]) -> usize {
    cache::form(own, cache).unwrap_or(0)
}

// How many places are used. A call leaves the waiting table in form.
fn waits(own: &[u8], waiting: &[u8]) -> usize {
    waiting_form::form(own, waiting).unwrap_or(0)
}

pub fn write_state<W: Write>(
    out: &mut W,
    names: Names<'_>,
    opening: &[u8],
    cache: &[u8],
    waiting: &[u8],
) -> io::Result<()> {
    let own = whose::own_of(opening);
    writeln!(out, "\nAt the end of the night")?;
    write_held(out, names, cache, held(own, cache))?;
    write_neighbours(out, names, own, cache)?;
    write_places(out, names, waiting, waits(own, waiting))
}
