// Vectors of the cache.
use crate::searched::searches;
use neighbours::Spot;
use std::io::{self, Write};
use vector_text::line::{Line, Rooms};
use vector_text::say::{self, Hex, Keys};

#[derive(Clone, Copy)]
enum Asked {
    Form,
    Learn,
    Remove,
    Neighbours,
    Closest,
    Searches,
    Search,
}

const NAMES: [(&str, Asked); 7] = [
    ("cache-form", Asked::Form),
    ("learn", Asked::Learn),
    ("remove-key", Asked::Remove),
    ("neighbours", Asked::Neighbours),
    ("closest", Asked::Closest),
    ("searches", Asked::Searches),
    ("search", Asked::Search),
];

// How many records the cache holds; None where it is not in form.
fn held(own: &[u8], cache: &[u8]) -> Option<usize> {
    own.get(..32)?;
    cache::form(own, cache)
}

// The number, and with 0 the keys held.
fn changed<W: Write>(
    done: Result<(), u32>,
    own: &[u8],
    cache: &[u8],
    out: &mut W,
) -> io::Result<()> {
    if let Err(number) = done {
        return write!(out, "{number}");
    }
    write!(out, "0")?;
    match held(own, cache) {
        Some(count) => {
            let keys = Keys {
                rows: cache,
                count,
                step: 100,
            };
            write!(out, " {keys}")
        }
        None => Ok(()),
    }
}

// The number, and with 0 the two counts and the keys.
fn neighbours<W: Write>(own: &[u8], cache: &[u8], key: &[u8], out: &mut W) -> io::Result<()> {
    let mut room = [0u8; 320];
    match neighbours::neighbour_list(own, cache, key, &mut room) {
        Ok(counts) => {
            let (below, above) = (counts.below, counts.above);
            let keys = Keys {
                rows: &room,
                count: below.saturating_add(above),
                step: 32,
            };
            write!(out, "0 {below} {above} {keys}")
        }
        Err(number) => write!(out, "{number}"),
    }
}

// The number, and with 0 the record and how many keys were compared.
fn closest<W: Write>(
    own: &[u8],
    cache: &[u8],
    path: &[u8],
    target: &[u8],
    out: &mut W,
) -> io::Result<()> {
    let sighted = neighbours::closest_record(own, cache, path, target);
    let (nearest, compared) = (sighted.nearest, sighted.compared);
    let record = match nearest {
        Err(number) => return write!(out, "{number}"),
        Ok(Spot::Own(i)) => own.chunks_exact(100).nth(i),
        Ok(Spot::Held(i)) => cache.chunks_exact(100).nth(i),
    };
    match record {
        Some(record) => {
            let record = Hex(record);
            write!(out, "0 {record} {compared}")
        }
        None => Ok(()),
    }
}

// The number, and with 0 the place, from 1 and 0 where it is not held, and how many keys were compared.
fn search<W: Write>(own: &[u8], cache: &[u8], key: &[u8], out: &mut W) -> io::Result<()> {
    let searched = cache::search_key(own, cache, key);
    let (number, place, compared) = (searched.number, searched.place, searched.compared);
    if number != 0 {
        return write!(out, "{number}");
    }
    write!(out, "{number} {place} {compared}")
}

fn said<W: Write>(
    asked: Asked,
    own: &[u8],
    cache: &mut [u8],
    third: &[u8],
    fourth: &[u8],
    out: &mut W,
) -> io::Result<()> {
    match asked {
        Asked::Form => match held(own, cache) {
            Some(count) => write!(out, "{count}"),
            None => say::bad(out),
        },
        Asked::Learn => {
            let done = cache::learn_record(own, cache, third);
            changed(done, own, cache, out)
        }
        Asked::Remove => {
            let done = cache::remove_key(own, cache, third);
            changed(done, own, cache, out)
        }
        Asked::Neighbours => neighbours(own, cache, third, out),
        Asked::Closest => closest(own, cache, third, fourth, out),
        Asked::Searches => searches(own, cache, out),
        Asked::Search => search(own, cache, third, out),
    }
}

pub(crate) fn answer<W: Write>(line: &mut Line<'_>, out: &mut W) -> io::Result<bool> {
    let Some(asked) = line.named(&NAMES) else {
        return Ok(false);
    };
    let own = line.bytes(1);
    let cache = line.aside(2);
    let third = line.bytes(3);
    let fourth: &[u8] = match asked {
        Asked::Closest => line.bytes(4),
        _ => &[],
    };
    said(asked, own, cache, third, fourth, out)?;
    Ok(true)
}

// The same in rooms that stay: all four operands are left there, of a line of another name too.
pub(crate) fn answer_in<W: Write>(text: &[u8], rooms: &mut Rooms, out: &mut W) -> io::Result<bool> {
    let mut line = rooms.line(text);
    let own = line.bytes(1);
    let cache = line.aside(2);
    let third = line.bytes(3);
    let fourth = line.bytes(4);
    let Some(asked) = line.named(&NAMES) else {
        return Ok(false);
    };
    said(asked, own, cache, third, fourth, out)?;
    Ok(true)
}
