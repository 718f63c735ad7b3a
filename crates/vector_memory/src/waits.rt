// Vectors of the waiting table.
use std::io::{self, Write};
use vector_text::line::Line;
use vector_text::say;

#[derive(Clone, Copy)]
enum Asked {
    Form,
    Ticks,
}

const NAMES: [(&str, Asked); 2] = [("waiting-form", Asked::Form), ("ticks", Asked::Ticks)];

// How many places are used; None where the table is not in form.
fn used(own: &[u8], table: &[u8]) -> Option<usize> {
    own.get(..32)?;
    waiting_form::form(own, table)
}

fn form<W: Write>(own: &[u8], table: &[u8], out: &mut W) -> io::Result<()> {
    match used(own, table) {
        Some(count) => write!(out, "{count}"),
        None => say::bad(out),
    }
}

// So many IDs of 32 bits, least significant byte first, apart by commas; `-` for none.
fn ids<W: Write>(s: &[u8], count: usize, out: &mut W) -> io::Result<()> {
    if count == 0 {
        return out.write_all(b"-");
    }
    for (i, id) in s.chunks_exact(4).take(count).enumerate() {
        if 0 < i {
            out.write_all(b",")?;
        }
        if 4 <= id.len() {
            let id = octet::read_u32_le(id, 0);
            write!(out, "{id}")?;
        }
    }
    Ok(())
}

// One tick: its number and the IDs it lists.
fn tick<W: Write>(own: &[u8], table: &mut [u8], out: &mut W) -> io::Result<()> {
    let mut room = [0u8; 64];
    let answer = waiting_form::tick(own, table, &mut room);
    let number = answer.number;
    write!(out, "{number}:")?;
    ids(&room, answer.count, out)?;
    out.write_all(b" ")
}

pub(crate) fn answer<W: Write>(line: &mut Line<'_>, out: &mut W) -> io::Result<bool> {
    let Some(asked) = line.named(&NAMES) else {
        return Ok(false);
    };
    let own: &[u8] = line.bytes(1);
    let table = line.aside(2);
    match asked {
        Asked::Form => form(own, table, out)?,
        Asked::Ticks => {
            for _ in 0..line.byte(3) {
                tick(own, table, out)?;
            }
            form(own, table, out)?;
        }
    }
    Ok(true)
}
