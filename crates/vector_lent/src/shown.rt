// Lines that show the memory: the keys held, how many of them begin with each byte, the places used.
use crate::memory::Lent;
use std::io::{self, Write};
use vector_text::line::Line;
use vector_text::say::{self, Keys};

#[derive(Clone, Copy)]
enum Asked {
    Held,
    Firsts,
    Waits,
}

const NAMES: [(&str, Asked); 3] = [
    ("held", Asked::Held),
    ("firsts", Asked::Firsts),
    ("waits", Asked::Waits),
];

// The keys held, apart by commas; None where the cache is not in form.
fn held<'a>(own: &[u8], cache: &'a [u8]) -> Option<Keys<'a>> {
    own.get(..32)?;
    let count = cache::form(own, cache)?;
    Some(Keys {
        rows: cache,
        count,
        step: 100,
    })
}

// The counts that are not 0, as byte:number, apart by commas; `-` for none.
fn counts<W: Write>(firsts: &[u8], out: &mut W) -> io::Result<()> {
    let mut said = false;
    if firsts.len() == 512 {
        for byte in 0..256 {
            let count = octet::read_u16_le(firsts, 2 * byte);
            if count != 0 {
                if said {
                    out.write_all(b",")?;
                }
                write!(out, "{byte:x}:{count}")?;
                said = true;
            }
        }
    }
    if said { Ok(()) } else { out.write_all(b"-") }
}

// How many places are used; None where the waiting table is not in form.
fn used(own: &[u8], waiting: &[u8]) -> Option<usize> {
    own.get(..32)?;
    waiting_form::form(own, waiting)
}

// A place as ID:kind:tries:key.
fn place<W: Write>(place: &[u8], out: &mut W) -> io::Result<()> {
    if place.len() < 40 {
        return Ok(());
    }
    let id = octet::read_u32_le(place, 0);
    let (kind, tries) = (place[4], place[5]);
    let key = Keys {
        rows: &place[8..40],
        count: 1,
        step: 32,
    };
    write!(out, "{id}:{kind}:{tries}:{key}")
}

// So many places, apart by commas; `-` for none.
fn places<W: Write>(waiting: &[u8], used: usize, out: &mut W) -> io::Result<()> {
    if used == 0 {
        return out.write_all(b"-");
    }
    for (i, waits) in waiting.chunks_exact(140).take(used).enumerate() {
        if 0 < i {
            out.write_all(b",")?;
        }
        place(waits, out)?;
    }
    Ok(())
}

pub(crate) fn answer<W: Write>(line: &Line<'_>, lent: &Lent, out: &mut W) -> io::Result<bool> {
    let Some(asked) = line.named(&NAMES) else {
        return Ok(false);
    };
    let own = lent.records.own();
    match asked {
        Asked::Held => match held(own, lent.cache.bytes()) {
            Some(keys) => write!(out, "{keys}")?,
            None => say::bad(out)?,
        },
        Asked::Firsts => counts(lent.firsts.bytes(), out)?,
        Asked::Waits => match used(own, lent.waiting.bytes()) {
            Some(used) => places(lent.waiting.bytes(), used, out)?,
            None => say::bad(out)?,
        },
    }
    Ok(true)
}
