// Lines that lay out the memory that the calls are lent.
use crate::memory::Lent;
use std::io::{self, Write};
use vector_text::line::Line;
use vector_text::say;

#[derive(Clone, Copy)]
enum Asked {
    Gauge,
    Cache,
    Firsts,
    Waiting,
}

const NAMES: [(&str, Asked); 4] = [
    ("gauge", Asked::Gauge),
    ("set-cache", Asked::Cache),
    ("set-firsts", Asked::Firsts),
    ("set-waiting", Asked::Waiting),
];

// `gauge OWN C CPA MAJOR MINOR`: an empty cache of C records, no key counted, and an empty waiting table. None where there is
// no room for so many records.
fn begin(line: &Line<'_>, lent: &mut Lent) -> Option<()> {
    lent.cache.clear(100 * (line.place(2) % 1024))?;
    lent.firsts.clear(512)?;
    lent.waiting.clear(2240)?;
    lent.records.keep(line, 1, 3);
    lent.major = line.byte(4);
    lent.minor = line.byte(5);
    Some(())
}

// `set-cache BYTES`, `set-firsts BYTES`, `set-waiting BYTES`: the whole of one of them, as it is.
pub(crate) fn answer<W: Write>(line: &Line<'_>, lent: &mut Lent, out: &mut W) -> io::Result<bool> {
    let Some(asked) = line.named(&NAMES) else {
        return Ok(false);
    };
    match asked {
        Asked::Gauge => {
            if begin(line, lent).is_none() {
                say::outside(out)?;
                return Ok(true);
            }
        }
        Asked::Cache => line.keep(1, &mut lent.cache),
        Asked::Firsts => line.keep(1, &mut lent.firsts),
        Asked::Waiting => line.keep(1, &mut lent.waiting),
    }
    out.write_all(b"ok")?;
    Ok(true)
}
