// Lines that look at a datagram: `look MAJOR DATAGRAM`.
use std::io::{self, Write};
use vector_lent::Lent;
use vector_text::line::Line;

const NAMES: [(&str, ()); 1] = [("look", ())];

// All twelve numbers.
pub(crate) fn answer<W: Write>(line: &Line<'_>, lent: &mut Lent, out: &mut W) -> io::Result<bool> {
    if line.named(&NAMES).is_none() {
        return Ok(false);
    }
    let mut given = lent.records.give(line.text);
    let look = gauge::gauge_look(line.byte(1), given.line.bytes(2));
    let number = look.number;
    write!(out, "{number}")?;
    let rest = [
        look.kind,
        look.id,
        look.acked,
        look.cpa,
        look.cpa_length,
        look.nonce,
        look.nonce_length,
        look.entry,
        look.entry_length,
        look.target,
        look.target_length,
    ];
    for number in rest {
        write!(out, " {number}")?;
    }
    Ok(true)
}
