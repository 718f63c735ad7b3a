// Vectors of what is written: numbers at a place, and runs copied, cleared, moved, inserted, removed. Each shows the bytes that are left.
// One whose bytes do not lie within is no vector.
use std::io::{self, Write};
use vector_text::line::{Line, Rooms};
use vector_text::say::Hex;

#[derive(Clone, Copy)]
enum Asked {
    Put16,
    Put32,
    Put16Le,
    Put32Le,
    Copied,
    Clear,
    Insert,
    Move,
    Remove,
}

const NAMES: [(&str, Asked); 9] = [
    ("put16", Asked::Put16),
    ("put32", Asked::Put32),
    ("put16-le", Asked::Put16Le),
    ("put32-le", Asked::Put32Le),
    ("copy", Asked::Copied),
    ("clear", Asked::Clear),
    ("insert", Asked::Insert),
    ("move", Asked::Move),
    ("remove", Asked::Remove),
];

// `put16 PLACE NUMBER BYTES` and its like, least significant byte first or last.
fn put(asked: Asked, s: &mut [u8], at: usize, n: u64) -> Option<()> {
    let behind = s.len().checked_sub(at)?;
    match asked {
        Asked::Put16 if 2 <= behind => octet::write_u16(s, at, (n % 65536) as u16),
        Asked::Put32 if 4 <= behind => octet::write_u32(s, at, (n % 4294967296) as u32),
        Asked::Put16Le if 2 <= behind => octet::write_u16_le(s, at, (n % 65536) as u16),
        Asked::Put32Le if 4 <= behind => octet::write_u32_le(s, at, (n % 4294967296) as u32),
        _ => return None,
    }
    Some(())
}

// `copy PLACE - BYTES SOURCE`: the source copied in from the place on.
fn copy(s: &mut [u8], at: usize, src: &[u8]) -> Option<()> {
    if s.len().checked_sub(at)? < src.len() {
        return None;
    }
    runs::copy_to(s, at, src);
    Some(())
}

// `clear PLACE COUNT BYTES`.
fn clear(s: &mut [u8], at: usize, n: usize) -> Option<()> {
    if s.len().checked_sub(at)? < n {
        return None;
    }
    runs::clear(s, at, n);
    Some(())
}

// `move FROM TO BYTES COUNT`: down where TO is the lower place, else up.
fn shift(s: &mut [u8], from: usize, to: usize, n: usize) -> Option<()> {
    if s.len().checked_sub(from.max(to))? < n {
        return None;
    }
    if to <= from {
        runs::move_down(s, from, to, n);
        return Some(());
    }
    runs::move_up(s, from, to, n);
    Some(())
}

// `insert PLACE END BYTES SOURCE`: what stands from the place up to the end moves up behind the source.
fn insert(s: &mut [u8], at: usize, end: usize, src: &[u8]) -> Option<()> {
    if s.len().checked_sub(end)? < src.len() || end < at {
        return None;
    }
    runs::insert(s, at, end, src);
    Some(())
}

// `remove PLACE COUNT BYTES END`: what stands behind, up to the end, moves down.
fn remove(s: &mut [u8], at: usize, n: usize, end: usize) -> Option<()> {
    if s.len() < end || end.checked_sub(n)? < at {
        return None;
    }
    runs::remove(s, at, n, end);
    Some(())
}

// The operands of each: a place, a number, the bytes `s`, and one more, which is bytes or a number.
fn act(asked: Asked, line: &Line<'_>, s: &mut [u8], src: &[u8]) -> Option<()> {
    let at = line.place(1);
    let second = line.place(2);
    match asked {
        Asked::Copied => copy(s, at, src),
        Asked::Clear => clear(s, at, second),
        Asked::Insert => insert(s, at, second, src),
        Asked::Move => shift(s, at, second, line.place(4)),
        Asked::Remove => remove(s, at, second, line.place(4)),
        _ => put(asked, s, at, line.number(2)),
    }
}

// What is left of the bytes `s`; false, and nothing written, where the vector's do not lie within.
fn left<W: Write>(
    asked: Asked,
    line: &Line<'_>,
    s: &mut [u8],
    src: &[u8],
    out: &mut W,
) -> io::Result<bool> {
    if act(asked, line, s, src).is_none() {
        return Ok(false);
    }
    let left = Hex(s);
    write!(out, "{left}")?;
    Ok(true)
}

pub(crate) fn answer<W: Write>(line: &mut Line<'_>, out: &mut W) -> io::Result<bool> {
    let Some(asked) = line.named(&NAMES) else {
        return Ok(false);
    };
    let s = line.bytes(3);
    let src: &[u8] = match asked {
        Asked::Copied | Asked::Insert => line.aside(4),
        _ => &[],
    };
    left(asked, line, s, src, out)
}

// The same in rooms that stay: the third and the fourth operand are left there as bytes, of a line of another name too.
pub(crate) fn answer_in<W: Write>(text: &[u8], rooms: &mut Rooms, out: &mut W) -> io::Result<bool> {
    let mut line = rooms.line(text);
    let s = line.bytes(3);
    let src = line.aside(4);
    match line.named(&NAMES) {
        Some(asked) => left(asked, &line, s, src, out),
        None => Ok(false),
    }
}
