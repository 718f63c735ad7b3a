// Vectors of numbers at a place, read in both byte orders, and of tests on slices.
use std::io::{self, Write};
use vector_text::line::{Line, Rooms};
use vector_text::say;

#[derive(Clone, Copy)]
enum Asked {
    U16,
    U32,
    U64,
    U16Le,
    U32Le,
    U64Le,
    ZeroWords,
    Equal,
    Zero,
}

const NAMES: [(&str, Asked); 9] = [
    ("u16", Asked::U16),
    ("u32", Asked::U32),
    ("u64", Asked::U64),
    ("u16-le", Asked::U16Le),
    ("u32-le", Asked::U32Le),
    ("u64-le", Asked::U64Le),
    ("zero-words", Asked::ZeroWords),
    ("equal", Asked::Equal),
    ("zero", Asked::Zero),
];

// `u16 PLACE BYTES` and its like: the number of so many bytes at the place, least significant byte first or last. None where
// they do not lie within.
fn number_at(asked: Asked, s: &[u8], at: usize) -> Option<u64> {
    let behind = s.len().checked_sub(at)?;
    match asked {
        Asked::U16 if 2 <= behind => Some(octet::read_u16(s, at).into()),
        Asked::U32 if 4 <= behind => Some(octet::read_u32(s, at).into()),
        Asked::U64 if 8 <= behind => Some(octet::read_u64(s, at)),
        Asked::U16Le if 2 <= behind => Some(octet::read_u16_le(s, at).into()),
        Asked::U32Le if 4 <= behind => Some(octet::read_u32_le(s, at).into()),
        Asked::U64Le if 8 <= behind => Some(octet::read_u64_le(s, at)),
        _ => None,
    }
}

fn number<W: Write>(asked: Asked, s: &[u8], at: usize, out: &mut W) -> io::Result<()> {
    match number_at(asked, s, at) {
        Some(number) => write!(out, "{number}"),
        None => say::outside(out),
    }
}

// `zero-words PLACE COUNT BYTES`: are so many words of eight bytes from the place on all zero?
fn zero_words(s: &[u8], at: usize, n: usize) -> Option<bool> {
    if s.len().checked_sub(at)? / 8 < n {
        return None;
    }
    Some(octet::zero_words(s, at, n))
}

// The third operand has the bytes of `zero-words`, which is told apart before any is laid.
fn words<W: Write>(line: &mut Line<'_>, out: &mut W) -> io::Result<()> {
    match zero_words(line.bytes(3), line.place(1), line.place(2)) {
        Some(zero) => say::yes(zero, out),
        None => say::outside(out),
    }
}

// `equal BYTES BYTES`, `zero BYTES`: the tests on whole slices.
pub(crate) fn answer<W: Write>(line: &mut Line<'_>, out: &mut W) -> io::Result<bool> {
    match line.named(&NAMES) {
        None => return Ok(false),
        Some(Asked::Equal) => say::yes(octet::equal(line.bytes(1), line.aside(2)), out)?,
        Some(Asked::Zero) => say::yes(octet::is_zero(line.bytes(1)), out)?,
        Some(Asked::ZeroWords) => words(line, out)?,
        Some(asked) => number(asked, line.bytes(2), line.place(1), out)?,
    }
    Ok(true)
}

// The same in rooms that stay: the second operand stands aside, and a line of another name leaves its operands there too.
pub(crate) fn answer_in<W: Write>(text: &[u8], rooms: &mut Rooms, out: &mut W) -> io::Result<bool> {
    let mut line = rooms.line(text);
    let asked = line.named(&NAMES);
    if let Some(Asked::ZeroWords) = asked {
        words(&mut line, out)?;
        return Ok(true);
    }
    let first = line.bytes(1);
    let second = line.aside(2);
    match asked {
        None => return Ok(false),
        Some(Asked::Equal) => say::yes(octet::equal(first, second), out)?,
        Some(Asked::Zero) => say::yes(octet::is_zero(first), out)?,
        Some(asked) => number(asked, second, line.place(1), out)?,
    }
    Ok(true)
}
