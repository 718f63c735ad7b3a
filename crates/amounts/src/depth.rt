// A depth as text: metres with millimetres, made of the bits by whole numbers, so that what is rounded is exact.
use crate::number;
use std::cmp::Ordering;
use std::io::{self, Write};

// The parts of a millimetre in which depths are counted here.
const PARTS: u64 = 0x4_0000_0000;

// A depth in parts of a millimetre, 2 ^ 34 to each. By IEEE 754 a binary32 of exponent e, from 1 on, and fraction f is
// (2 ^ 23 + f) * 2 ^ (e - 150) metres: at 116 that is 1000 * (2 ^ 23 + f) parts, and each step above doubles it. The
// exponent of 20 metres is 131. What is below 116 is less than half a millimetre, and counts as none.
fn parts(bits: u32) -> u64 {
    match bits / 0x80_0000 % 256 {
        exponent @ 116..=131 => {
            let digits = u64::from(0x80_0000 + bits % 0x80_0000);
            (digits * 1000) << (exponent - 116)
        }
        _ => 0,
    }
}

// The nearest whole number of millimetres; of two equally near, the even one.
fn nearest(parts: u64) -> u64 {
    let whole = parts / PARTS;
    match (parts % PARTS).cmp(&(PARTS / 2)) {
        Ordering::Less => whole,
        Ordering::Equal => whole + whole % 2,
        Ordering::Greater => whole + 1,
    }
}

// The depth of these bits, which are those of an allowed one, up to a place in a line of blanks. Negative zero is 0.000.
pub fn put(line: &mut [u8], end: usize, bits: u32) {
    let millimetres = nearest(parts(bits));
    let metres_end = end.saturating_sub(4);
    if let Some(behind) = line.get_mut(metres_end..end) {
        for (place, zero) in behind.iter_mut().zip(b".000".iter()) {
            *place = *zero;
        }
    }
    number::put(line, end, millimetres % 1000);
    number::put(line, metres_end, millimetres / 1000);
}

// The same, with the whole metres at the right end of a column.
pub fn write<W: Write>(out: &mut W, bits: u32, width: usize) -> io::Result<()> {
    let millimetres = nearest(parts(bits));
    write!(
        out,
        "{:>width$}.{:03}",
        millimetres / 1000,
        millimetres % 1000
    )
}
