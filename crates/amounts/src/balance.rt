// A balance as text: + or - in front, but 0 without a sign.
use crate::number;
use std::cmp::Ordering;
use std::io::{self, Write};

// Of a reading, up to a place in a line of blanks.
pub fn put(line: &mut [u8], end: usize, litres: i64) {
    let sign = match litres.cmp(&0) {
        Ordering::Less => b'-',
        Ordering::Equal => b' ',
        Ordering::Greater => b'+',
    };
    let digits = number::put(line, end, readings::magnitude(litres));
    let before = end.saturating_sub(digits).wrapping_sub(1);
    if let Some(place) = line.get_mut(before) {
        *place = sign;
    }
}

// At the right end of a column, and what a deficit is marked by.
fn write_signed<W: Write>(out: &mut W, litres: i128, width: usize) -> io::Result<()> {
    match litres {
        0 => write!(out, "{:>width$}", 0),
        1.. => write!(out, "{litres:>+width$}"),
        _ => write!(out, "{litres:>width$}  deficit"),
    }
}

// Of a reading.
pub fn write<W: Write>(out: &mut W, inflow: u32, outflow: u32, width: usize) -> io::Result<()> {
    write_signed(out, i128::from(readings::balance(inflow, outflow)), width)
}

// Of all readings: a difference of sums may have 65 bits with its sign.
pub fn write_all<W: Write>(out: &mut W, inflow: u64, outflow: u64, width: usize) -> io::Result<()> {
    write_signed(out, i128::from(inflow) - i128::from(outflow), width)
}
