// The line of a reading.
use amounts::{balance, depth, number};
use readings::{Measured, Reading};
use std::io::{Result, Write};
use text::Columns;

// Where the fields of a reading's line end: its number, of 20 digits at most; what was measured; litres in and out; their balance.
const NUMBER: usize = 20;

const MEASURED: usize = 33;

const INFLOW: usize = 45;

const OUTFLOW: usize = 57;

const BALANCE: usize = 70;

// What a deficit is marked by, behind its balance.
const DEFICIT: &[u8; 9] = b"  deficit";

// A number takes so many columns at least.
const LEAST: usize = 7;

// The column behind which names stand, and the most bytes that a line has with one.
const NAMED: usize = 66;

const MOST: usize = 160;

// The column of names is there where there are names.
pub(crate) fn write_heading<W: Write>(out: &mut W, names: &[u8]) -> Result<()> {
    write!(
        out,
        "Reading  Depth, m      Litres in  Litres out      Balance"
    )?;
    if names.is_empty() {
        writeln!(out)
    } else {
        writeln!(out, "           Pond")
    }
}

// Behind two blanks a depth in metres, or a fault with its number.
fn put_measured(line: &mut [u8; BALANCE], measured: Measured) -> Result<()> {
    match measured {
        Measured::Depth(depth) => depth::put(line, NUMBER + 8, readings::bits_of(depth)),
        Measured::Fault(fault) => {
            let mut behind = &mut line[NUMBER + 2..MEASURED];
            write!(behind, "fault {fault}")?;
        }
    }
    Ok(())
}

// The line of a reading up to its name, put together in its fields and written in one piece. How many columns it takes.
fn write_reading<W: Write>(out: &mut W, at: u64, reading: Reading) -> Result<usize> {
    let Reading {
        measured,
        inflow,
        outflow,
    } = reading;
    let litres = readings::balance(inflow, outflow);
    let mut line = [b' '; BALANCE];
    let digits = number::put(&mut line, NUMBER, at);
    put_measured(&mut line, measured)?;
    number::put(&mut line, INFLOW, u64::from(inflow));
    number::put(&mut line, OUTFLOW, u64::from(outflow));
    balance::put(&mut line, BALANCE, litres);
    let taken = BALANCE - NUMBER + digits.max(LEAST).min(NUMBER);
    out.write_all(&line[BALANCE - taken..])?;
    if litres < 0 {
        out.write_all(DEFICIT)?;
        return Ok(taken + DEFICIT.len());
    }
    Ok(taken)
}

// What the numbers of document 02, request 7, mean for a reading that is not taken.
pub(crate) fn meaning_of(number: u32) -> &'static str {
    match number {
        1 => "of wrong length, or cut short",
        2 => "of an unknown kind",
        _ => "its depth is not from 0 to 20 metres",
    }
}

// The line of what is refused up to its name: its number, that of the refusal, and how many bytes behind a wrong length were not
// looked at, if some were. How many columns it takes.
fn write_refused<W: Write>(out: &mut W, at: u64, number: u32, unseen: usize) -> Result<usize> {
    let meaning = meaning_of(number);
    let mut line = Columns::of(out);
    write!(line, "{at:>LEAST$}  refused: {number} {meaning}")?;
    if 0 < unseen {
        write!(line, "; bytes not looked at: {unseen}")?;
    }
    Ok(line.taken())
}

// The name behind so many columns, under the others, and the line's end. For a name that is too long the line has no room, and
// behind one that fills it no end.
fn write_name<W: Write>(out: &mut W, name: &[u8], taken: usize) -> Result<()> {
    if name.is_empty() {
        return out.write_all(b"\n");
    }
    let taken = taken.min(MOST);
    let blanks = NAMED.saturating_sub(taken) + 2;
    out.write_all(&[b' '; NAMED + 2][..blanks])?;
    let room = MOST.saturating_sub(taken.max(NAMED) + 2);
    if name.len() <= room {
        out.write_all(name)?;
    }
    if name.len() == room {
        return Ok(());
    }
    out.write_all(b"\n")
}

// What was found at a place, counted from 1, the name of that pond, and how many bytes were not looked at.
pub(crate) fn write_found<W: Write>(
    out: &mut W,
    name: &[u8],
    at: u64,
    found: std::result::Result<Reading, u32>,
    unseen: usize,
) -> Result<()> {
    let taken = match found {
        Ok(reading) => write_reading(out, at, reading)?,
        Err(number) => write_refused(out, at, number, unseen)?,
    };
    write_name(out, name, taken)
}
