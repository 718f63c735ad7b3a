// How answers are written.
use key::Key;
use std::fmt;
use std::io::{self, Write};

// Bytes in hexadecimal; `-` where there is none.
#[derive(Drop)]
pub struct Hex<'a>(pub &'a [u8]);

impl fmt::Display for Hex<'_> {
    fn fmt<W: fmt::Write>(&self, f: &mut fmt::Formatter<W>) -> fmt::Result {
        if self.0.is_empty() {
            return f.write_str("-");
        }
        for byte in self.0 {
            write!(f, "{byte:02x}")?;
        }
        Ok(())
    }
}

// A key, or a difference of two, in all its 64 digits.
#[derive(Drop)]
pub struct Wide(pub Key);

impl fmt::Display for Wide {
    fn fmt<W: fmt::Write>(&self, f: &mut fmt::Formatter<W>) -> fmt::Result {
        let Key { a, b, c, d } = self.0;
        write!(f, "{a:016x}{b:016x}{c:016x}{d:016x}")
    }
}

// A key without leading zeros.
#[derive(Drop)]
struct Short(Key);

impl fmt::Display for Short {
    fn fmt<W: fmt::Write>(&self, f: &mut fmt::Formatter<W>) -> fmt::Result {
        match self.0 {
            Key {
                a: 0,
                b: 0,
                c: 0,
                d,
            } => write!(f, "{d:x}"),
            Key { a: 0, b: 0, c, d } => write!(f, "{c:x}{d:016x}"),
            Key { a: 0, b, c, d } => write!(f, "{b:x}{c:016x}{d:016x}"),
            Key { a, b, c, d } => write!(f, "{a:x}{b:016x}{c:016x}{d:016x}"),
        }
    }
}

// The keys that begin the first `count` rows of so many bytes, apart by commas; `-` for none.
#[derive(Drop)]
pub struct Keys<'a> {
    pub rows: &'a [u8],
    pub count: usize,
    pub step: usize,
}

impl fmt::Display for Keys<'_> {
    fn fmt<W: fmt::Write>(&self, f: &mut fmt::Formatter<W>) -> fmt::Result {
        if self.count == 0 {
            return f.write_str("-");
        }
        let rows = self.rows.chunks(self.step.max(1)).take(self.count);
        for (i, row) in rows.enumerate() {
            if 0 < i {
                f.write_str(",")?;
            }
            if 32 <= row.len() {
                let key = Short(key::key_at(row, 0));
                write!(f, "{key}")?;
            }
        }
        Ok(())
    }
}

pub fn yes<W: Write>(b: bool, out: &mut W) -> io::Result<()> {
    out.write_all(if b { b"yes" } else { b"no" })
}

// The place that a vector names does not lie within its bytes.
pub fn outside<W: Write>(out: &mut W) -> io::Result<()> {
    out.write_all(b"outside")
}

// Memory that is not in form.
pub fn bad<W: Write>(out: &mut W) -> io::Result<()> {
    out.write_all(b"bad")
}

// The first `end` bytes of an output that was filled with EE before, and whether the rest of it is as it was.
pub fn written(output: &[u8], end: usize) -> (Hex<'_>, &'static str) {
    let (written, rest) = output.split_at_checked(end).unwrap_or((&[], &[]));
    let clean = rest.iter().all(|b| *b == 0xEE);
    (Hex(written), if clean { "clean" } else { "dirty" })
}
