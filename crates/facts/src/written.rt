// Bytes and numbers as they are written.
use key::Key;
use std::fmt;

// Two hexadecimal digits for each byte.
#[derive(Clone, Copy)]
pub struct Hex<'a>(pub &'a [u8]);

impl<'a> fmt::Display for Hex<'a> {
    fn fmt<W: fmt::Write>(&self, f: &mut fmt::Formatter<W>) -> fmt::Result {
        for byte in self.0 {
            write!(f, "{byte:02x}")?;
        }
        Ok(())
    }
}

// How far two keys are apart, in 64 hexadecimal digits.
#[derive(Clone, Copy)]
pub struct Distance(pub Key);

impl fmt::Display for Distance {
    fn fmt<W: fmt::Write>(&self, f: &mut fmt::Formatter<W>) -> fmt::Result {
        let far = self.0;
        for word in [far.a, far.b, far.c, far.d] {
            write!(f, "{word:016x}")?;
        }
        Ok(())
    }
}

// A port and an address, as on the wire, as [ADDRESS]:PORT, the address in its eight groups.
#[derive(Clone, Copy)]
pub struct Endpoint<'a>(pub &'a [u8]);

impl<'a> fmt::Display for Endpoint<'a> {
    fn fmt<W: fmt::Write>(&self, f: &mut fmt::Formatter<W>) -> fmt::Result {
        let (words, _) = self.0.as_chunks::<2>();
        let Some((port, address)) = words.split_first() else {
            return Ok(());
        };
        for (i, group) in address.iter().enumerate() {
            let before = if i == 0 { '[' } else { ':' };
            write!(f, "{before}{:x}", u16::from_be_bytes(*group))?;
        }
        write!(f, "]:{}", u16::from_be_bytes(*port))
    }
}
