// A line that is written, with how much of it there is.
use std::io::{self, Write};

// Hands on what is written, and counts its characters: of a character's bytes in UTF-8 only the first counts.
#[derive(Drop)]
pub struct Columns<'a, W> {
    out: &'a mut W,
    taken: usize,
}

impl<'a, W: Write> Columns<'a, W> {
    pub fn of(out: &'a mut W) -> Columns<'a, W> {
        Columns { out, taken: 0 }
    }

    pub fn taken(&self) -> usize {
        self.taken
    }

    // Blanks up to a column, if it is not reached. As many as lines mostly want are at hand.
    pub fn fill_to(&mut self, column: usize) -> io::Result<()> {
        let width = column.saturating_sub(self.taken);
        if 80 < width {
            return write!(self, "{:width$}", "");
        }
        self.write_all(&[b' '; 80][..width])
    }
}

impl<W: Write> Write for Columns<'_, W> {
    fn write(&mut self, bytes: &[u8]) -> io::Result<usize> {
        let written = self.out.write(bytes)?;
        let mut taken = self.taken;
        for byte in &bytes[..written.min(bytes.len())] {
            taken = taken.wrapping_add(usize::from(*byte / 64 != 2));
        }
        self.taken = taken;
        Ok(written)
    }

    fn flush(&mut self) -> io::Result<()> {
        self.out.flush()
    }
}
