// A writer with room of its own in front of another, for programs that take no memory.
ghost use Rattle.std.specs.Prelude.{◌≤◌};

use std::io::{self, Write};

const ROOM: usize = 4096;

#[derive(Drop)]
pub struct Roomy<W> {
    out: W,
    room: [u8; ROOM],
    filled: usize,
    ghost within: { filled ≤ 4096 },
}

impl<W: Write> Roomy<W> {
    pub fn new(out: W) -> Roomy<W> {
        Roomy {
            out,
            room: [0; ROOM],
            filled: 0,
        }
    }

    // What can't be written is let go, and no failure of its writer: a program reads its input to the end all the same, and
    // whoever reads its output sees what is missing.
    fn hand_on(&mut self) {
        let filled = self.filled;
        self.filled = 0;
        let _ = self.out.write_all(&self.room[..filled]);
    }
}

impl<W: Write> Write for Roomy<W> {
    fn write(&mut self, bytes: &[u8]) -> io::Result<usize> {
        if ROOM - self.filled < bytes.len() {
            self.hand_on();
        }
        let taken = bytes.len().min(ROOM - self.filled);
        let end = self.filled + taken;
        self.room[self.filled..end].copy_from_slice(&bytes[..taken]);
        self.filled = end;
        Ok(taken)
    }

    fn flush(&mut self) -> io::Result<()> {
        self.hand_on();
        let _ = self.out.flush();
        Ok(())
    }
}
