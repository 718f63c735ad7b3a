// How many records had each answer.
use shown_words::words;
use std::io::{self, Write};

// The answers are 0 to 25: those above 17 are for later versions.
#[derive(Clone, Copy)]
pub struct Totals {
    counts: [u64; 26],
}

fn sum(counts: &[u64]) -> u64 {
    counts.iter().fold(0, |all: u64, n| all.wrapping_add(*n))
}

impl Totals {
    pub fn none() -> Totals {
        Totals { counts: [0; 26] }
    }

    pub fn add(&mut self, answer: u32) {
        if let Some(count) = self.counts.get_mut(answer as usize) {
            *count = count.saturating_add(1);
        }
    }

    // Has a bad record ended the replay?
    pub fn is_stopped(&self) -> bool {
        self.counts[16] != 0 || self.counts[17] != 0
    }

    // Were there calls, and none that was accepted?
    pub fn is_refused(&self) -> bool {
        self.counts[0] == 0 && self.counts.iter().any(|n| *n != 0)
    }

    pub fn write<W: Write>(&self, out: &mut W) -> io::Result<()> {
        writeln!(out, "\nRecords   {:>8}", sum(&self.counts))?;
        writeln!(out, "Accepted  {:>8}", self.counts[0])?;
        writeln!(out, "Refused   {:>8}", sum(&self.counts[1..]))?;
        for (number, n) in (0..26).zip(&self.counts) {
            if number != 0 && *n != 0 {
                write!(out, "{n:>18}  ")?;
                words::write_answer(out, number)?;
                writeln!(out)?;
            }
        }
        Ok(())
    }
}
