// What the readings add up to.
use crate::line;
use amounts::balance;
use readings::Reading;
use std::io::{self, Write};

// The columns of the sum of what is added up, behind 20 of what it is.
const SUM: usize = 22;

// No sum goes round: main takes no more readings than can be added up.
#[derive(Clone, Copy, Default)]
pub(crate) struct Sums {
    taken: u64,
    wrong_length: u64,
    unknown_kind: u64,
    outside: u64,
    inflow: u64,
    outflow: u64,
    deficits: u64,
    unseen: u64,
}

fn write_sum<W: Write>(out: &mut W, what: &str, sum: u64) -> io::Result<()> {
    writeln!(out, "{what:<20}{sum:>SUM$}")
}

// Of one number, if it was given.
fn write_refusals<W: Write>(out: &mut W, number: u32, count: u64) -> io::Result<()> {
    if count == 0 {
        return Ok(());
    }
    let meaning = line::meaning_of(number);
    writeln!(out, "{count:>42}  {number} {meaning}")
}

impl Sums {
    fn add_reading(&mut self, reading: Reading) {
        self.taken = self.taken.wrapping_add(1);
        self.inflow = self.inflow.wrapping_add(u64::from(reading.inflow));
        self.outflow = self.outflow.wrapping_add(u64::from(reading.outflow));
        if reading.inflow < reading.outflow {
            self.deficits = self.deficits.wrapping_add(1);
        }
    }

    fn add_refused(&mut self, number: u32, unseen: usize) {
        let count = match number {
            1 => &mut self.wrong_length,
            2 => &mut self.unknown_kind,
            _ => &mut self.outside,
        };
        *count = count.wrapping_add(1);
        self.unseen = self.unseen.wrapping_add(unseen as u64);
    }

    // What was found, and the bytes that were not looked at.
    pub(crate) fn add(&mut self, found: Result<Reading, u32>, unseen: usize) {
        match found {
            Ok(reading) => self.add_reading(reading),
            Err(number) => self.add_refused(number, unseen),
        }
    }

    fn write_counts<W: Write>(&self, out: &mut W) -> io::Result<()> {
        let refused = self
            .wrong_length
            .wrapping_add(self.unknown_kind)
            .wrapping_add(self.outside);
        write_sum(out, "Readings", self.taken.wrapping_add(refused))?;
        write_sum(out, "Taken", self.taken)?;
        write_sum(out, "Refused", refused)?;
        write_refusals(out, 1, self.wrong_length)?;
        write_refusals(out, 2, self.unknown_kind)?;
        write_refusals(out, 3, self.outside)?;
        if self.unseen == 0 {
            return Ok(());
        }
        write_sum(out, "Bytes not looked at", self.unseen)
    }

    fn write_litres<W: Write>(&self, out: &mut W) -> io::Result<()> {
        write_sum(out, "Litres in", self.inflow)?;
        write_sum(out, "Litres out", self.outflow)?;
        write!(out, "{:<20}", "Balance")?;
        balance::write_all(out, self.inflow, self.outflow, SUM)?;
        writeln!(out)
    }

    // A reading does not say whose it is, and a pond may have several: what is counted are readings.
    pub(crate) fn write<W: Write>(&self, out: &mut W) -> io::Result<()> {
        writeln!(out)?;
        self.write_counts(out)?;
        self.write_litres(out)?;
        write_sum(out, "Readings in deficit", self.deficits)
    }
}
