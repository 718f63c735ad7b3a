// What the keeper of the accounts reads of a recorded night: each record of the trace with its second and its answer, what its call
// did, what the gauge kept at the end, and how often each answer was given.
//
// The trace, in the form of document 02's request 1, is standard input. Pond names are text at file descriptor 3
// (names.rt of `shown_words`), and a second file with hours, senders and the answers of that night is at descriptor 4 (crate
// `happened`); neither need be open. The calls are made there, and nothing here changes the gauge's memory.
#![tactic(auto)]

mod call;
mod tell;

use happened::Walk;
use shown_state::totals::Totals;
use shown_state::{state, whose};
use shown_words::names::Names;
use shown_words::words;
use std::io::{Read, Result, Write};
use tell::Words;
use text::Roomy;

// Room for the pond names; of a longer text the rest is not read.
const NAMES: usize = 65536;

// Whether what was answered that night is known.
fn write_answers<W: Write>(out: &mut W, known: bool) -> Result<()> {
    if known {
        return writeln!(
            out,
            "Answers   made again, and compared with those of that night"
        );
    }
    writeln!(
        out,
        "Answers   made again: the trace tells neither sender nor hour, nor what was answered that night"
    )
}

// The record that opens the night: whose it is.
fn open<R: Read, W: Write>(out: &mut W, names: Names<'_>, night: &mut Walk<R>) -> Result<()> {
    if trace::is_end(night.answer().number) {
        call::write_heading(out)?;
        return call::write_bad(out, night);
    }
    whose::write_whose(out, names, night.opening())?;
    night.say(&mut Words { out, names }, 0)?;
    write_answers(out, night.has_row())?;
    whose::write_form(out, night.opening())?;
    words::write_glossary(out)?;
    writeln!(
        out,
        "The second of a record is how many ticks there were up to it. A distance is how far two keys are apart, the shorter way round.\n"
    )?;
    call::write_heading(out)
}

// A record, if there is one.
fn write_one<R: Read, W: Write>(
    out: &mut W,
    names: Names<'_>,
    at: u64,
    night: &mut Walk<R>,
    totals: &mut Totals,
) -> Result<()> {
    if at == 0 {
        return open(out, names, night);
    }
    if night.record().is_empty() {
        return Ok(());
    }
    call::write_call(out, names, at, night)?;
    night.say(&mut Words { out, names }, at)?;
    totals.add(night.answer().number);
    Ok(())
}

// The last line, where the night is not whole, or no call of it was taken: the launcher's status goes by it.
fn write_last<W: Write>(out: &mut W, totals: &Totals) -> Result<()> {
    if totals.is_stopped() {
        return writeln!(
            out,
            "This night ends in the middle: it is not the whole night."
        );
    }
    if totals.is_refused() {
        return writeln!(
            out,
            "This night has no call that was accepted: it was refused from its first call on."
        );
    }
    Ok(())
}

// What the gauge kept, how often each answer was given, how they compare with those of that night.
fn write_kept<R: Read, W: Write>(
    out: &mut W,
    names: Names<'_>,
    good: u64,
    night: &mut Walk<R>,
    totals: &Totals,
) -> Result<()> {
    state::write_state(out, names, night.opening(), night.cache(), night.waiting())?;
    totals.write(out)?;
    out.flush()?;
    night.say_end(&mut Words { out, names }, good)?;
    write_last(out, totals)
}

// Behind the records: why there are no more, and what is behind them; so many have been good.
fn write_end<R: Read, W: Write>(
    out: &mut W,
    names: Names<'_>,
    good: u64,
    night: &mut Walk<R>,
    totals: &Totals,
) -> Result<()> {
    if totals.is_stopped() {
        writeln!(
            out,
            "The replay stopped at this record. What follows it in the trace was not looked at."
        )?;
    }
    if good != 0 {
        return write_kept(out, names, good, night, totals);
    }
    out.flush()?;
    night.say_end(&mut Words { out, names }, good)?;
    writeln!(
        out,
        "The trace does not open with a gauge's own record, as a night must: there is no more to show."
    )
}

// The records, one after the other, up to the end or the first bad one, and what is behind them; what is said of each is written
// before the next is read. A proved loop has to end, and nothing says that the input does; no input has so many records as this
// one can count.
fn show<R: Read + Drop, W: Write>(input: R, out: &mut W, names: Names<'_>) -> Result<()> {
    let mut night = Walk::begin(input);
    let mut totals = Totals::none();
    for at in 0..u64::MAX {
        night.next(at);
        write_one(out, names, at, &mut night, &mut totals)?;
        out.flush()?;
        if night.is_last() {
            return write_end(out, names, at, &mut night, &totals);
        }
    }
    Ok(())
}

// Output that can't be written is seen by who reads it: the launcher.
fn main(rt: HostRuntime) {
    let mut room = [0u8; NAMES];
    let named = io::read_full(3, &mut room);
    let mut out = Roomy::new(rt.stdout());
    let _ = show(rt.stdin(), &mut out, Names::of(&room[..named]));
    let _ = out.flush();
}
