// Saved memory of a gauge turned into the form of one address (document 02, request 13). Standard input is the own
// record, the waiting table and the cache, one behind the other; standard output the same, converted, and a line of what
// was done goes to standard error. Where the memory is not in the old form, that is said there, and nothing is
// written.
//
// What the old form is and what becomes of it is said by crate `convert`.
#![tactic(auto)]

mod counts;

use counts::Counts;
use std::io::{Read, Result, Write};
use text::Roomy;

// A cache has so many bytes at most; one more that came is seen by its length.
const CACHE: usize = 25601;

fn write_memory<W: Write>(out: &mut W, own: &[u8], waiting: &[u8], cache: &[u8]) -> Result<()> {
    out.write_all(own)?;
    out.write_all(waiting)?;
    out.write_all(cache)
}

// Where the input ends early, what is left of the three is zero, but the cache has as many bytes as came.
fn convert_all<R: Read, W: Write, E: Write>(
    input: &mut R,
    out: &mut W,
    said: &mut E,
) -> Result<()> {
    let mut own = [0u8; record::RECORD_LEN];
    let mut waiting = [0u8; waiting::WAITING_LEN];
    let mut room = [0u8; CACHE];
    text::read_full(input, &mut own);
    text::read_full(input, &mut waiting);
    let came = text::read_full(input, &mut room);
    let cache = &mut room[..came];
    let counts = Counts::of(&own, &waiting, cache);
    if convert::convert(&own, cache, &mut waiting) != 0 {
        return writeln!(
            said,
            "refused: 1 the own record, the waiting table or the cache is not in the old form"
        );
    }
    cut::cut_record(&mut own, 0);
    match write_memory(out, &own, &waiting, cache) {
        Ok(()) => counts.write(said),
        Err(_) => writeln!(
            said,
            "standard output can't be written: this is not all; make room and run it again"
        ),
    }
}

fn main(rt: HostRuntime) {
    let mut said = Roomy::new(rt.stderr());
    let _ = convert_all(&mut rt.stdin(), &mut rt.stdout(), &mut said);
    let _ = said.flush();
}
