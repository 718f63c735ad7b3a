// What changed overnight, as a keeper reads it (document 02, request 10): each key gone, new, or held with another port or
// address, and the sums. Standard input is how many bytes the own records have, in two bytes, least significant first, and they;
// the same of the cache before; and the cache after it. Names of ponds are text at file descriptor 3, as `shown` takes them,
// which need not be open.
//
// What is compared, and what is refused, is said by crate `changes`.
#![tactic(auto)]

mod entry;
mod input;
mod line;
mod records;
mod sums;

use shown_words::names::Names;
use std::io::{Result, Write};
use text::Roomy;

// Room for the names; of a longer text the rest is not read.
const NAMES: usize = 65536;

// Two lengths, four own records and two full caches; one byte more that came is seen by the second cache's length.
const INPUT: usize = 51605;

// The longest list: each key of a full cache gone, and as many new.
const LIST: usize = 51712;

// The two caches of an input compared: what changed, and the sums.
fn compare<W: Write>(out: &mut W, names: Names<'_>, input: &[u8]) -> Result<()> {
    let mut room = [0u8; LIST];
    let (own, caches) = input::split_first(input);
    let (before, after) = input::split_first(caches);
    let answer = changes::gauge_changes(own, before, after, &mut room);
    if answer.number != 0 {
        return writeln!(
            out,
            "refused: 1 the own records or a cache are not in form, or the caches differ in length"
        );
    }
    let list = room.get(..answer.second as usize).unwrap_or(&[]);
    for entry in list.chunks_exact(entry::ENTRY).filter_map(entry::entry_of) {
        line::write_entry(out, names, before, entry)?;
    }
    sums::write_sums(out, before, after, list)
}

// Output that can't be written is seen by who reads it: the launcher.
fn main(rt: HostRuntime) {
    let mut input = [0u8; INPUT];
    let mut names = [0u8; NAMES];
    let came = text::read_full(&mut rt.stdin(), &mut input);
    let named = io::read_full(3, &mut names);
    let mut out = Roomy::new(rt.stdout());
    let _ = compare(&mut out, Names::of(&names[..named]), &input[..came]);
    let _ = out.flush();
}
