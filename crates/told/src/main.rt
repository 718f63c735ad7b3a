// What a program reads of a recorded night: plain lines, one fact each, of each record and what its call has done (crate
// `happened`), and a last line that says how the night ends.
//
// The trace, in the form of document 02's request 1, is standard input. Beside it, at file descriptor 4, which need not be open,
// a second file has a row for each record: the hour, the sender or receiver, and the answer that was given.
#![tactic(auto)]

mod plain;

use happened::Walk;
use plain::Plain;
use std::io::{self, Read, Write};
use text::Roomy;

// The records, one after the other, up to the end or the first bad one; what is told of each is written before the next is read. A
// proved loop has to end, and nothing says that the input does; no input has so many records as this one can count.
fn tell<R: Read + Drop, W: Write>(input: R, out: &mut W) -> io::Result<()> {
    let mut walk = Walk::begin(input);
    for at in 0..u64::MAX {
        walk.next(at);
        walk.say(&mut Plain { out }, at)?;
        out.flush()?;
        if walk.is_last() {
            walk.say_end(&mut Plain { out }, at)?;
            return out.flush();
        }
    }
    Ok(())
}

// What can't be written any more is not told: the launcher looks for the last line.
fn main(rt: HostRuntime) {
    let _ = tell(rt.stdin(), &mut Roomy::new(rt.stdout()));
}
