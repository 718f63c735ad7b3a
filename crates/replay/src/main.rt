// Makes a recorded night again: reads a trace from standard input, piece by piece as it comes, and writes for each
// record behind the first its number, a space and the answer. A bad record is the last: 16 or 17 stands in its line.
//
// That a piece is what stands in standard input, and that text went out, is not proved, nor can it be. What is between
// them is: `feed` and `close` of stream.rt, and that fed any pieces the text is that of the pieces joined (Streams).
#![tactic(auto)]

mod line;
mod stream;

use crate::stream::{close, feed};
use std::io::Read;

// The most bytes that are read at once, and room for a line for each.
const PIECE: usize = 4096;

const TEXT: usize = 172032;

// A proved loop has to end, and nothing says that the input does; no input has 2 ^ 64 bytes, which so many reads could
// give.
const READS: u64 = 4503599627370495;

// Writes text. Answers whether all of it went out, and says so where it didn't.
fn write(text: &[u8]) -> bool {
    if io::write_all(1, text) {
        return true;
    }
    io::write_all(
        2,
        b"replay: standard output can't be written: these lines are not the whole night; make room, run it again\n",
    );
    false
}

fn say_unread() {
    io::write_all(
        2,
        b"replay: standard input can't be read: these lines are not the whole night; give a file, run it again\n",
    );
}

fn main(rt: HostRuntime) {
    let mut input = rt.stdin();
    let mut state = [0u8; night::STATE];
    let mut room = [0u8; trace::RECORD];
    let mut piece = [0u8; PIECE];
    let mut text = [0u8; TEXT];
    let mut held = stream::opened();
    for _reads in 0..READS {
        let Ok(n) = input.read(&mut piece) else {
            return say_unread();
        };
        if n == 0 {
            let end = close(held, &mut state, &room, &mut text);
            write(&text[..end]);
            return;
        }
        let new = &piece[..n];
        held = feed(held, &mut state, &mut room, new, &mut text);
        let end = held.end;
        if !write(&text[..end]) || held.over {
            return;
        }
    }
}
