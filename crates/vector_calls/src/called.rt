// Lines that are calls: made through the functions that the radio program calls, with an output filled with EE, and compared
// with what was there before.
use gauge_commit::Answer;
use std::io::{self, Write};
use vector_lent::Lent;
use vector_text::line::{Kept, Line};
use vector_text::say;

// The longest output that a line has.
const OUTPUT: usize = 4096;

#[derive(Clone, Copy)]
enum Call {
    Receive,
    Send,
    Tick,
    List,
    Nearest,
    Convert,
    Find,
}

const NAMES: [(&str, Call); 7] = [
    ("receive", Call::Receive),
    ("send", Call::Send),
    ("tick", Call::Tick),
    ("list", Call::List),
    ("nearest", Call::Nearest),
    ("convert", Call::Convert),
    ("find", Call::Find),
];

// The length of the output is a line's last operand, where it has one.
fn room_of(call: Call, line: &Line<'_>) -> usize {
    match call {
        Call::Receive => line.place(6),
        Call::Send => line.place(4),
        Call::Tick => line.place(1),
        Call::List => line.place(2),
        Call::Nearest | Call::Convert | Call::Find => 0,
    }
}

// `receive ID NONCE VERDICT KEY DATAGRAM ROOM`
fn receive(line: &Line<'_>, lent: &mut Lent, output: &mut [u8]) -> Answer {
    let mut given = lent.records.give(line.text);
    let nonce = given.line.bytes(2);
    let key = given.line.bytes(4);
    let datagram = given.line.bytes(5);
    gauge::gauge_receive(
        given.own,
        given.cpas,
        lent.cache.bytes_mut(),
        lent.firsts.bytes_mut(),
        lent.waiting.bytes_mut(),
        lent.major,
        lent.minor,
        line.word(1),
        nonce,
        line.word(3),
        key,
        datagram,
        output,
    )
}

// `send ID NEIGHBOUR KEY ROOM`
fn send(line: &Line<'_>, lent: &mut Lent, output: &mut [u8]) -> Answer {
    let mut given = lent.records.give(line.text);
    let neighbour = given.line.bytes(2);
    let key = given.line.bytes(3);
    gauge::gauge_send(
        given.own,
        lent.cache.bytes(),
        lent.waiting.bytes_mut(),
        lent.major,
        lent.minor,
        line.word(1),
        neighbour,
        key,
        output,
    )
}

// `list KEY ROOM`
fn list(line: &Line<'_>, lent: &mut Lent, output: &mut [u8]) -> Answer {
    let mut given = lent.records.give(line.text);
    gauge::gauge_neighbours(given.own, lent.cache.bytes(), given.line.bytes(1), output)
}

// `nearest PATH TARGET`
fn nearest(line: &Line<'_>, lent: &mut Lent) -> Answer {
    let mut given = lent.records.give(line.text);
    let path = given.line.bytes(1);
    let target = given.line.bytes(2);
    gauge::gauge_closest(given.own, lent.cache.bytes(), path, target)
}

// `find KEY`. An operand behind the key, which no vector has, takes its room first.
fn find(line: &Line<'_>, lent: &mut Lent) -> Answer {
    let mut given = lent.records.give(line.text);
    given.line.bytes(2);
    gauge::gauge_search(given.own, lent.cache.bytes(), given.line.bytes(1))
}

// `tick ROOM` and `convert` have no operands that are bytes.
fn make(call: Call, line: &Line<'_>, lent: &mut Lent, output: &mut [u8]) -> Answer {
    match call {
        Call::Receive => receive(line, lent, output),
        Call::Send => send(line, lent, output),
        Call::Tick => gauge::gauge_tick(lent.records.own(), lent.waiting.bytes_mut(), output),
        Call::List => list(line, lent, output),
        Call::Nearest => nearest(line, lent),
        Call::Convert => gauge::gauge_convert(
            lent.records.own(),
            lent.cache.bytes_mut(),
            lent.waiting.bytes_mut(),
        ),
        Call::Find => find(line, lent),
    }
}

// How many bytes of the output a call that gave this has written: datagrams, IDs of 4, keys of 32. The closest
// record, a search and a conversion write nothing there.
fn written(call: Call, answer: Answer) -> usize {
    let first = answer.first as usize;
    let second = answer.second as usize;
    match call {
        Call::Receive | Call::Send => first + second,
        Call::Tick => 4 * first,
        Call::List => 32 * (first + second),
        Call::Nearest | Call::Convert | Call::Find => 0,
    }
}

fn compared<const N: usize>(was: &Kept<N>, is: &Kept<N>) -> &'static str {
    if was.bytes() == is.bytes() {
        "same"
    } else {
        "changed"
    }
}

// What the call answers, the bytes that were written, and what has changed: the rest of the output too.
fn told<W: Write>(
    of: Call,
    line: &Line<'_>,
    lent: &mut Lent,
    output: &mut [u8],
    out: &mut W,
) -> io::Result<()> {
    let (cache, firsts, waiting) = (lent.cache, lent.firsts, lent.waiting);
    let answer = make(of, line, lent, output);
    let Answer {
        number,
        first,
        second,
    } = answer;
    let (written, rest) = say::written(output, written(of, answer));
    write!(out, "{number} {first} {second} {written}")?;
    let cache = compared(&cache, &lent.cache);
    let firsts = compared(&firsts, &lent.firsts);
    let waiting = compared(&waiting, &lent.waiting);
    write!(out, " {cache} {firsts} {waiting} {rest}")
}

pub(crate) fn answer<W: Write>(line: &Line<'_>, lent: &mut Lent, out: &mut W) -> io::Result<bool> {
    let Some(call) = line.named(&NAMES) else {
        return Ok(false);
    };
    let mut room = [0xEEu8; OUTPUT];
    match room.get_mut(..room_of(call, line)) {
        Some(output) => told(call, line, lent, output, out)?,
        None => say::outside(out)?,
    }
    Ok(true)
}
