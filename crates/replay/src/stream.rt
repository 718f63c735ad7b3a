// A trace that arrives in pieces, cut anywhere.
ghost use Rattle.std.specs.Prelude.{◌≡◌, false, ◌+◌, ◌*◌, ◌^◌, ◌≤◌, ◌<◌, length, take};
ghost use Rattle.night.specs.Step.{night_in};
ghost use Rattle.replay.specs.Stream.{stream, gives, after, wanted, fed, closing, closed};
ghost use Rattle.replay.specs.Room.{Begun};

use crate::line;

// The number of the record that comes next; how many of its bytes stand in the room; whether the replay has ended; how
// many bytes of text were put.
#[derive(Clone, Copy)]
pub(crate) struct Held {
    pub(crate) at: u64,
    pub(crate) begun: usize,
    pub(crate) over: bool,
    pub(crate) end: usize,
}

// Before the first byte.
pub(crate) fn opened() -> Held
    ensures at_value { result.at ≡ 0 }
    ensures begun_value { result.begun ≡ 0 }
    ensures over_value { result.over ≡ false }
{
    Held {
        at: 0,
        begun: 0,
        over: false,
        end: 0,
    }
}

fn wide(n: u16) -> usize
    ensures { result ≡ n }
{
    n as usize
}

fn least(a: usize, b: usize) -> usize
    ensures upper_bound { result ≤ a }
    ensures upper_bound_2 { result ≤ b }
    ensures result_nonzero { 0 < a → 0 < b → 0 < result }
{
    if a < b {
        return a;
    }
    b
}

// How many bytes the record in the room will have; 2, as long as not both bytes of its length are there.
fn wanted_of(room: &[u8], begun: usize) -> usize
    requires { begun ≤ length room.now }
    ensures value { result ≡ wanted (take begun room.now) }
    ensures upper_bound { result ≤ 65537 }
{
    if begun < 2 {
        return 2;
    }
    2 + wide(octet::read_u16_le(room, 0))
}

// Takes bytes of one record. Where they make it whole, it is one step, and its line is put at a place of `text`.
fn take_run(
    at: u64,
    begun: usize,
    end: usize,
    state: &mut [u8],
    room: &mut [u8],
    run: &[u8],
    text: &mut [u8],
) -> Held
    requires in_bounds { 65537 ≤ length room.old }
    requires run_nonzero { 0 < length run.now }
    requires run_bound { begun + length run.now ≤ 65537 }
    requires run_bound_2 { begun + length run.now ≤ wanted (take begun room.old) }
    requires end_in_bounds { end + 42 ≤ length text.old }
    requires at_bound { at + 1 < 2 ^ 64 }
    ensures over_after { gives (take result.end text.new) (stream result.at
        (night_in state.new)
        (take result.begun room.new) result.over)
        ≡ after (take end text.old) (fed (stream at
        (night_in state.old)
        (take begun room.old) false) run.now) }
    ensures at_bound_2 { result.at ≤ at + 1 }
    ensures end_bound { result.end ≤ end + 42 }
    ensures begun { Begun result.begun room.new }
{
    runs::copy_to(room, begun, run);
    let len = begun + run.len();
    if wanted_of(room, len) != len {
        return Held {
            at,
            begun: len,
            over: false,
            end,
        };
    }
    let answer = night::step(at, state, &room[..len]);
    let put = line::put(text, end, at, answer);
    let over = trace::is_end(answer);
    Held {
        at: at + 1,
        begun: 0,
        over,
        end: put,
    }
}

// Takes a piece of the trace, and puts the lines of the records that it makes whole at the start of `text`.
pub(crate) fn feed(
    from: Held,
    state: &mut [u8],
    room: &mut [u8],
    piece: &[u8],
    text: &mut [u8],
) -> Held
    requires begun { Begun from.begun room.old }
    requires piece_in_bounds { 42 * length piece.now ≤ length text.old }
    requires piece_bound { from.at + length piece.now < 2 ^ 64 }
    ensures over_after { gives (take result.end text.new) (stream result.at
        (night_in state.new)
        (take result.begun room.new) result.over)
        ≡ fed (stream from.at
        (night_in state.old)
        (take from.begun room.old) from.over) piece.now }
    ensures at_bound { result.at ≤ from.at + length piece.now }
    ensures end_in_bounds { result.end ≤ length text.new }
    ensures begun_2 { Begun result.begun room.new }
{
    let mut h = Held {
        at: from.at,
        begun: from.begun,
        over: from.over,
        end: 0,
    };
    let mut i = 0;
    while i < piece.len() {
        if h.over {
            return h;
        }
        let begun = h.begun;
        let want = wanted_of(room, begun);
        let next = i + least(want - begun, piece.len() - i);
        let run = &piece[i..next];
        h = take_run(h.at, begun, h.end, state, room, run, text);
        i = next;
    }
    h
}

// The trace has ended. Puts the last line, if there is one, at the start of `text`.
pub(crate) fn close(from: Held, state: &mut [u8], room: &[u8], text: &mut [u8]) -> usize
    requires begun_in_bounds { from.begun ≤ length room.now }
    requires in_bounds { 42 ≤ length text.old }
    ensures state_after { closing (take result text.new)
        (night_in state.new)
        ≡ closed (stream from.at
        (night_in state.old)
        (take from.begun room.now) from.over) }
    ensures upper_bound { result ≤ 42 }
{
    if from.over {
        return 0;
    }
    let begun = from.begun;
    if begun == 0 {
        return line::put_end(text, from.at);
    }
    let answer = night::step(from.at, state, &room[..begun]);
    line::put(text, 0, from.at, answer)
}
