// A recorded night, made again: each record of its trace opens the night or is one call of the gauge.
#![tactic(auto)]

mod call;

ghost use Rattle.std.specs.Prelude.{◌≡◌, length};
ghost use Rattle.gauge_commit.specs.Sending.{answer};
ghost use Rattle.night.specs.Step.{night_in, stepped, step_of};
ghost use Rattle.night.specs.Told.{told, step_told};

use gauge_commit::Answer;

// What is lent from one record to the next is one slice, so that nobody but the calls has to know of what memory is made:
// a cache of 64 records; behind it the counts by first byte; the waiting table, which begins at WAITING_AT and ends at TABLES;
// and behind all memory, at OPENING, versions and own record as the first record has them.
pub const CACHE: usize = 6400;

pub const FIRSTS: usize = 512;

pub const WAITING: usize = 2240;

pub const WAITING_AT: usize = 6912;

pub const TABLES: usize = 9152;

pub const OPENING: usize = 9152;

pub const STATE: usize = 9254;

// What a call may write into.
pub const OUTPUT: usize = 2464;

fn number_alone(number: u32) -> Answer
    ensures { result ≡ answer number 0 0 }
{
    Answer {
        number,
        first: 0,
        second: 0,
    }
}

// Record number `at` of a night, counted from 0: what its call answers, with what it writes at the start of an output that is zero
// behind it. Of the record that opens the night the number is 0, and 16 or 17 where it is bad.
pub fn step_told(at: u64, state: &mut [u8], piece: &[u8], output: &mut [u8]) -> Answer
    ensures { told result (night_in state.new) output.new
        ≡ step_told at (night_in state.old) piece.now (length output.old) }
{
    let room = output.len();
    runs::clear(output, 0, room);
    if state.len() != STATE {
        return number_alone(refusal::MEMORY);
    }
    if room != OUTPUT {
        return number_alone(refusal::MEMORY);
    }
    let bad = trace::fault_of(at, piece);
    if bad != 0 {
        return number_alone(bad);
    }
    let kind = octet::read_u16_le(piece, 2);
    if kind == 4 {
        runs::copy_to(state, OPENING, &piece[4..]);
        return number_alone(0);
    }
    call::make(kind, state, &piece[4..], output)
}

// The same for whoever asks for the number alone.
pub fn step(at: u64, state: &mut [u8], piece: &[u8]) -> u32
    ensures { stepped result (night_in state.new)
        ≡ step_of at (night_in state.old) piece.now }
{
    let mut output = [0u8; OUTPUT];
    let answer = step_told(at, state, piece, &mut output);
    answer.number
}
