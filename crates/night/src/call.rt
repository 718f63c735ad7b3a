// The calls of a night. Each is handed an output of 2,464 zero bytes; the own CPA is one zero byte, lent behind its length. Cache, counts and
// waiting table are taken out of the night's one slice for a call that may write them, and put back behind it.
ghost use Rattle.std.specs.Prelude.{◌≡◌, true, ◌≤◌, length, replicate};
ghost use Rattle.trace.specs.Trace.{body_fits};
ghost use Rattle.night.specs.Step.{state_len, night_in, received, sent, ticked, call_of};
ghost use Rattle.night.specs.Told.{told, called_told};

use crate::{CACHE, FIRSTS, OPENING, TABLES, WAITING, WAITING_AT};
use gauge_commit::Answer;

// Behind the major version: the minor one, and the own record.
const MINOR: usize = 9153;

const OWN: usize = 9154;

fn wide(x: u8) -> u32
    ensures { result ≡ x }
{
    x as u32
}

// Kind 1: message ID 4, verdict 1, key 32, nonce 16, datagram.
fn receive(state: &mut [u8], body: &[u8], output: &mut [u8]) -> Answer
    requires state_len { length state.old ≡ state_len }
    requires in_bounds { 53 ≤ length body.now }
    requires output_value { output.old ≡ replicate 2464 0 }
    ensures { told result (night_in state.new) output.new ≡ called_told (night_in state.old)
        (received (night_in state.old).opening body.now) }
{
    let cpas = [1u8, 0, 0];
    let mut own = [0u8; record::RECORD_LEN];
    let mut cache = [0u8; CACHE];
    let mut firsts = [0u8; FIRSTS];
    let mut waiting = [0u8; WAITING];
    runs::copy_to(&mut own, 0, &state[OWN..]);
    runs::copy_to(&mut cache, 0, &state[..CACHE]);
    runs::copy_to(&mut firsts, 0, &state[CACHE..WAITING_AT]);
    runs::copy_to(&mut waiting, 0, &state[WAITING_AT..TABLES]);
    let major = state[OPENING];
    let minor = state[MINOR];
    let id = octet::read_u32_le(body, 0);
    let verdict = wide(body[4]);
    let answer = gauge::gauge_receive(
        &own,
        &cpas,
        &mut cache,
        &mut firsts,
        &mut waiting,
        major,
        minor,
        id,
        &body[37..53],
        verdict,
        &body[5..37],
        &body[53..],
        output,
    );
    runs::copy_to(state, 0, &cache);
    runs::copy_to(state, CACHE, &firsts);
    runs::copy_to(state, WAITING_AT, &waiting);
    answer
}

// Kind 2: message ID 4, neighbour key 32, record key 32.
fn send(state: &mut [u8], body: &[u8], output: &mut [u8]) -> Answer
    requires state_len { length state.old ≡ state_len }
    requires body_len { length body.now ≡ 68 }
    requires output_value { output.old ≡ replicate 2464 0 }
    ensures { told result (night_in state.new) output.new ≡ called_told (night_in state.old)
        (sent (night_in state.old).opening body.now) }
{
    let mut own = [0u8; record::RECORD_LEN];
    let mut waiting = [0u8; WAITING];
    runs::copy_to(&mut own, 0, &state[OWN..]);
    runs::copy_to(&mut waiting, 0, &state[WAITING_AT..TABLES]);
    let major = state[OPENING];
    let minor = state[MINOR];
    let id = octet::read_u32_le(body, 0);
    let answer = gauge::gauge_send(
        &own,
        &state[..CACHE],
        &mut waiting,
        major,
        minor,
        id,
        &body[4..36],
        &body[36..68],
        output,
    );
    runs::copy_to(state, WAITING_AT, &waiting);
    answer
}

// Kind 3: no body.
fn tick(state: &mut [u8], output: &mut [u8]) -> Answer
    requires state_len { length state.old ≡ state_len }
    requires output_value { output.old ≡ replicate 2464 0 }
    ensures { told result (night_in state.new) output.new ≡ called_told (night_in state.old)
        (ticked (night_in state.old).opening) }
{
    let mut waiting = [0u8; WAITING];
    runs::copy_to(&mut waiting, 0, &state[WAITING_AT..TABLES]);
    let answer = gauge::gauge_tick(&state[OWN..], &mut waiting, output);
    runs::copy_to(state, WAITING_AT, &waiting);
    answer
}

// The call that a record of kind 1, 2 or 3 is.
pub(crate) fn make(kind: u16, state: &mut [u8], body: &[u8], output: &mut [u8]) -> Answer
    requires state_len { length state.old ≡ state_len }
    requires body_value { body_fits kind (length body.now) ≡ true }
    requires output_value { output.old ≡ replicate 2464 0 }
    ensures { told result (night_in state.new) output.new ≡ called_told (night_in state.old)
        (call_of (night_in state.old).opening kind body.now) }
{
    if kind == 1 {
        return receive(state, body, output);
    }
    if kind == 2 {
        return send(state, body, output);
    }
    tick(state, output)
}
