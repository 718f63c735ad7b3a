// What is planned for a FLOOD to send: every refusal is decided here.
#![tactic(auto)]

ghost use Rattle.std.specs.Prelude.{◌≡◌, true, false, cond, Err, ◌+◌, ◌*◌, ◌≤◌, ◌<◌, length};
ghost use Rattle.key.specs.Number.{key_at};
ghost use Rattle.record.specs.Record.{count_of};
ghost use Rattle.own.specs.Own.{own_form, own_keys, own_place, is_own};
ghost use Rattle.refusal.specs.Table.{or_refuse};
ghost use Rattle.table.specs.Rows.{rows};
ghost use Rattle.kept.specs.Keys.{Rising, plain};
ghost use Rattle.cache.specs.Form.{Form, keys_of};
ghost use Rattle.gauge_plan.specs.Lent.{Memory, with_tables};
ghost use Rattle.gauge_plan.specs.Found.{place_of};
ghost use Rattle.plan_send.specs.Send.{held_at, record_sent, send_table, send_done, sending_plan};

use gauge_plan::Fit;

// A FLOOD to send, where nothing is refused: how many places are used, and the record's place among our own or those
// held.
#[derive(Clone, Copy)]
pub struct Flood {
    pub used: usize,
    pub ours: bool,
    pub at: usize,
}

// Where the record with a key stands among those held.
fn held_at(cache: &[u8], held: usize, key: &[u8]) -> Option<usize>
    requires { (100 * held ≤ length cache.now) × (32 ≤ length key.now)
        × Rising plain 0 (keys_of (rows 100 held cache.now)) }
    ensures { result ≡ held_at (key_at 0 key.now) (rows 100 held cache.now) }
{
    cache::find(cache, held, key).ok()
}

// Where the record sent stands: that with our key, or the one found among those held.
fn sent_at(own: &[u8], key: &[u8], ours: bool, found: Option<usize>) -> usize
    requires { (32 ≤ length key.now) × (ours ≡ is_own (own_keys own.now) (key_at 0 key.now)) }
    ensures { result ≡ cond ours (own_place (own_keys own.now) (key_at 0 key.now)) (place_of found) }
{
    if ours {
        return own::place_of(own, key, 0);
    }
    found.unwrap_or(0)
}

// How many addresses the record sent has.
fn count_sent(own: &[u8], cache: &[u8], ours: bool, at: usize) -> usize
    requires { (ours ≡ true → 100 * at + 100 ≤ length own.now) × (ours ≡ false → 100 * at + 100 ≤ length cache.now) }
    ensures { (result ≡ count_of (record_sent own.now cache.now ours at)) × (result < 256) }
{
    if ours {
        return own[record::RECORD_LEN * at + 34] as usize;
    }
    cache[record::RECORD_LEN * at + 34] as usize
}

// The plan where memory is in form. `room` is the output's length.
fn plan_flood_to(
    own: &[u8],
    cache: &[u8],
    held: usize,
    waiting: &[u8],
    used: usize,
    id: u32,
    neighbour: &[u8],
    key: &[u8],
    room: usize,
) -> Result<Flood, u32>
    requires { (own_form own.now ≡ true) × Form (own_keys own.now) cache.now (rows 100 held cache.now)
        × (140 * used ≤ length waiting.now) × (length neighbour.now ≡ 32) × (length key.now ≡ 32) }
    ensures { result ≡ or_refuse Err (send_table own.now cache.now
        (rows 100 held cache.now) (rows 140 used waiting.now) used id room
        (key_at 0 neighbour.now) (key_at 0 key.now))
        (send_done own.now (rows 100 held cache.now) used (key_at 0 key.now)) }
{
    let to = held_at(cache, held, neighbour);
    if to.is_none() {
        return Err(refusal::NOT_OURS);
    }
    let ours = own::is_own(own, key, 0);
    let found = held_at(cache, held, key);
    let missing = found.is_none();
    if !ours & missing {
        return Err(refusal::NOT_OURS);
    }
    let barred = gauge_plan::open_refusal(true, waiting, used, id);
    if barred != 0 {
        return Err(barred);
    }
    let at = sent_at(own, key, ours, found);
    let count = count_sent(own, cache, ours, at);
    if room < 100 + 16 * count {
        return Err(refusal::ROOM);
    }
    Ok(Flood { used, ours, at })
}

// The plan for a FLOOD to the neighbour of a key, of the record with another. `room` is the output's length.
// Memory that is not lent may be any.
pub fn plan_send(
    own: &[u8],
    cache: &[u8],
    waiting: &[u8],
    id: u32,
    neighbour: &[u8],
    key: &[u8],
    room: usize,
) -> Result<Flood, u32>
    ensures { (m : Memory) → result
        ≡ sending_plan own.now (with_tables cache.now waiting.now m) id
        neighbour.now key.now room }
{
    let Some(Fit { held, used }) = gauge_plan::survey(own, cache, waiting) else {
        return Err(refusal::MEMORY);
    };
    if !((neighbour.len() == 32) & (key.len() == 32)) {
        return Err(refusal::MEMORY);
    }
    plan_flood_to(own, cache, held, waiting, used, id, neighbour, key, room)
}
