// What is planned for a FLOOD: every refusal is decided here.
#![tactic(auto)]

ghost use Rattle.std.specs.Prelude.{◌≡◌, true, ◌+◌, ◌*◌, ◌≤◌, length};
ghost use Rattle.octet.specs.Part.{part};
ghost use Rattle.key.specs.Number.{key_at};
ghost use Rattle.record.specs.Entry.{entry_form};
ghost use Rattle.own.specs.Own.{own_form, own_keys};
ghost use Rattle.table.specs.Rows.{rows};
ghost use Rattle.cache.specs.Form.{Form};
ghost use Rattle.gauge_plan.specs.Own.{not_ours};
ghost use Rattle.plan_flood.specs.Flood.{flood_plan, revoke_plan};
ghost use Rattle.plan_flood.specs.Rooms.{ack_room};

use gauge_plan::Plan;

// How many bytes the ACK has.
fn ack_room(silent: bool, n: bool) -> usize
    ensures { result ≡ ack_room silent n }
{
    if silent {
        return 0;
    }
    if n { 26 } else { 20 }
}

// Is the key at a place another than ours?
fn not_ours(own: &[u8], d: &[u8], at: usize) -> bool
    requires { (own_form own.now ≡ true) × (at + 32 ≤ length d.now) }
    ensures { result ≡ not_ours (own_keys own.now) at d.now }
{
    !own::is_own(own, d, at)
}

// The plan for a FLOOD with a route entry. `room` is the output's length.
pub fn plan_flood(
    own: &[u8],
    cache: &[u8],
    held: usize,
    waiting: &[u8],
    used: usize,
    id: u32,
    room: usize,
    d: &[u8],
    silent: bool,
    acked: u32,
    validate: usize,
    start: usize,
    len: usize,
) -> Plan
    requires { (own_form own.now ≡ true) × Form (own_keys own.now) cache.now (rows 100 held cache.now) × (140 * used ≤ length waiting.now)
        × (validate + 32 ≤ length d.now) × (start + len ≤ length d.now)
        × (entry_form (part start len d.now) ≡ true) }
    ensures { result ≡ flood_plan (own_keys own.now) (rows 100 held cache.now)
        (rows 140 used waiting.now) used id room d.now silent acked validate start len }
{
    if own::is_own(own, d, start) {
        return Plan::Refuse(refusal::OWN_KEY);
    }
    let n = not_ours(own, d, validate);
    let opens = asking::must_ask(cache, held, waiting, used, d, start, len);
    let barred = gauge_plan::open_refusal(opens, waiting, used, asking::id_after(id));
    if barred != 0 {
        return Plan::Refuse(barred);
    }
    if room < ack_room(silent, n) + asking::inquire_room(opens) {
        return Plan::Refuse(refusal::ROOM);
    }
    Plan::Flood {
        used,
        silent,
        n,
        acked,
        opens,
        start,
        len,
    }
}

// The plan for a FLOOD with a revocation, for which the host gives its verdict with a key.
pub fn plan_revoke(
    own: &[u8],
    held: usize,
    used: usize,
    verdict: u32,
    key: &[u8],
    room: usize,
    d: &[u8],
    silent: bool,
    acked: u32,
    validate: usize,
) -> Plan
    requires { (own_form own.now ≡ true) × (32 ≤ length key.now) × (validate + 32 ≤ length d.now) }
    ensures { result ≡ revoke_plan (own_keys own.now) held used verdict (key_at 0 key.now) room
        d.now silent acked validate }
{
    if verdict != 1 {
        return Plan::Refuse(refusal::UNTRUSTED);
    }
    if own::is_own(own, key, 0) {
        return Plan::Refuse(refusal::OWN_KEY);
    }
    let n = not_ours(own, d, validate);
    if room < ack_room(silent, n) {
        return Plan::Refuse(refusal::ROOM);
    }
    Plan::Revoke {
        held,
        used,
        silent,
        n,
        acked,
    }
}
