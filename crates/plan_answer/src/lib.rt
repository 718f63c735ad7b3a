// What is planned for an AUTHORITY, an ACK, an INQUIRE, a LOOKUP: every refusal is decided here.
#![tactic(auto)]

ghost use Rattle.std.specs.Prelude.{◌≡◌, true, ◌+◌, ◌*◌, ◌≤◌, ◌<◌, length};
ghost use Rattle.octet.specs.Part.{part};
ghost use Rattle.key.specs.Number.{key_at};
ghost use Rattle.record.specs.Entry.{entry_form};
ghost use Rattle.own.specs.Own.{own_form, own_keys, own_records};
ghost use Rattle.table.specs.Rows.{rows};
ghost use Rattle.cache.specs.Form.{Form};
ghost use Rattle.cpas.specs.Cpas.{cpas_form};
ghost use Rattle.plan_answer.specs.Answering.{authority_plan, ack_plan, inquire_plan, lookup_plan};

use gauge_plan::Plan;

// How many bytes an AUTHORITY with a record has.
const SHOWN_LEN: usize = 96;

// The plan for an AUTHORITY, with a CPA or without.
pub fn plan_authority(
    waiting: &[u8],
    held: usize,
    used: usize,
    verdict: u32,
    key: &[u8],
    acked: u32,
    cpa: bool,
) -> Plan
    requires { (140 * used ≤ length waiting.now) × (32 ≤ length key.now) }
    ensures { result ≡ authority_plan (rows 140 used waiting.now) held used verdict
        (key_at 0 key.now) acked cpa }
{
    let Some(at) = waiting::find(waiting, used, acked, waiting::INQUIRY) else {
        return Plan::Refuse(refusal::STRAY);
    };
    if !cpa {
        return Plan::Refuse(refusal::UNTRUSTED);
    }
    if verdict != 1 {
        return Plan::Refuse(refusal::UNTRUSTED);
    }
    if !key::same_at(key, 0, waiting, waiting::PLACE_LEN * at + 8) {
        return Plan::Refuse(refusal::OTHER_KEY);
    }
    Plan::Learn { held, used, at }
}

// The plan for an ACK, with N or without.
pub fn plan_ack(waiting: &[u8], held: usize, used: usize, acked: u32, n: bool) -> Plan
    requires { 140 * used ≤ length waiting.now }
    ensures { result ≡ ack_plan (rows 140 used waiting.now) held used acked n }
{
    let Some(at) = waiting::find(waiting, used, acked, waiting::FLOOD) else {
        return Plan::Refuse(refusal::STRAY);
    };
    Plan::Free { held, used, at, n }
}

// The plan for an INQUIRE. `room` is the output's length.
pub fn plan_inquire(
    own: &[u8],
    cpas: &[u8],
    room: usize,
    d: &[u8],
    acked: u32,
    validate: usize,
) -> Plan
    requires { (own_form own.now ≡ true) × (cpas_form (length (own_records own.now)) cpas.now ≡ true)
        × (validate + 32 ≤ length d.now) }
    ensures { result
        ≡ inquire_plan (own_keys own.now) cpas.now room d.now acked validate }
{
    if !own::is_own(own, d, validate) {
        return Plan::Refuse(refusal::NOT_OURS);
    }
    let at = own::place_of(own, d, validate);
    let cpa = cpas::cpa_at(cpas, at);
    if room < 40 + cpa.len() {
        return Plan::Refuse(refusal::ROOM);
    }
    Plan::Certify { acked, at }
}

// The plan for a LOOKUP whose target, path and route entry stand at places of the datagram; an entry that is not there has
// no bytes. The closest record need not be known yet: whichever it is, it has one address, and is looked for when it is
// shown.
pub fn plan_lookup(
    own: &[u8],
    cache: &[u8],
    held: usize,
    waiting: &[u8],
    used: usize,
    id: u32,
    room: usize,
    d: &[u8],
    acked: u32,
    target: usize,
    path: usize,
    size: usize,
    start: usize,
    len: usize,
) -> Plan
    requires { (own_form own.now ≡ true) × Form (own_keys own.now) cache.now (rows 100 held cache.now)
        × (140 * used ≤ length waiting.now) × (target + 32 ≤ length d.now) × (path + size ≤ length d.now)
        × (start + len ≤ length d.now) × (0 < len → entry_form (part start len d.now) ≡ true) }
    ensures { result ≡ lookup_plan own.now (rows 100 held cache.now)
        (rows 140 used waiting.now) held used id room d.now acked target path size start len }
{
    let opens = asking::asks_for(own, cache, held, waiting, used, d, start, len);
    let barred = gauge_plan::open_refusal(opens, waiting, used, asking::id_after(id));
    if barred != 0 {
        return Plan::Refuse(barred);
    }
    let asked = asking::inquire_room(opens);
    if room < SHOWN_LEN + asked {
        return Plan::Refuse(refusal::ROOM);
    }
    Plan::Show {
        held,
        used,
        acked,
        target,
        path,
        size,
        opens,
        start,
        len,
    }
}
