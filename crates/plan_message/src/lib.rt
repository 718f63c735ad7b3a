// What is planned for a datagram received. Lent everything for reading.
#![tactic(auto)]

ghost use Rattle.std.specs.Prelude.{◌≡◌, true, ◌*◌, ◌≤◌, length};
ghost use Rattle.own.specs.Own.{own_form, own_keys, own_records};
ghost use Rattle.table.specs.Rows.{rows};
ghost use Rattle.cache.specs.Form.{Form};
ghost use Rattle.cpas.specs.Cpas.{cpas_form};
ghost use Rattle.wire_read.specs.Answers.{read_in};
ghost use Rattle.gauge_plan.specs.Lent.{Memory, with_firsts, with_tables, Receive, planning};
ghost use Rattle.gauge_plan.specs.Memory.{memory_of};
ghost use Rattle.plan_message.specs.Planned.{plan_for, plan_by};

use gauge_plan::{Fit, Plan};

// The plan for the message that the datagram holds, where memory is in form. Nothing else that it comes with counts, nor
// memory that is not lent.
fn plan_message<'a>(
    own: &'a [u8],
    cpas: &[u8],
    cache: &'a [u8],
    held: usize,
    waiting: &[u8],
    used: usize,
    major: u8,
    id: u32,
    verdict: u32,
    key: &[u8],
    datagram: &[u8],
    output: &[u8],
) -> Plan
    requires { (own_form own.now ≡ true) × (cpas_form (length (own_records own.now)) cpas.now ≡ true)
        × Form (own_keys own.now) cache.now (rows 100 held cache.now)
        × (140 * used ≤ length waiting.now) × (length key.now ≡ 32) }
    ensures { (m : Memory) (l : Receive) → result
        ≡ plan_for (with_tables cache.now waiting.now m)
        (planning own.now cpas.now major id verdict key.now datagram.now
        output.now l) held used (read_in datagram.now major) }
{
    let room = output.len();
    let told = look::brief_at(major, datagram);
    let seen = told.seen;
    let kind = seen.kind;
    match kind {
        0 => Plan::Refuse(seen.number),
        4 => {
            if seen.entry_length == 0 {
                return plan_flood::plan_revoke(
                    own,
                    held,
                    used,
                    verdict,
                    key,
                    room,
                    datagram,
                    told.flag,
                    seen.id,
                    told.validate,
                );
            }
            plan_flood::plan_flood(
                own,
                cache,
                held,
                waiting,
                used,
                id,
                room,
                datagram,
                told.flag,
                seen.id,
                told.validate,
                seen.entry as usize,
                seen.entry_length as usize,
            )
        }
        7 => plan_answer::plan_inquire(own, cpas, room, datagram, seen.id, told.validate),
        8 => plan_answer::plan_authority(waiting, held, used, verdict, key, seen.acked, told.flag),
        9 => plan_answer::plan_ack(waiting, held, used, seen.acked, told.flag),
        11 => plan_answer::plan_lookup(
            own,
            cache,
            held,
            waiting,
            used,
            id,
            room,
            datagram,
            seen.id,
            seen.target as usize,
            told.path + 8,
            told.size - 8,
            seen.entry as usize,
            seen.entry_length as usize,
        ),
        _ => Plan::Refuse(refusal::NOT_TAKEN),
    }
}

// The plan for the datagram, where what is handed in with it has been tested: memory is tested, and the plan of its
// message made. Nothing else that it comes with counts, nor memory that is not lent.
pub fn plan_receive<'a>(
    own: &'a [u8],
    cpas: &[u8],
    cache: &'a [u8],
    firsts: &[u8],
    waiting: &[u8],
    major: u8,
    id: u32,
    verdict: u32,
    key: &[u8],
    datagram: &[u8],
    output: &[u8],
) -> Plan
    requires { (cpas_form (length (own_records own.now)) cpas.now ≡ true) × (length key.now ≡ 32) }
    ensures { (m : Memory) (l : Receive) → result
        ≡ plan_by (with_tables cache.now waiting.now (with_firsts firsts.now m))
        (planning own.now cpas.now major id verdict key.now datagram.now
        output.now l)
        (memory_of own.now
        (with_tables cache.now waiting.now (with_firsts firsts.now m))) }
{
    let Some(Fit { held, used }) = gauge_plan::survey(own, cache, waiting) else {
        return Plan::Refuse(refusal::MEMORY);
    };
    if !firsts::agree(cache, held, firsts) {
        return Plan::Refuse(refusal::MEMORY);
    }
    plan_message(
        own, cpas, cache, held, waiting, used, major, id, verdict, key, datagram, output,
    )
}
