// The gauge as the radio program calls it.
#![tactic(auto)]

ghost use Rattle.std.specs.Prelude.{◌≡◌};
ghost use Rattle.wire_read.specs.Answers.{read_in};
ghost use Rattle.look.specs.Seen.{look_of};
ghost use Rattle.gauge_plan.specs.Lent.{Memory, memory, with_cache, with_waiting, with_tables, receive, send, tick, listing, receives, sends, ticks, lists};
ghost use Rattle.gauge_commit.specs.Sending.{handed};
ghost use Rattle.gauge.specs.Ours.{ours};
ghost use Rattle.gauge.specs.Nearest.{gauge_closest};
ghost use Rattle.gauge.specs.Searching.{gauge_search};
ghost use Rattle.gauge.specs.Converting.{conversion, conversion_of};

use gauge_plan::Plan;
use neighbours::Spot;
use plan_send::Flood;
use wire_sent::Heading;

// What is done with a datagram received: everything is planned before a byte is written.
fn plan_and_commit(
    own: &[u8],
    cpas: &[u8],
    cache: &mut [u8],
    firsts: &mut [u8],
    waiting: &mut [u8],
    head: Heading,
    nonce: &[u8],
    verdict: u32,
    key: &[u8],
    datagram: &[u8],
    output: &mut [u8],
) -> gauge_commit::Answer
    ensures { handed result (memory cache.new firsts.new waiting.new) output.new
        ≡ ours (memory cache.old firsts.old waiting.old) (receives (receive
        own.now cpas.now head.major head.minor head.id nonce.now verdict key.now
        datagram.now output.old)) }
{
    if !gauge_plan::hands_fit(own, cpas, nonce, key) {
        return gauge_commit::answer_of(refusal::MEMORY, 0, 0);
    }
    let plan = plan_message::plan_receive(
        own, cpas, cache, firsts, waiting, head.major, head.id, verdict, key, datagram, output,
    );
    match plan {
        Plan::Refuse(number) => gauge_commit::answer_of(number, 0, 0),
        Plan::Flood {
            used,
            silent,
            n,
            acked,
            opens,
            start,
            len,
        } => commit_flood::commit_flood(
            waiting,
            used,
            head,
            nonce,
            &datagram[start..start + len],
            silent,
            n,
            acked,
            opens,
            output,
        ),
        Plan::Revoke {
            held,
            used,
            silent,
            n,
            acked,
        } => commit_flood::commit_revoke(
            own, cache, firsts, held, waiting, used, key, head, silent, n, acked, output,
        ),
        Plan::Learn { held, used, at } => {
            commit_answer::commit_learn(own, cache, firsts, held, waiting, used, at);
            gauge_commit::answer_of(0, 0, 0)
        }
        Plan::Free { held, used, at, n } => {
            commit_answer::commit_free(own, cache, firsts, held, waiting, used, at, n);
            gauge_commit::answer_of(0, 0, 0)
        }
        Plan::Certify { acked, at } => { commit_answer::commit_cpa(head, acked, cpas, at, output) }
        Plan::Show {
            held,
            used,
            acked,
            target,
            path,
            size,
            opens,
            start,
            len,
        } => commit_answer::commit_show(
            own,
            &cache[..],
            held,
            waiting,
            used,
            head,
            nonce,
            acked,
            &datagram[target..target + 32],
            &datagram[path..path + size],
            opens,
            &datagram[start..start + len],
            output,
        ),
    }
}

// A datagram received. Own records out of form are refused before the rest of what is lent is touched; the plan tests them again.
pub fn gauge_receive(
    own: &[u8],
    cpas: &[u8],
    cache: &mut [u8],
    firsts: &mut [u8],
    waiting: &mut [u8],
    major: u8,
    minor: u8,
    id: u32,
    nonce: &[u8],
    verdict: u32,
    key: &[u8],
    datagram: &[u8],
    output: &mut [u8],
) -> gauge_commit::Answer
    ensures { handed result (memory cache.new firsts.new waiting.new) output.new
        ≡ ours (memory cache.old firsts.old waiting.old) (receives (receive
        own.now cpas.now major minor id nonce.now verdict key.now
        datagram.now output.old)) }
{
    if !gauge_plan::is_own_formed(own) {
        return gauge_commit::answer_of(refusal::MEMORY, 0, 0);
    }
    let head = Heading { major, minor, id };
    plan_and_commit(
        own, cpas, cache, firsts, waiting, head, nonce, verdict, key, datagram, output,
    )
}

// A FLOOD sent to a held neighbour, of a record of our own or of one held: everything is planned before a byte is written.
// Memory that is not lent may be any.
pub fn gauge_send(
    own: &[u8],
    cache: &[u8],
    waiting: &mut [u8],
    major: u8,
    minor: u8,
    id: u32,
    neighbour: &[u8],
    key: &[u8],
    output: &mut [u8],
) -> gauge_commit::Answer
    ensures { (m : Memory)
        → handed result (with_tables cache.now waiting.new m) output.new
        ≡ ours (with_tables cache.now waiting.old m) (sends (send own.now major minor id
        neighbour.now key.now output.old)) }
{
    let head = Heading { major, minor, id };
    let room = output.len();
    let plan = plan_send::plan_send(own, cache, waiting, id, neighbour, key, room);
    match plan {
        Err(number) => gauge_commit::answer_of(number, 0, 0),
        Ok(Flood { used, ours, at }) => commit_send::commit_send(
            own, cache, waiting, used, head, neighbour, ours, at, output,
        ),
    }
}

// One second has passed: how many IDs are listed in the output, each 4 bytes, least significant first. Memory that is
// not lent may be any.
pub fn gauge_tick(own: &[u8], waiting: &mut [u8], output: &mut [u8]) -> gauge_commit::Answer
    ensures { (m : Memory) → handed result (with_waiting waiting.new m) output.new
        ≡ ours (with_waiting waiting.old m) (ticks (tick own.now output.old)) }
{
    let done = waiting_form::tick(own, waiting, output);
    gauge_commit::answer_of(done.number, done.count, 0)
}

// The neighbour list of one of our keys: how many keys below it, then how many above, stand in the output, nearest first.
// Memory that is not lent may be any.
pub fn gauge_neighbours(
    own: &[u8],
    cache: &[u8],
    key: &[u8],
    output: &mut [u8],
) -> gauge_commit::Answer
    ensures { (m : Memory) → handed result (with_cache cache.now m) output.new
        ≡ ours (with_cache cache.now m)
        (lists (listing own.now key.now output.old)) }
{
    match neighbours::neighbour_list(own, cache, key, output) {
        Ok(counts) => gauge_commit::answer_of(0, counts.below, counts.above),
        Err(number) => gauge_commit::answer_of(number, 0, 0),
    }
}

// The record closest to a target, those held that are on the path skipped: its place for one of our own, 4 more than that for one of
// the cache; and how many keys were compared to find the target's place. The path is endpoints as on the wire.
pub fn gauge_closest(own: &[u8], cache: &[u8], path: &[u8], target: &[u8]) -> gauge_commit::Answer
    ensures { result ≡ gauge_closest own.now cache.now path.now target.now }
{
    let sighted = neighbours::closest_record(own, cache, path, target);
    match sighted.nearest {
        Err(number) => gauge_commit::answer_of(number, 0, 0),
        Ok(Spot::Own(i)) => gauge_commit::answer_of(0, i, sighted.compared),
        Ok(Spot::Held(i)) => gauge_commit::answer_of(0, 4 + i, sighted.compared),
    }
}

// Whether a key is held: 0 where it is not, one more than its place where it is; and how many keys were compared.
pub fn gauge_search(own: &[u8], cache: &[u8], key: &[u8]) -> gauge_commit::Answer
    ensures { result ≡ gauge_search own.now cache.now key.now }
{
    let done = cache::search_key(own, cache, key);
    gauge_commit::answer_of(done.number, done.place, done.compared)
}

// A datagram read without acting on it: the numbers of its message, and where the fields stand that must be judged or
// signed.
pub fn gauge_look(major: u8, datagram: &[u8]) -> look::Look
    ensures { result ≡ look_of (read_in datagram.now major) }
{
    look::look_at(major, datagram)
}

// Memory of the time when a record could have four addresses, turned into the form of today: each record keeps its first.
pub fn gauge_convert(own: &[u8], cache: &mut [u8], waiting: &mut [u8]) -> gauge_commit::Answer
    ensures { conversion result cache.new waiting.new
        ≡ conversion_of own.now cache.old waiting.old }
{
    gauge_commit::answer_of(convert::convert(own, cache, waiting), 0, 0)
}
