// What was planned for a FLOOD received is done: the ACK, and the INQUIRE; the key revoked. Nothing here can refuse.
#![tactic(auto)]

ghost use Rattle.std.specs.Prelude.{◌≡◌, true, cond, ◌++◌, ◌+◌, ◌≤◌, ◌<◌, length};
ghost use Rattle.octet.specs.Part.{part};
ghost use Rattle.key.specs.Number.{key_at};
ghost use Rattle.record.specs.Entry.{entry_form, record_of};
ghost use Rattle.own.specs.Own.{own_form, own_keys};
ghost use Rattle.table.specs.Rows.{rows, bytes_of, Laid};
ghost use Rattle.cache.specs.Form.{keys_of, Form};
ghost use Rattle.cache.specs.Bytes.{after_remove};
ghost use Rattle.firsts.specs.Firsts.{firsts_of};
ghost use Rattle.waiting.specs.Place.{inquiry_place};
ghost use Rattle.waiting.specs.Form.{is_inquiry};
ghost use Rattle.table.specs.Seek.{seek};
ghost use Rattle.waiting.specs.Open.{opened, freed};
ghost use Rattle.plan_flood.specs.Rooms.{ack_room};
ghost use Rattle.asking.specs.Asking.{inquire_room};
ghost use Rattle.asking.specs.Ids.{id_after};
ghost use Rattle.gauge_commit.specs.Sending.{lengths, sending};
ghost use Rattle.gauge_commit.specs.Replies.{ack_written, inquire_written, freed_at};

use gauge_commit::Answer;
use wire_sent::Heading;

// The ACK, where D is clear, at the output's start. Answers how long it is.
fn send_ack(output: &mut [u8], head: Heading, silent: bool, acked: u32, n: bool) -> usize
    requires { ack_room silent n ≤ length output.old }
    ensures value { result ≡ ack_room silent n }
    ensures output_after { output.new ≡ sending (ack_written head.major head.minor head.id silent acked n) output.old }
{
    if silent {
        return 0;
    }
    let wrote = wire_sent::write_ack(output, head, acked, n);
    wrote.length
}

// A FLOOD with a route entry: the ACK, and the INQUIRE where a place opens.
pub fn commit_flood(
    waiting: &mut [u8],
    used: usize,
    head: Heading,
    nonce: &[u8],
    entry: &[u8],
    silent: bool,
    n: bool,
    acked: u32,
    opens: bool,
    output: &mut [u8],
) -> Answer
    requires { (opens ≡ true → used < 16) × (length waiting.old ≡ 2240) × Laid 140 used waiting.old
        × (length nonce.now ≡ 16) × (entry_form entry.now ≡ true)
        × (ack_room silent n + inquire_room opens ≤ length output.old) }
    ensures value { result ≡ lengths (ack_written head.major head.minor head.id silent acked n
        ++ inquire_written head.major head.minor head.id opens nonce.now (record_of entry.now)) }
    ensures waiting_after { waiting.new ≡ cond opens (bytes_of 2240 (opened (inquiry_place (id_after head.id)
        (record_of entry.now)) (rows 140 used waiting.old)))
        waiting.old }
    ensures output_after { output.new ≡ sending (ack_written head.major head.minor head.id silent acked n
        ++ inquire_written head.major head.minor head.id opens nonce.now (record_of entry.now))
        output.old }
{
    let first = send_ack(output, head, silent, acked, n);
    if !opens {
        return gauge_commit::answer_of(0, first, 0);
    }
    commit_asking::ask(waiting, used, head, nonce, entry, output, first);
    if silent {
        return gauge_commit::answer_of(0, asking::INQUIRE_LEN, 0);
    }
    gauge_commit::answer_of(0, first, asking::INQUIRE_LEN)
}

// The inquiry for a key, if one is waiting, is freed.
fn free_inquiry(waiting: &mut [u8], used: usize, key: &[u8])
    requires { (length waiting.old ≡ 2240) × Laid 140 used waiting.old × (length key.now ≡ 32) }
    ensures { waiting.new ≡ bytes_of 2240 (freed_at (seek (is_inquiry (key_at 0 key.now)) 0
        (rows 140 used waiting.old)) (rows 140 used waiting.old)) }
{
    if let Some(at) = waiting::find_inquiry(waiting, 0, used, key, 0) {
        waiting::free(waiting, used, at);
    }
}

// A FLOOD with a revocation: the key is removed, an inquiry for it freed, the ACK written.
pub fn commit_revoke(
    own: &[u8],
    cache: &mut [u8],
    firsts: &mut [u8],
    held: usize,
    waiting: &mut [u8],
    used: usize,
    key: &[u8],
    head: Heading,
    silent: bool,
    n: bool,
    acked: u32,
    output: &mut [u8],
) -> Answer
    requires { (own_form own.now ≡ true) × (length key.now ≡ 32)
        × Form (own_keys own.now) cache.old (rows 100 held cache.old) × (length waiting.old ≡ 2240)
        × Laid 140 used waiting.old × (used ≤ 16) × (ack_room silent n ≤ length output.old)
        × (firsts.old ≡ firsts_of (keys_of (rows 100 held cache.old))) }
    ensures value { result ≡ lengths (ack_written head.major head.minor head.id silent acked n) }
    ensures cache_after { cache.new ≡ bytes_of (length cache.old)
        (after_remove (key_at 0 key.now) (rows 100 held cache.old)) }
    ensures firsts_after { firsts.new ≡ firsts_of (keys_of
        (after_remove (key_at 0 key.now) (rows 100 held cache.old))) }
    ensures waiting_after { waiting.new ≡ bytes_of 2240 (freed_at (seek (is_inquiry (key_at 0 key.now)) 0
        (rows 140 used waiting.old)) (rows 140 used waiting.old)) }
    ensures output_after { output.new ≡ sending (ack_written head.major head.minor head.id silent acked n) output.old }
{
    counted::remove(own, cache, firsts, held, key);
    free_inquiry(waiting, used, key);
    let first = send_ack(output, head, silent, acked, n);
    gauge_commit::answer_of(0, first, 0)
}
