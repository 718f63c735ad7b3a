// What was planned for an AUTHORITY, an ACK, an INQUIRE or a LOOKUP is done. Nothing here can refuse.
#![tactic(auto)]

ghost use Rattle.std.specs.Prelude.{◌≡◌, true, cond, [], ◌∷◌, ℕ, ◌+◌, ◌*◌, ◌≤◌, ◌<◌, length, get_or};
ghost use Rattle.octet.specs.Part.{part};
ghost use Rattle.key.specs.Number.{key_at};
ghost use Rattle.record.specs.Record.{count_of, record_form};
ghost use Rattle.record.specs.Entry.{entry_form, record_of};
ghost use Rattle.own.specs.Own.{own_form, own_keys};
ghost use Rattle.table.specs.Rows.{rows, bytes_of, Laid};
ghost use Rattle.kept.specs.Plain.{NotOwn};
ghost use Rattle.cache.specs.Form.{keys_of, Form};
ghost use Rattle.cache.specs.Bytes.{after_learn, after_remove};
ghost use Rattle.firsts.specs.Firsts.{firsts_of};
ghost use Rattle.neighbours.specs.Closest.{closest_past};
ghost use Rattle.waiting.specs.Place.{place_key, place_record, inquiry_place};
ghost use Rattle.waiting.specs.Open.{opened, freed};
ghost use Rattle.wire_write.specs.Making.{cpa_made, closest_made};
ghost use Rattle.cpas.specs.Cpas.{cpas_form, cpa_of};
ghost use Rattle.asking.specs.Asking.{inquire_room};
ghost use Rattle.asking.specs.Ids.{id_after};
ghost use Rattle.gauge_commit.specs.Sending.{lengths, sending};
ghost use Rattle.gauge_commit.specs.Replies.{inquire_written};

use gauge_commit::Answer;
use wire_sent::Heading;

// An AUTHORITY: the inquiry's record goes from its place into the cache, and the place is freed.
pub fn commit_learn(
    own: &[u8],
    cache: &mut [u8],
    firsts: &mut [u8],
    held: usize,
    waiting: &mut [u8],
    used: usize,
    at: usize,
)
    requires { (own_form own.now ≡ true) × Form (own_keys own.now) cache.old (rows 100 held cache.old)
        × (length waiting.old ≡ 2240) × Laid 140 used waiting.old × (used ≤ 16) × (at < used)
        × (record_form (part (140 * at + 40) 100 waiting.old) ≡ true)
        × NotOwn (own_keys own.now) (key_at (140 * at + 40) waiting.old)
        × (firsts.old ≡ firsts_of (keys_of (rows 100 held cache.old))) }
    ensures cache_after { cache.new ≡ bytes_of (length cache.old) (after_learn (own_keys own.now)
        (length cache.old) (rows 100 held cache.old)
        (place_record (get_or (rows 140 used waiting.old) at []))) }
    ensures firsts_after { firsts.new ≡ firsts_of (keys_of (after_learn (own_keys own.now)
        (length cache.old) (rows 100 held cache.old)
        (place_record (get_or (rows 140 used waiting.old) at [])))) }
    ensures waiting_after { waiting.new ≡ bytes_of 2240 (freed at (rows 140 used waiting.old)) }
{
    let from = waiting::PLACE_LEN * at + 40;
    counted::learn(
        own,
        cache,
        firsts,
        held,
        &waiting[from..from + record::RECORD_LEN],
    );
    waiting::free(waiting, used, at);
}

// An ACK: with N the neighbour's key is removed; the place is freed.
pub fn commit_free(
    own: &[u8],
    cache: &mut [u8],
    firsts: &mut [u8],
    held: usize,
    waiting: &mut [u8],
    used: usize,
    at: usize,
    n: bool,
)
    requires { (own_form own.now ≡ true) × Form (own_keys own.now) cache.old (rows 100 held cache.old)
        × (length waiting.old ≡ 2240) × Laid 140 used waiting.old × (used ≤ 16) × (at < used)
        × (firsts.old ≡ firsts_of (keys_of (rows 100 held cache.old))) }
    ensures cache_after { cache.new ≡ cond n (bytes_of (length cache.old)
        (after_remove (place_key (get_or (rows 140 used waiting.old) at []))
        (rows 100 held cache.old))) cache.old }
    ensures firsts_after { firsts.new ≡ cond n (firsts_of (keys_of
        (after_remove (place_key (get_or (rows 140 used waiting.old) at []))
        (rows 100 held cache.old)))) firsts.old }
    ensures waiting_after { waiting.new ≡ bytes_of 2240 (freed at (rows 140 used waiting.old)) }
{
    if n {
        let from = waiting::PLACE_LEN * at + 8;
        counted::remove(own, cache, firsts, held, &waiting[from..from + 32]);
        waiting::free(waiting, used, at);
        return;
    }
    waiting::free(waiting, used, at);
}

// An INQUIRE: the AUTHORITY with the CPA of a place.
pub fn commit_cpa(head: Heading, acked: u32, cpas: &[u8], at: usize, output: &mut [u8]) -> Answer
    requires by_index { (n : ℕ) × (at < n) × (cpas_form n cpas.now ≡ true) }
    requires cpas_in_bounds { 40 + length (cpa_of at cpas.now) ≤ length output.old }
    ensures value { result ≡ lengths ((cpa_made head.major head.minor head.id acked (cpa_of at cpas.now)).bytes ∷ []) }
    ensures output_after { output.new
        ≡ sending ((cpa_made head.major head.minor head.id acked (cpa_of at cpas.now)).bytes ∷ []) output.old }
{
    let cpa = cpas::cpa_at(cpas, at);
    let wrote = wire_sent::write_cpa(output, head, acked, cpa);
    gauge_commit::answer_of(0, wrote.length, 0)
}

// The AUTHORITY with the record closest to the target, written from where it lies. Answers how long it is.
fn send_closest<'a>(
    own: &'a [u8],
    cache: &'a [u8],
    held: usize,
    head: Heading,
    acked: u32,
    target: &[u8],
    path: &[u8],
    output: &mut [u8],
) -> usize
    requires { (own_form own.now ≡ true) × Form (own_keys own.now) cache.now (rows 100 held cache.now)
        × (32 ≤ length target.now)
        × (80 + 16 * count_of (closest_past own.now (rows 100 held cache.now) path.now (key_at 0 target.now))
        ≤ length output.old) }
    ensures value { (result ≡ length (closest_made head.major head.minor head.id acked (closest_past own.now
        (rows 100 held cache.now) path.now (key_at 0 target.now)) 0).bytes)
        × (result < 65536) }
    ensures output_after { output.new
        ≡ sending ((closest_made head.major head.minor head.id acked (closest_past own.now (rows 100 held cache.now)
        path.now (key_at 0 target.now)) 0).bytes ∷ []) output.old }
{
    let shown = neighbours::closest(own, cache, held, path, target);
    let wrote = wire_sent::write_closest(output, head, acked, shown, 0);
    wrote.length
}

// A LOOKUP: the AUTHORITY with the closest record, and the INQUIRE where a place opens.
pub fn commit_show<'a>(
    own: &'a [u8],
    cache: &'a [u8],
    held: usize,
    waiting: &mut [u8],
    used: usize,
    head: Heading,
    nonce: &[u8],
    acked: u32,
    target: &[u8],
    path: &[u8],
    opens: bool,
    entry: &[u8],
    output: &mut [u8],
) -> Answer
    requires used_bound { (opens ≡ true → used < 16) × (length waiting.old ≡ 2240) × Laid 140 used waiting.old
        × (length nonce.now ≡ 16) × (opens ≡ true → entry_form entry.now ≡ true) }
    requires own_value { (own_form own.now ≡ true) × Form (own_keys own.now) cache.now (rows 100 held cache.now)
        × (32 ≤ length target.now)
        × (80 + 16 * count_of (closest_past own.now (rows 100 held cache.now) path.now (key_at 0 target.now))
        + inquire_room opens ≤ length output.old) }
    ensures value { result ≡ lengths ((closest_made head.major head.minor head.id acked (closest_past own.now
        (rows 100 held cache.now) path.now (key_at 0 target.now)) 0).bytes
        ∷ inquire_written head.major head.minor head.id opens nonce.now (record_of entry.now)) }
    ensures waiting_after { waiting.new ≡ cond opens (bytes_of 2240 (opened (inquiry_place (id_after head.id)
        (record_of entry.now)) (rows 140 used waiting.old)))
        waiting.old }
    ensures output_after { output.new
        ≡ sending ((closest_made head.major head.minor head.id acked (closest_past own.now (rows 100 held cache.now)
        path.now (key_at 0 target.now)) 0).bytes
        ∷ inquire_written head.major head.minor head.id opens nonce.now (record_of entry.now))
        output.old }
{
    let first = send_closest(own, cache, held, head, acked, target, path, output);
    if !opens {
        return gauge_commit::answer_of(0, first, 0);
    }
    commit_asking::ask(waiting, used, head, nonce, entry, output, first);
    gauge_commit::answer_of(0, first, asking::INQUIRE_LEN)
}
