// Of more keys than there is room for, the one that goes: of those in no neighbour list of our own keys the farthest round
// the ring from the first of them.
#![tactic(auto)]

ghost use Rattle.std.specs.Prelude.{◌≡◌, map, ℕ, ◌+◌, ◌*◌, ◌/◌, ◌%◌, ◌≤◌, ◌<◌, length, get_or};
ghost use Rattle.key.specs.Number.{number};
ghost use Rattle.record.specs.Record.{key_of};
ghost use Rattle.table.specs.Rows.{rows, insert_at};
ghost use Rattle.kept.specs.Keys.{◌∈◌, Every, Rising, plain};
ghost use Rattle.own.specs.Own.{own_keys};
ghost use Rattle.listed.specs.Runs.{Fits};
ghost use Rattle.going.specs.Going.{listed_from, listed_before, farther_of, Goes};

use key::Key;
use listed::Runs;

// How many places, from one on and counted round, are in a list before the first that is not, of so many.
fn listed_from(total: usize, end: usize, most: usize, runs: Runs) -> usize
    requires { (end + most ≤ total + total) × (total < 1000) × Fits total runs }
    ensures { result ≡ listed_from total end most runs }
{
    for i in 0..most {
        if !listed::is_listed(total, round::wrap(total, end + i), runs) {
            return i;
        }
    }
    most
}

// The same from before the place down.
fn listed_before(total: usize, end: usize, most: usize, runs: Runs) -> usize
    requires { (most ≤ end) × (end ≤ total + total) × (total < 1000) × Fits total runs }
    ensures { result ≡ listed_before total end most runs }
{
    for i in 0..most {
        if !listed::is_listed(total, round::wrap(total, end - (i + 1)), runs) {
            return i;
        }
    }
    most
}

// The key of place x among those held and the record, which stands before place `at`.
fn key_there(cache: &[u8], used: usize, at: usize, record: &[u8], x: usize) -> Key
    requires { (100 * used ≤ length cache.now) × (32 ≤ length «record».now) × (at ≤ used) × (x ≤ used) }
    ensures { number result
        ≡ get_or (map key_of (insert_at at «record».now (rows 100 used cache.now))) x 0 }
{
    if x < at {
        return key::key_at(cache, record::RECORD_LEN * x);
    }
    if at < x {
        return key::key_at(cache, record::RECORD_LEN * (x - 1));
    }
    key::key_at(record, 0)
}

// Of a place above our own key and one below it the one with the key farther from it, the lower where they are equally far.
fn farther_of(
    own: &[u8],
    cache: &[u8],
    used: usize,
    at: usize,
    record: &[u8],
    x: usize,
    y: usize,
) -> usize
    requires in_bounds { (32 ≤ length own.now) × (32 ≤ length «record».now) × (100 * used ≤ length cache.now) }
    requires at_le_used { (at ≤ used) × (x ≤ used) × (y ≤ used) }
    ensures { result ≡ farther_of (key_of own.now)
        (map key_of (insert_at at «record».now (rows 100 used cache.now))) x y }
{
    let first = key::key_at(own, 0);
    let up = key::minus(key_there(cache, used, at, record, x), first);
    let down = key::minus(first, key_there(cache, used, at, record, y));
    if key::is_less(up, down) {
        return y;
    }
    if key::is_less(down, up) {
        return x;
    }
    if x < y {
        return x;
    }
    y
}

// Which place goes of those held and the record, whose key is not held and which would stand before place `at`? Our own
// records are one to four. The keys farthest from the first of ours stand beside the point opposite it: from there on
// outwards, either way, to the first that is in no list.
pub fn who_goes(own: &[u8], cache: &[u8], used: usize, at: usize, record: &[u8]) -> usize
    requires own_len { (length own.now % 100 ≡ 0) × (100 ≤ length own.now) × (length own.now ≤ 400) }
    requires used_in_bounds { (100 * used ≤ length cache.now) × (used < 999) × (length own.now ≤ 10 * used) × (at ≤ used)
        × (32 ≤ length «record».now) }
    requires rising { Rising plain 0 (map key_of (rows 100 used cache.now)) }
    requires rising_2 { Rising plain 0 (map key_of (insert_at at «record».now (rows 100 used cache.now))) }
    requires every { Every (λ (k : ℕ). ¬ (k ∈ own_keys own.now)) (map key_of (insert_at at «record».now (rows 100 used cache.now))) }
    ensures { Goes (key_of own.now) (own_keys own.now)
        (map key_of (insert_at at «record».now (rows 100 used cache.now))) result }
{
    let total = used + 1;
    let runs = listed::runs_of(own, cache, used, record);
    let below = runs.a.below;
    let above = total - below;
    let end = runs.a.first + above;
    let up = listed_from(total, end, below, runs);
    let down = listed_before(total, end, above, runs);
    if above <= down {
        return round::wrap(total, end + up);
    }
    let x = round::wrap(total, end - (down + 1));
    if below <= up {
        return x;
    }
    let y = round::wrap(total, end + up);
    farther_of(own, cache, used, at, record, x, y)
}
