// The record closest to a target key: a part of one of two lent slices, and no copy.
ghost use Rattle.std.specs.Prelude.{◌≡◌, true, List, ℕ, ◌+◌, ◌*◌, ◌≤◌, length};
ghost use Rattle.key.specs.Number.{number, key_at};
ghost use Rattle.record.specs.Record.{record_form};
ghost use Rattle.own.specs.Own.{own_form, own_keys, own_records};
ghost use Rattle.table.specs.Rows.{rows};
ghost use Rattle.kept.specs.Keys.{Every};
ghost use Rattle.kept.specs.Turned.{count_under};
ghost use Rattle.cache.specs.Form.{keys_of, Form};
ghost use Rattle.neighbours.specs.Closest.{candidates, off_path, closest_of};
ghost use Rattle.neighbours.specs.Where.{skipped_up, skipped_down, record_at, nearest_of, Within, Lies};
ghost use Rattle.neighbours.specs.Calls.{Inside, shown_by, closest_call, closest_compared};

use key::Key;

// Where a record stands: it is one of our own, or that of a place of the cache.
#[derive(Clone, Copy, Debug, PartialEq, Eq)]
pub enum Spot {
    Own(usize),
    Held(usize),
}

// The closest record, or the number that the call for it is refused with; and how many of the keys held were compared to
// find the target's place: those on the path too.
#[derive(Clone, Copy)]
pub struct Sighted {
    pub nearest: Result<Spot, u32>,
    pub compared: usize,
}

// The record that stands there.
pub fn record_at<'a>(own: &'a [u8], cache: &'a [u8], spot: Spot) -> &'a [u8]
    requires { Lies own.now cache.now spot }
    ensures { result.now ≡ record_at own.now cache.now spot }
{
    match spot {
        Spot::Own(i) => {
            let at = record::RECORD_LEN * i;
            &own[at..at + record::RECORD_LEN]
        }
        Spot::Held(i) => {
            let at = record::RECORD_LEN * i;
            &cache[at..at + record::RECORD_LEN]
        }
    }
}

// Which of our own record of place i and those of two places is the closest to the target?
fn nearest_of(own: &[u8], i: usize, cache: &[u8], up: usize, down: usize, target: Key) -> Spot
    requires { (100 * i + 32 ≤ length own.now) × (100 * up + 32 ≤ length cache.now) × (100 * down + 32 ≤ length cache.now) }
    ensures { result ≡ nearest_of (number target) own.now i cache.now up down }
{
    let ours = key::key_at(own, record::RECORD_LEN * i);
    let over = key::key_at(cache, record::RECORD_LEN * up);
    let under = key::key_at(cache, record::RECORD_LEN * down);
    let far = ring::how_far(target, ours);
    let far_up = ring::how_far(target, over);
    let far_down = ring::how_far(target, under);
    if ring::is_closer(target, over, far_up, under, far_down) {
        if ring::is_closer(target, over, far_up, ours, far) {
            return Spot::Held(up);
        }
        return Spot::Own(i);
    }
    if ring::is_closer(target, under, far_down, ours, far) {
        return Spot::Held(down);
    }
    Spot::Own(i)
}

// How many records are on the path, from a place up and counted round, before the first that is not; all of them where
// none is not.
fn skipped_up(cache: &[u8], used: usize, at: usize, path: &[u8]) -> usize
    requires { (100 * used ≤ length cache.now) × (at ≤ used)
        × Every (λ (q : List ℕ). record_form q ≡ true) (rows 100 used cache.now) }
    ensures { result ≡ skipped_up path.now cache.now used at }
{
    for i in 0..used {
        let start = record::RECORD_LEN * round::wrap(used, at + i);
        if !path::on_path(cache, start, path) {
            return i;
        }
    }
    used
}

// The same from before the place down.
fn skipped_down(cache: &[u8], used: usize, at: usize, path: &[u8]) -> usize
    requires { (100 * used ≤ length cache.now) × (at ≤ used)
        × Every (λ (q : List ℕ). record_form q ≡ true) (rows 100 used cache.now) }
    ensures { result ≡ skipped_down path.now cache.now used at }
{
    for i in 0..used {
        let start = record::RECORD_LEN * round::wrap(used, at + (used - (i + 1)));
        if !path::on_path(cache, start, path) {
            return i;
        }
    }
    used
}

// Where the closest record stands, those on the path left out. `at` is the target's place among all that are held. Of our
// own it can only be the closest of them. Keys go round, so of those held it can only be the first that is reached by going
// up from the target or the first by going down.
fn place_of_closest(
    own: &[u8],
    cache: &[u8],
    used: usize,
    at: usize,
    path: &[u8],
    target: &[u8],
) -> Spot
    requires own_value { (own_form own.now ≡ true) × (32 ≤ length target.now) }
    requires form { Form (own_keys own.now) cache.now (rows 100 used cache.now) }
    requires at_value { at ≡ count_under (key_at 0 target.now) (keys_of (rows 100 used cache.now)) }
    ensures result_value { record_at own.now cache.now result
        ≡ closest_of (key_at 0 target.now) (candidates (own_records own.now)
        (off_path path.now (rows 100 used cache.now))) }
    ensures within { Within (length (own_records own.now)) used result }
{
    let ours = closest_row::place_of(own, own::count(own), key::key_at(target, 0));
    let over = skipped_up(cache, used, at, path);
    if over == used {
        return Spot::Own(ours);
    }
    let under = skipped_down(cache, used, at, path);
    let up = round::wrap(used, at + over);
    let down = round::wrap(used, at + (used - (under + 1)));
    nearest_of(own, ours, cache, up, down, key::key_at(target, 0))
}

// The record closest to the target, whose 32 bytes begin its slice, among our own records and those that are held, so
// many as `used` says, and not on the path.
pub fn closest<'a>(
    own: &'a [u8],
    cache: &'a [u8],
    used: usize,
    path: &[u8],
    target: &[u8],
) -> &'a [u8]
    requires own_value { (own_form own.now ≡ true) × (32 ≤ length target.now) }
    requires form { Form (own_keys own.now) cache.now (rows 100 used cache.now) }
    ensures { result.now ≡ closest_of (key_at 0 target.now) (candidates (own_records own.now)
        (off_path path.now (rows 100 used cache.now))) }
{
    let place = sides::count_under(target, cache, used);
    let spot = place_of_closest(own, cache, used, place, path, target);
    record_at(own, cache, spot)
}

// Which record is the closest to the target, on memory that nobody has tested: refused with 1 where it is not in form, the
// path is not whole endpoints or the target has not 32 bytes.
pub fn closest_record(own: &[u8], cache: &[u8], path: &[u8], target: &[u8]) -> Sighted
    ensures nearest_value { shown_by own.now cache.now result.nearest
        ≡ closest_call own.now cache.now path.now target.now }
    ensures inside { Inside own.now cache.now result.nearest }
    ensures compared_value { result.compared
        ≡ closest_compared own.now cache.now path.now target.now }
{
    let Some(used) = cache::memory(own, cache) else {
        return Sighted {
            nearest: Err(refusal::MEMORY),
            compared: 0,
        };
    };
    if !path::is_path(path) {
        return Sighted {
            nearest: Err(refusal::MEMORY),
            compared: 0,
        };
    }
    if target.len() != 32 {
        return Sighted {
            nearest: Err(refusal::MEMORY),
            compared: 0,
        };
    }
    let sought = search::find_key(cache, used, target);
    let at = match sought.found {
        Ok(at) | Err(at) => at,
    };
    Sighted {
        nearest: Ok(place_of_closest(own, cache, used, at, path, target)),
        compared: sought.compared,
    }
}
