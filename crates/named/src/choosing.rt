// The record that is named and the next, as places, and the reason by their keys.
ghost use Rattle.std.specs.Prelude.{◌≡◌, true, ◌*◌, ◌≤◌};
ghost use Rattle.key.specs.Number.{number};
ghost use Rattle.record.specs.Record.{key_of};
ghost use Rattle.own.specs.Own.{own_form, own_keys};
ghost use Rattle.table.specs.Rows.{rows};
ghost use Rattle.cache.specs.Form.{Form};
ghost use Rattle.named.specs.Spots.{record_at, Inside};
ghost use Rattle.named.specs.Places.{spot_for, choice_for};

use crate::Choice;
use key::Key;
use neighbours::Spot;
use next_row::row_of;

// The record that stands there: no byte where there is none.
pub fn record_at<'a>(own: &'a [u8], cache: &'a [u8], spot: Option<Spot>) -> &'a [u8]
    requires { Inside own.now cache.now spot }
    ensures { result.now ≡ record_at own.now cache.now spot }
{
    match spot {
        None => &own[0..0],
        Some(spot) => neighbours::record_at(own, cache, spot),
    }
}

// Its key: 0 where there is none.
fn key_of(own: &[u8], cache: &[u8], spot: Option<Spot>) -> Key
    requires { Inside own.now cache.now spot }
    ensures { number result ≡ key_of (record_at own.now cache.now spot) }
{
    match spot {
        None => Key {
            a: 0,
            b: 0,
            c: 0,
            d: 0,
        },
        Some(spot) => key::key_at(neighbours::record_at(own, cache, spot), 0),
    }
}

// Where the closest of the candidates stands; where one is to be left out, of those that have not the key k.
fn spot_of(
    own: &[u8],
    cache: &[u8],
    used: usize,
    path: &[u8],
    target: Key,
    leave: bool,
    k: Key,
) -> Option<Spot>
    requires { (own_form own.now ≡ true) × Form (own_keys own.now) cache.now (rows 100 used cache.now) }
    ensures { result ≡ spot_for own.now cache.now used path.now (number target) leave (number k) }
{
    let ours = own.len() / record::RECORD_LEN;
    let i = row_of(own, ours, &path[0..0], target, leave, k);
    let j = row_of(cache, used, path, target, leave, k);
    if i == ours {
        if j == used {
            return None;
        }
        return Some(Spot::Held(j));
    }
    if j == used {
        return Some(Spot::Own(i));
    }
    let near = key::key_at(own, record::RECORD_LEN * i);
    let other = key::key_at(cache, record::RECORD_LEN * j);
    let far = ring::how_far(target, near);
    let away = ring::how_far(target, other);
    if ring::is_closer(target, other, away, near, far) {
        return Some(Spot::Held(j));
    }
    Some(Spot::Own(i))
}

// The record that is named, and why.
pub(crate) fn choose(own: &[u8], cache: &[u8], used: usize, path: &[u8], target: Key) -> Choice
    requires { (own_form own.now ≡ true) × Form (own_keys own.now) cache.now (rows 100 used cache.now) }
    ensures { result ≡ choice_for own.now cache.now used path.now (number target) }
{
    let chosen = spot_of(own, cache, used, path, target, false, target);
    let k = key_of(own, cache, chosen);
    let other = spot_of(own, cache, used, path, target, true, k);
    let next = key_of(own, cache, other);
    let reason = reason::reason_by(target, k, other.is_none(), next);
    Choice {
        chosen,
        reason,
        other,
    }
}
