// Keys go round: how they stand around our own and how close they are to a target, by specs/Around.antt of the crate key.
// What a change of that order changes is here.
#![tactic(auto)]

ghost use Rattle.std.specs.Prelude.{◌≡◌, cond, ◌&&◌, ◌+◌, ◌-◌, ◌≤◌, leb, ltb, length};
ghost use Rattle.key.specs.Number.{number, key_at};
ghost use Rattle.key.specs.Around.{half, is_above, apart, tie, closer};
ghost use Rattle.key.specs.Across.{across};

use key::Key;

// Is the key at a place of a slice above our own, whose 32 bytes begin the other slice?
pub fn is_above(own: &[u8], s: &[u8], at: usize) -> bool
    requires in_bounds { 32 ≤ length own.now }
    requires at_in_bounds { at + 32 ≤ length s.now }
    ensures { result ≡ is_above (key_at 0 own.now) (key_at at s.now) }
{
    let up = key::minus(key::key_at(s, at), key::key_at(own, 0));
    is_up(up)
}

// Half the ring.
const HALF_ROUND: Key = Key {
    a: 9223372036854775808,
    b: 0,
    c: 0,
    d: 0,
};

// Are so many steps from 1 to half the ring?
fn is_up(up: Key) -> bool
    ensures { result ≡ (leb 1 (number up) && leb (number up) half) }
{
    if key::is_less(HALF_ROUND, up) {
        return false;
    }
    key::is_less(Key::ZERO, up)
}

// How far two keys are apart: the shorter way round. The first word of the steps up says whether they are less than
// half the ring; else it is the steps on from there to the end of the round.
pub fn how_far(x: Key, y: Key) -> Key
    ensures { number result ≡ apart (number x) (number y) }
{
    let up = key::minus(y, x);
    if up.a < 9223372036854775808 {
        return up;
    }
    key::minus(Key::ZERO, up)
}

// Is the key k, d from the target, taken before the key j, e from it, as the closest? A search carries d and e along.
pub fn is_closer(target: Key, k: Key, d: Key, j: Key, e: Key) -> bool
    requires d_value { number d ≡ apart (number target) (number k) }
    requires e_value { number e ≡ apart (number target) (number j) }
    ensures { result ≡ closer (number target) (number k) (number j) }
{
    if key::is_less(d, e) {
        return true;
    }
    if key::is_less(e, d) {
        return false;
    }
    wins_tie(target, k, j)
}

// Of two keys equally far from the target, is k the one that is taken? If they are two, one is reached by going down and one
// by going up: k by going down where the steps down are less than half the ring.
fn wins_tie(target: Key, k: Key, j: Key) -> bool
    requires { apart (number target) (number k) ≡ apart (number target) (number j) }
    ensures { result ≡ tie (number target) (number k) (number j) }
{
    if key::is_same(k, j) {
        return false;
    }
    let down = key::minus(target, k);
    down.a < 9223372036854775808
}

// A byte with its top bit flipped.
fn flip(byte: u8) -> u8
    ensures { result ≡ cond (ltb byte 128) (byte + 128) (byte - 128) }
{
    if byte < 128 {
        return byte + 128;
    }
    byte - 128
}

// The bytes of the key opposite one, whose 32 bytes begin the slice: half the ring on, its top bit flipped.
pub fn opposite(key: &[u8]) -> [u8; 32]
    requires { 32 ≤ length key.now }
    ensures { key_at 0 result ≡ across (key_at 0 key.now) }
{
    let mut bytes = [0u8; 32];
    runs::copy_to(&mut bytes, 1, &key[1..32]);
    bytes[0] = flip(key[0]);
    bytes
}
