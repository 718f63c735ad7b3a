// Inner functions as C can call them, so that tests run them, look at the code that the compiler makes of them and count
// its instructions. No part of the gauge.
#![tactic(auto)]

ghost use Rattle.std.specs.Prelude.{◌≡◌};
ghost use Rattle.octet.specs.Part.{same, all_zero};
ghost use Rattle.leaves.specs.Leaves.{word_or0, closer_or2, held_or257, closest_word};

use neighbours::Spot;

// The number of the eight bytes at a place, most significant first; 0 where they do not lie within.
#[unsafe(no_mangle)]
pub extern "C" fn leaves_u64(s: &[u8], at: usize) -> u64
    ensures { result ≡ word_or0 at s.now }
{
    if s.len() < 8 {
        return 0;
    }
    if s.len() - 8 < at {
        return 0;
    }
    octet::read_u64(s, at)
}

// Have the two slices the same bytes?
#[unsafe(no_mangle)]
pub extern "C" fn leaves_equal(a: &[u8], b: &[u8]) -> bool
    ensures { result ≡ same a.now b.now }
{
    octet::equal(a, b)
}

// Is each byte zero?
#[unsafe(no_mangle)]
pub extern "C" fn leaves_zero(s: &[u8]) -> bool
    ensures { result ≡ all_zero s.now }
{
    octet::is_zero(s)
}

// Is the key k taken before the key j as the closest to the target? 1 or 0; 2 where one of them has not 32 bytes.
#[unsafe(no_mangle)]
pub extern "C" fn leaves_closer(target: &[u8], k: &[u8], j: &[u8]) -> u8
    ensures { result ≡ closer_or2 target.now k.now j.now }
{
    if target.len() != 32 {
        return 2;
    }
    if k.len() != 32 {
        return 2;
    }
    if j.len() != 32 {
        return 2;
    }
    let t = key::key_at(target, 0);
    let x = key::key_at(k, 0);
    let y = key::key_at(j, 0);
    let d = ring::how_far(t, x);
    let e = ring::how_far(t, y);
    if ring::is_closer(t, x, d, y, e) { 1 } else { 0 }
}

// How many records a cache holds; 257 where it is not in form, or the own slice is too short for a key.
#[unsafe(no_mangle)]
pub extern "C" fn leaves_form(own: &[u8], cache: &[u8]) -> usize
    ensures { result ≡ held_or257 own.now cache.now }
{
    if own.len() < 32 {
        return 257;
    }
    if let Some(used) = cache::form(own, cache) {
        return used;
    }
    257
}

// The last eight bytes of the key of the record closest to a target, among our own and those of the cache, with no path; 0
// where memory is not in form or the target has not 32 bytes. The form is tested first: what closest alone executes is the
// difference.
#[unsafe(no_mangle)]
pub extern "C" fn leaves_closest(own: &[u8], cache: &[u8], target: &[u8]) -> u64
    ensures { result ≡ closest_word own.now cache.now target.now }
{
    let sighted = neighbours::closest_record(own, cache, &target[0..0], target);
    match sighted.nearest {
        Err(_) => 0,
        Ok(Spot::Own(i)) => {
            let at = 100 * i;
            leaves_u64(&own[at..at + 100], 24)
        }
        Ok(Spot::Held(i)) => {
            let at = 100 * i;
            leaves_u64(&cache[at..at + 100], 24)
        }
    }
}
