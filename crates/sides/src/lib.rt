// How many of the keys of records, which rise, are smaller numbers than a key, and how many are below it round the ring.
#![tactic(auto)]

ghost use Rattle.std.specs.Prelude.{◌≡◌, map, ℕ, ◌*◌, ◌≤◌, length};
ghost use Rattle.key.specs.Number.{key_at};
ghost use Rattle.record.specs.Record.{key_of};
ghost use Rattle.table.specs.Rows.{rows};
ghost use Rattle.kept.specs.Keys.{Every, Rising, plain};
ghost use Rattle.kept.specs.Plain.{count_below};
ghost use Rattle.kept.specs.Turned.{count_under, count_upto};

// How many of the keys held are smaller numbers than our own: so many places stand before the first that is above it.
pub fn count_under(own: &[u8], cache: &[u8], used: usize) -> usize
    requires in_bounds { 32 ≤ length own.now }
    requires used_in_bounds { 100 * used ≤ length cache.now }
    requires rising { Rising plain 0 (map key_of (rows 100 used cache.now)) }
    ensures { result ≡ count_under (key_of own.now) (map key_of (rows 100 used cache.now)) }
{
    match search::find_key(cache, used, own).found {
        Ok(under) | Err(under) => under,
    }
}

// How many of the keys held are at most the key, whose 32 bytes begin the slice.
fn count_upto(cache: &[u8], used: usize, key: &[u8]) -> usize
    requires used_in_bounds { 100 * used ≤ length cache.now }
    requires in_bounds { 32 ≤ length key.now }
    requires rising { Rising plain 0 (map key_of (rows 100 used cache.now)) }
    ensures { result ≡ count_upto (key_at 0 key.now) (map key_of (rows 100 used cache.now)) }
{
    match search::find_key(cache, used, key).found {
        Ok(under) => under + 1,
        Err(under) => under,
    }
}

// How many of the keys held are below our own, round the ring; `first` of them are smaller numbers. Those above our own
// end at the point opposite: a place from `first` on, or one before it where our own key is in the ring's upper half.
pub fn count_below(own: &[u8], cache: &[u8], used: usize, first: usize) -> usize
    requires in_bounds { (32 ≤ length own.now) × (100 * used ≤ length cache.now) }
    requires rising { Rising plain 0 (map key_of (rows 100 used cache.now)) }
    requires every { Every (λ (k : ℕ). ¬ (k ≡ key_of own.now)) (map key_of (rows 100 used cache.now)) }
    requires first_value { first ≡ count_under (key_of own.now) (map key_of (rows 100 used cache.now)) }
    ensures { result ≡ count_below (key_of own.now) (map key_of (rows 100 used cache.now)) }
{
    let opposite = ring::opposite(own);
    if own[0] < 128 {
        let start = record::RECORD_LEN * first;
        return used - count_upto(&cache[start..], used - first, &opposite);
    }
    first - count_upto(cache, first, &opposite)
}
