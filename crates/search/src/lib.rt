// The search for a key among records whose keys rise, by halving; how many keys it compares is counted.
#![tactic(auto)]

ghost use Rattle.std.specs.Prelude.{◌≡◌, map, ◌+◌, ◌*◌, ◌≤◌, length};
ghost use Rattle.octet.specs.Number.{value_be};
ghost use Rattle.octet.specs.Part.{part};
ghost use Rattle.key.specs.Number.{key_at, order_of};
ghost use Rattle.record.specs.Record.{key_of};
ghost use Rattle.table.specs.Rows.{rows};
ghost use Rattle.kept.specs.Keys.{Rising, plain};
ghost use Rattle.search.specs.Sought.{sought_in};

use std::cmp::Ordering;

// The place of a key that is held, or that before which it would stand; how many keys it was compared with.
#[derive(Clone, Copy)]
pub struct Sought {
    pub found: Result<usize, usize>,
    pub compared: usize,
}

// How the key of place i stands to the key that begins the slice, and that with its first word. Mostly the words say it.
fn order_of(cache: &[u8], i: usize, key: &[u8], first: u64) -> Ordering
    requires i_in_bounds { 100 * i + 32 ≤ length cache.now }
    requires in_bounds { 32 ≤ length key.now }
    requires first_value { first ≡ value_be 256 (part 0 8 key.now) }
    ensures { result ≡ order_of (key_at (100 * i) cache.now) (key_at 0 key.now) }
{
    let at = record::RECORD_LEN * i;
    let word = octet::read_u64(cache, at);
    if word < first {
        return Ordering::Less;
    }
    if first < word {
        return Ordering::Greater;
    }
    key::order_at(cache, at, key, 0)
}

// Where the key, whose 32 bytes begin the slice, stands among the records held, or would: by halving. The places before
// `low` are below it and those from `high` on above. A comparison tells less, same or more, and counts as one.
pub fn find_key(cache: &[u8], used: usize, key: &[u8]) -> Sought
    requires used_in_bounds { 100 * used ≤ length cache.now }
    requires in_bounds { 32 ≤ length key.now }
    requires rising { Rising plain 0 (map key_of (rows 100 used cache.now)) }
    ensures { result ≡ sought_in (key_at 0 key.now) (map key_of (rows 100 used cache.now)) }
{
    let first = octet::read_u64(key, 0);
    let mut low = 0;
    let mut high = used;
    let mut compared = 0;
    while low < high {
        let middle = low + (high - low) / 2;
        compared += 1;
        match order_of(cache, middle, key, first) {
            Ordering::Less => {
                low = middle + 1;
            }
            Ordering::Equal => {
                return Sought {
                    found: Ok(middle),
                    compared,
                };
            }
            Ordering::Greater => {
                high = middle;
            }
        }
    }
    Sought {
        found: Err(low),
        compared,
    }
}
