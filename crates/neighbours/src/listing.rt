// The neighbour list of an own key: up to five keys below it, then up to five above, nearest first.
ghost use Rattle.std.specs.Prelude.{◌≡◌, reverse, ◌+◌, ◌*◌, ◌≤◌, length, take};
ghost use Rattle.octet.specs.Part.{splice};
ghost use Rattle.key.specs.Number.{key_at};
ghost use Rattle.table.specs.Rows.{rows};
ghost use Rattle.kept.specs.Keys.{Every, Rising, plain};
ghost use Rattle.kept.specs.Turned.{NotKey, turned};
ghost use Rattle.cache.specs.Form.{keys_of};
ghost use Rattle.neighbours.specs.Listing.{key_bytes, after_list, counts_of};
ghost use Rattle.neighbours.specs.Calls.{list_written, list_call};

// How many keys of each side are listed.
#[derive(Clone, Copy)]
pub struct Counts {
    pub below: usize,
    pub above: usize,
}

// Writes the keys of the n places before a place, counted round, to the output's start, the last first.
fn keys_down(cache: &[u8], used: usize, from: usize, n: usize, out: &mut [u8])
    requires { (100 * used ≤ length cache.now) × (from ≤ used) × (n ≤ used) × (32 * n ≤ length out.old) }
    ensures { out.new ≡ splice 0
        (key_bytes (take n (reverse (turned from (keys_of (rows 100 used cache.now)))))) out.old }
{
    for i in 0..n {
        let start = record::RECORD_LEN * round::wrap(used, from + (used - (i + 1)));
        runs::copy_block::<32>(out, 32 * i, cache, start);
    }
}

// Writes the keys of n places, from one up and counted round, to the output from an index on.
fn keys_up(cache: &[u8], used: usize, from: usize, n: usize, out: &mut [u8], at: usize)
    requires { (100 * used ≤ length cache.now) × (from ≤ used) × (n ≤ used) × (at + 32 * n ≤ length out.old) }
    ensures { out.new ≡ splice at
        (key_bytes (take n (turned from (keys_of (rows 100 used cache.now))))) out.old }
{
    for i in 0..n {
        let start = record::RECORD_LEN * round::wrap(used, from + i);
        runs::copy_block::<32>(out, at + 32 * i, cache, start);
    }
}

// The neighbour list of a key that is not held, whose 32 bytes begin the slice, is written to the output's start. `used`
// records are held.
pub fn neighbours(key: &[u8], cache: &[u8], used: usize, out: &mut [u8]) -> Counts
    requires in_bounds { (32 ≤ length key.now) × (320 ≤ length out.old) × (100 * used ≤ length cache.now) }
    requires rising { Rising plain 0 (keys_of (rows 100 used cache.now)) }
    requires every { Every (NotKey (key_at 0 key.now)) (keys_of (rows 100 used cache.now)) }
    ensures value { result ≡ counts_of (key_at 0 key.now) (rows 100 used cache.now) }
    ensures out_after { out.new
        ≡ after_list (key_at 0 key.now) (rows 100 used cache.now) out.old }
{
    let first = sides::count_under(key, cache, used);
    let under = sides::count_below(key, cache, used, first);
    let below = usize::min(5, under);
    let above = usize::min(5, used - under);
    keys_down(cache, used, first, below, out);
    keys_up(cache, used, first, above, out, 32 * below);
    Counts { below, above }
}

// The same for one of our own keys, on memory that nobody has tested. Refused with 1, 12 or 15, it changes
// nothing.
pub fn neighbour_list(own: &[u8], cache: &[u8], key: &[u8], out: &mut [u8]) -> Result<Counts, u32>
    ensures { list_written result out.new
        ≡ list_call own.now cache.now key.now out.old }
{
    let Some(used) = cache::memory(own, cache) else {
        return Err(refusal::MEMORY);
    };
    if key.len() != 32 {
        return Err(refusal::MEMORY);
    }
    if !own::is_own(own, key, 0) {
        return Err(refusal::NOT_OURS);
    }
    if out.len() < 320 {
        return Err(refusal::ROOM);
    }
    Ok(neighbours(key, cache, used, out))
}
