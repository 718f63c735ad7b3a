// The form of the cache: used records first, keys strictly increasing, none an own key; the rest all zero.
ghost use Rattle.std.specs.Prelude.{◌≡◌, ◌+◌, ◌-◌, ◌*◌, ◌/◌, ◌%◌, ◌≤◌, ◌<◌, leb, ltb, length, drop};
ghost use Rattle.octet.specs.Number.{value_be};
ghost use Rattle.octet.specs.Part.{part, all_zero};
ghost use Rattle.key.specs.Number.{key_at};
ghost use Rattle.own.specs.Own.{own_keys};
ghost use Rattle.own.specs.Low.{low_at};
ghost use Rattle.table.specs.Rows.{rows};
ghost use Rattle.kept.specs.Keys.{Rising, plain};
ghost use Rattle.cache.specs.Form.{keys_of};
ghost use Rattle.cache.specs.Place.{cache_formed, rises, ordered, any_own, Carried};

// Is the key at place i above the one before it, which begins with the same word? The other words say it.
fn rest_above(cache: &[u8], i: usize) -> bool
    requires i_nonzero { (0 < i) × (100 * i + 100 ≤ length cache.now) }
    requires cache_value { value_be 256 (part (100 * (i - 1)) 8 cache.now) ≡ value_be 256 (part (100 * i) 8 cache.now) }
    ensures { result ≡ ltb (key_at (100 * (i - 1)) cache.now) (key_at (100 * i) cache.now) }
{
    let before = record::RECORD_LEN * (i - 1);
    let at = record::RECORD_LEN * i;
    for word in 1..4 {
        let x = octet::read_u64(cache, before + 8 * word);
        let y = octet::read_u64(cache, at + 8 * word);
        if x != y {
            return x < y;
        }
    }
    false
}

// Is the key of the place that begins at a byte, which begins with a word, above the one before it, which began with the
// last? Mostly the words say it.
fn above_before(cache: &[u8], at: usize, word: u64, last: u64) -> bool
    requires at_in_bounds { (at + 100 ≤ length cache.now) × (at % 100 ≡ 0) }
    requires word_value { word ≡ value_be 256 (part (100 * (at / 100)) 8 cache.now) }
    requires carried { Carried cache.now (at / 100) last }
    ensures { result ≡ leb (low_at cache.now (at / 100)) (key_at (100 * (at / 100)) cache.now) }
{
    if last < word {
        return true;
    }
    if at == 0 {
        return true;
    }
    if word < last {
        return false;
    }
    rest_above(cache, at / record::RECORD_LEN)
}

// Has the place that begins at a byte a record that stands in order after those before it? The key before it began with the
// last word.
fn place_follows(cache: &[u8], at: usize, last: u64) -> bool
    requires at_in_bounds { (at + 100 ≤ length cache.now) × (at % 100 ≡ 0) }
    requires carried { Carried cache.now (at / 100) last }
    ensures { result ≡ rises (low_at cache.now (at / 100)) (part (100 * (at / 100)) 100 cache.now) }
{
    if !record::is_formed(cache, at) {
        return false;
    }
    let word = octet::read_u64(cache, at);
    above_before(cache, at, word, last)
}

// How many places, from the first, have records in order. The first word of each key is carried to the next place. Bytes
// are counted and not places, so that one number counts and points.
fn count_held(cache: &[u8]) -> usize
    ensures { result ≡ ordered 0 (rows 100 (length cache.now / 100) cache.now) }
{
    let end = cache.len() / record::RECORD_LEN * record::RECORD_LEN;
    let mut last = 0;
    let mut at = 0;
    while at < end {
        if !place_follows(cache, at, last) {
            return at / record::RECORD_LEN;
        }
        last = octet::read_u64(cache, at);
        at += record::RECORD_LEN;
    }
    at / record::RECORD_LEN
}

// Is one of our own keys among those held? Each is looked for once they are known to be in order, and not compared with
// each.
fn holds_own(own: &[u8], cache: &[u8], used: usize) -> bool
    requires used_in_bounds { 100 * used ≤ length cache.now }
    requires rising { Rising plain 0 (keys_of (rows 100 used cache.now)) }
    ensures { result ≡ any_own (own_keys own.now) (keys_of (rows 100 used cache.now)) }
{
    let n = own.len() / record::RECORD_LEN;
    for i in 0..n {
        let at = record::RECORD_LEN * i;
        let sought = search::find_key(cache, used, &own[at..at + record::RECORD_LEN]);
        if sought.found.is_ok() {
            return true;
        }
    }
    false
}

// Is each byte from a place on zero? Behind the records of a full cache there is none.
fn rest_clear(cache: &[u8], end: usize) -> bool
    requires { end ≤ length cache.now }
    ensures { result ≡ all_zero (drop end cache.now) }
{
    if end == cache.len() {
        return true;
    }
    octet::is_zero(&cache[end..])
}

// How many records are held, where the cache is in form under our own keys. C is at least ten times their number.
pub fn form(own: &[u8], cache: &[u8]) -> Option<usize>
    ensures { result ≡ cache_formed (own_keys own.now) cache.now }
{
    let size = cache.len();
    if size % record::RECORD_LEN != 0 {
        return None;
    }
    if size < 1000 {
        return None;
    }
    if 25600 < size {
        return None;
    }
    if size / 1000 < own::count(own) {
        return None;
    }
    let used = count_held(cache);
    let end = record::RECORD_LEN * used;
    if !rest_clear(cache, end) {
        return None;
    }
    if holds_own(own, cache, used) {
        return None;
    }
    Some(used)
}
