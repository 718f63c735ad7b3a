// The old form of the cache: as that of today, of old records.
ghost use Rattle.std.specs.Prelude.{◌≡◌, ◌+◌, ◌*◌, ◌/◌, ◌≤◌, length};
ghost use Rattle.octet.specs.Part.{part};
ghost use Rattle.own.specs.Own.{own_keys};
ghost use Rattle.own.specs.Low.{low_at};
ghost use Rattle.table.specs.Rows.{rows};
ghost use Rattle.cache.specs.Form.{follows, leading};
ghost use Rattle.convert.specs.Old.{old_record_form};
ghost use Rattle.convert.specs.Formed.{old_cache_formed};

use crate::old::is_formed;

// Has place i an old record that may stand after those before it?
fn place_follows(own: &[u8], cache: &[u8], i: usize) -> bool
    requires { 100 * i + 100 ≤ length cache.now }
    ensures { result ≡ follows old_record_form (own_keys own.now) (low_at cache.now i)
        (part (100 * i) 100 cache.now) }
{
    let at = record::RECORD_LEN * i;
    if !is_formed(cache, at) {
        return false;
    }
    if !own::above_before(cache, i) {
        return false;
    }
    !own::is_own(own, cache, at)
}

// How many places, from the first, have old records in order.
fn count_held(own: &[u8], cache: &[u8]) -> usize
    ensures { result ≡ leading old_record_form (own_keys own.now) 0
        (rows 100 (length cache.now / 100) cache.now) }
{
    let n = cache.len() / record::RECORD_LEN;
    for i in 0..n {
        if !place_follows(own, cache, i) {
            return i;
        }
    }
    n
}

// How many records are held, where the cache is in the old form under our own keys. C is at least ten times their number.
pub(crate) fn form(own: &[u8], cache: &[u8]) -> Option<usize>
    ensures { result ≡ old_cache_formed (own_keys own.now) cache.now }
{
    let size = cache.len();
    if size % record::RECORD_LEN != 0 {
        return None;
    }
    if size < 1000 {
        return None;
    }
    if 25600 < size {
        return None;
    }
    if size / 1000 < own::count(own) {
        return None;
    }
    let used = count_held(own, cache);
    let end = record::RECORD_LEN * used;
    octet::is_zero(&cache[end..]).then_some(used)
}
