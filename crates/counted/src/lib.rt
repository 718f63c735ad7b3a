// Learning and removing with the counts by first byte following: what stands beside the cache is changed with it.
#![tactic(auto)]

ghost use Rattle.std.specs.Prelude.{◌≡◌, true, ◌≤◌, length};
ghost use Rattle.key.specs.Number.{key_at};
ghost use Rattle.record.specs.Record.{key_of, record_form};
ghost use Rattle.own.specs.Own.{own_form, own_keys};
ghost use Rattle.table.specs.Rows.{rows, bytes_of};
ghost use Rattle.kept.specs.Plain.{NotOwn};
ghost use Rattle.cache.specs.Form.{keys_of, Form};
ghost use Rattle.cache.specs.Bytes.{after_learn, after_remove};
ghost use Rattle.firsts.specs.Firsts.{firsts_of};

// The record is learned, as document 01 has it under "Learning", and the counts follow: up first, so that none falls below
// zero where the newcomer and the key dropped begin with one byte. `used` records are held.
pub fn learn(own: &[u8], cache: &mut [u8], firsts: &mut [u8], used: usize, record: &[u8])
    requires own_value { (own_form own.now ≡ true) × (record_form «record».now ≡ true) }
    requires form { Form (own_keys own.now) cache.old (rows 100 used cache.old) }
    requires not_own { NotOwn (own_keys own.now) (key_of «record».now) }
    requires firsts_value { firsts.old ≡ firsts_of (keys_of (rows 100 used cache.old)) }
    ensures cache_after { cache.new ≡ bytes_of (length cache.old)
        (after_learn (own_keys own.now) (length cache.old)
        (rows 100 used cache.old) «record».now) }
    ensures firsts_after { firsts.new ≡ firsts_of (keys_of
        (after_learn (own_keys own.now) (length cache.old)
        (rows 100 used cache.old) «record».now)) }
{
    let change = cache::learn(own, cache, used, record);
    if !change.joined {
        return;
    }
    firsts::count_up(firsts, record[0]);
    if !change.left {
        return;
    }
    firsts::count_down(firsts, firsts::first_byte(change.gone));
}

// The key, whose 32 bytes begin the slice, is removed if held, and the counts follow.
pub fn remove(own: &[u8], cache: &mut [u8], firsts: &mut [u8], used: usize, key: &[u8])
    requires in_bounds { 32 ≤ length key.now }
    requires form { Form (own_keys own.now) cache.old (rows 100 used cache.old) }
    requires firsts_value { firsts.old ≡ firsts_of (keys_of (rows 100 used cache.old)) }
    ensures cache_after { cache.new ≡ bytes_of (length cache.old)
        (after_remove (key_at 0 key.now) (rows 100 used cache.old)) }
    ensures firsts_after { firsts.new ≡ firsts_of (keys_of
        (after_remove (key_at 0 key.now) (rows 100 used cache.old))) }
{
    let change = cache::remove(own, cache, used, key);
    if !change.left {
        return;
    }
    firsts::count_down(firsts, key[0]);
}
