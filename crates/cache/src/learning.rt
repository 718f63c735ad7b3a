// Learning a record, and removing a key, in a cache that is in form.
ghost use Rattle.std.specs.Prelude.{◌≡◌, true, false, ◌≤◌, length};
ghost use Rattle.key.specs.Number.{number, key_at};
ghost use Rattle.record.specs.Record.{key_of, record_form};
ghost use Rattle.own.specs.Own.{own_form, own_keys};
ghost use Rattle.table.specs.Rows.{rows, bytes_of};
ghost use Rattle.kept.specs.Plain.{NotOwn};
ghost use Rattle.cache.specs.Form.{keys_of, Form};
ghost use Rattle.cache.specs.Place.{find_key};
ghost use Rattle.cache.specs.Bytes.{after_learn, after_remove};
ghost use Rattle.cache.specs.Change.{changes, changes_of, learned, removed};

use crate::place::find;
use key::Key;

// What a change did to the keys held: did one join them, did one leave, and which? The key is 0 where none left.
#[derive(Clone, Copy)]
pub struct Change {
    pub joined: bool,
    pub left: bool,
    pub gone: Key,
}

// The key that stands for none.
fn no_key() -> Key
    ensures { number result ≡ 0 }
{
    Key {
        a: 0,
        b: 0,
        c: 0,
        d: 0,
    }
}

// No key joined, and none left.
fn unmoved() -> Change
    ensures { changes_of result ≡ changes false false 0 }
{
    Change {
        joined: false,
        left: false,
        gone: no_key(),
    }
}

// A record whose key is not held is learned; it would stand before a place. Where all places are used, one goes, or the
// newcomer itself.
fn learn_new(own: &[u8], cache: &mut [u8], used: usize, at: usize, record: &[u8]) -> Change
    requires own_value { (own_form own.now ≡ true) × (record_form «record».now ≡ true) }
    requires form { Form (own_keys own.now) cache.old (rows 100 used cache.old) }
    requires not_own { NotOwn (own_keys own.now) (key_of «record».now) }
    requires cache_value { find_key (key_of «record».now) (keys_of (rows 100 used cache.old)) ≡ Err at }
    ensures cache_after { cache.new ≡ bytes_of (length cache.old)
        (after_learn (own_keys own.now) (length cache.old)
        (rows 100 used cache.old) «record».now) }
    ensures result_value { changes_of result ≡ learned (own_keys own.now) (length cache.old)
        (rows 100 used cache.old) «record».now }
{
    if record::RECORD_LEN * used < cache.len() {
        table::insert_row(cache, record::RECORD_LEN, used, at, record);
        return Change {
            joined: true,
            left: false,
            gone: no_key(),
        };
    }
    let goes = going::who_goes(own, cache, used, at, record);
    if goes < at {
        let gone = key::key_at(cache, record::RECORD_LEN * goes);
        table::exchange_up(cache, used, goes, at - 1, record);
        return Change {
            joined: true,
            left: true,
            gone,
        };
    }
    if at < goes {
        let gone = key::key_at(cache, record::RECORD_LEN * (goes - 1));
        table::exchange_down(cache, used, goes - 1, at, record);
        return Change {
            joined: true,
            left: true,
            gone,
        };
    }
    unmoved()
}

// The record is learned, as document 01 has it under "Learning". `used` records are held.
pub fn learn(own: &[u8], cache: &mut [u8], used: usize, record: &[u8]) -> Change
    requires own_value { (own_form own.now ≡ true) × (record_form «record».now ≡ true) }
    requires form { Form (own_keys own.now) cache.old (rows 100 used cache.old) }
    requires not_own { NotOwn (own_keys own.now) (key_of «record».now) }
    ensures cache_after { cache.new ≡ bytes_of (length cache.old)
        (after_learn (own_keys own.now) (length cache.old)
        (rows 100 used cache.old) «record».now) }
    ensures result_value { changes_of result ≡ learned (own_keys own.now) (length cache.old)
        (rows 100 used cache.old) «record».now }
{
    match find(cache, used, record) {
        Ok(i) => {
            table::replace_row(cache, record::RECORD_LEN, used, i, record);
            unmoved()
        }
        Err(i) => learn_new(own, cache, used, i, record),
    }
}

// The key, whose 32 bytes begin the slice, is removed if held.
pub fn remove(own: &[u8], cache: &mut [u8], used: usize, key: &[u8]) -> Change
    requires in_bounds { 32 ≤ length key.now }
    requires form { Form (own_keys own.now) cache.old (rows 100 used cache.old) }
    ensures cache_after { cache.new ≡ bytes_of (length cache.old)
        (after_remove (key_at 0 key.now) (rows 100 used cache.old)) }
    ensures result_value { changes_of result ≡ removed (key_at 0 key.now) (rows 100 used cache.old) }
{
    let Ok(i) = find(cache, used, key) else {
        return unmoved();
    };
    table::remove_row(cache, record::RECORD_LEN, used, i);
    Change {
        joined: false,
        left: true,
        gone: key::key_at(key, 0),
    }
}
