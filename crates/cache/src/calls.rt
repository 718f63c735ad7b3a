// Calls on memory that nobody has tested: refused with the number of document 01, nothing changed, or done.
ghost use Rattle.std.specs.Prelude.{◌≡◌, cond};
ghost use Rattle.own.specs.Own.{own_form, own_keys};
ghost use Rattle.cache.specs.Place.{cache_formed};
ghost use Rattle.cache.specs.Calls.{cache_changed, learn_call, remove_call};
ghost use Rattle.cache.specs.Searching.{search_call};

use crate::learning::{learn, remove};
use crate::shape::form;

// The number that a search is answered with; 0 where the key is not held, else one more than its place; how many keys were
// compared.
#[derive(Clone, Copy)]
pub struct Searched {
    pub number: u32,
    pub place: usize,
    pub compared: usize,
}

// How many records are held, where our own records and the cache are in form.
pub fn memory(own: &[u8], cache: &[u8]) -> Option<usize>
    ensures { result
        ≡ cond (own_form own.now) (cache_formed (own_keys own.now) cache.now) None }
{
    if !own::own_form(own) {
        return None;
    }
    form(own, cache)
}

// A record is learned; refused with 1, nothing changes.
pub fn learn_record(own: &[u8], cache: &mut [u8], record: &[u8]) -> Result<(), u32>
    ensures { cache_changed result cache.new
        ≡ learn_call own.now cache.old «record».now }
{
    let Some(used) = memory(own, cache) else {
        return Err(refusal::MEMORY);
    };
    if !record::is_record(record) {
        return Err(refusal::MEMORY);
    }
    if own::is_own(own, record, 0) {
        return Err(refusal::MEMORY);
    }
    learn(own, cache, used, record);
    Ok(())
}

// A key is removed if held; refused with 1, nothing changes.
pub fn remove_key(own: &[u8], cache: &mut [u8], key: &[u8]) -> Result<(), u32>
    ensures { cache_changed result cache.new
        ≡ remove_call own.now cache.old key.now }
{
    let Some(used) = memory(own, cache) else {
        return Err(refusal::MEMORY);
    };
    if key.len() != 32 {
        return Err(refusal::MEMORY);
    }
    remove(own, cache, used, key);
    Ok(())
}

// A key is searched for. Gives 0 or 1, whether it is held and where, and how many keys were compared.
pub fn search_key(own: &[u8], cache: &[u8], key: &[u8]) -> Searched
    ensures { result ≡ search_call own.now cache.now key.now }
{
    let Some(used) = memory(own, cache) else {
        return Searched {
            number: refusal::MEMORY,
            place: 0,
            compared: 0,
        };
    };
    if key.len() != 32 {
        return Searched {
            number: refusal::MEMORY,
            place: 0,
            compared: 0,
        };
    }
    let sought = search::find_key(cache, used, key);
    let place = match sought.found {
        Ok(at) => at + 1,
        Err(_) => 0,
    };
    Searched {
        number: 0,
        place,
        compared: sought.compared,
    }
}
