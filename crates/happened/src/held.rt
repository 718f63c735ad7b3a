// What is held: the keys that have joined and left, how many are held now, and the sides of the neighbour list that have changed.
use crate::known::Known;
use facts::{Fact, Tell};
use std::io;

// How many are held: a call leaves the cache in form.
fn count(own: &[u8], cache: &[u8]) -> usize {
    cache::memory(own, cache).unwrap_or(0)
}

// Is it a record in use whose key another cache does not hold?
fn is_held_alone(own: &[u8], record: &[u8; 100], other: &[u8]) -> bool {
    record[34] != 0 && cache::search_key(own, other, &record[..32]).place == 0
}

// The neighbours below and above.
#[derive(Drop)]
struct Sides {
    list: [u8; 320],
    below: usize,
    above: usize,
}

impl Sides {
    fn of(own: &[u8], cache: &[u8]) -> Sides {
        let mut list = [0; 320];
        let key = own.get(..32).unwrap_or(&[]);
        let (below, above) = match neighbours::neighbour_list(own, cache, key, &mut list) {
            Ok(counts) => (counts.below, counts.above),
            Err(_) => (0, 0),
        };
        Sides { list, below, above }
    }

    fn below(&self) -> &[[u8; 32]] {
        let (keys, _) = self.list.as_chunks::<32>();
        keys.get(..self.below).unwrap_or(&[])
    }

    fn above(&self) -> &[[u8; 32]] {
        let (keys, _) = self.list.as_chunks::<32>();
        let behind = keys.get(self.below..).unwrap_or(&[]);
        behind.get(..self.above).unwrap_or(&[])
    }
}

// Each side that was another before.
fn say_sides<T: Tell>(to: &mut T, known: &Known<'_>) -> io::Result<()> {
    let old = Sides::of(known.own, known.before.cache);
    let new = Sides::of(known.own, known.now.cache);
    if old.below() != new.below() {
        to.tell(Fact::Below(new.below()))?;
    }
    if old.above() != new.above() {
        to.tell(Fact::Above(new.above()))?;
    }
    Ok(())
}

// What a call has changed of the cache. A record may be another, and its key stay.
pub(crate) fn say_changes<T: Tell>(to: &mut T, known: &Known<'_>) -> io::Result<()> {
    let own = known.own;
    let before = known.before.cache;
    let now = known.now.cache;
    if before == now {
        return Ok(());
    }
    let mut some = false;
    for record in now.as_chunks::<100>().0 {
        if is_held_alone(own, record, before) {
            to.tell(Fact::Joined(&record[..32]))?;
            some = true;
        }
    }
    for record in before.as_chunks::<100>().0 {
        if is_held_alone(own, record, now) {
            to.tell(Fact::Left(&record[..32]))?;
            some = true;
        }
    }
    if some {
        to.tell(Fact::Held(count(own, now)))?;
    }
    say_sides(to, known)
}
