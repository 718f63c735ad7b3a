// The record that is named to a LOOKUP, and why.
ghost use Rattle.named.specs.Spots.{Placed};

use crate::known::{Known, key_at};
use facts::{Because, Fact, Tell};
use key::Key;
use named::Choice;
use reason::Reason;
use std::io;

// How far a record is from the target.
fn far(target: Key, record: &[u8]) -> Key {
    if record.len() < 32 {
        return target;
    }
    ring::how_far(target, key::key_at(record, 0))
}

// The reason, and the other candidate where one goes with it.
fn because(reason: Reason, other: &[u8], target: Key) -> Because<'_> {
    let key = key_at(other, 0);
    match reason {
        Reason::Only => Because::Only,
        Reason::Target => Because::Target,
        Reason::Tied => Because::Tied(key, far(target, other)),
        Reason::Nearest => Because::Nearest(key, far(target, other)),
    }
}

fn say_named<T: Tell>(
    to: &mut T,
    record: &[u8],
    target: Key,
    because: Because<'_>,
) -> io::Result<()> {
    if record.len() != 100 {
        return Ok(());
    }
    to.tell(Fact::Named {
        key: key_at(record, 0),
        port: octet::read_u16(record, 32),
        address: &record[36..52],
        far: far(target, record),
        because,
    })
}

fn say_choice<'a, T: Tell>(
    to: &mut T,
    own: &'a [u8],
    cache: &'a [u8],
    choice: Choice,
    target: Key,
) -> io::Result<()>
    requires { Placed own.now cache.now choice }
{
    let record = named::record_at(own, cache, choice.chosen);
    let other = named::record_at(own, cache, choice.other);
    say_named(to, record, target, because(choice.reason, other, target))
}

// A LOOKUP that was accepted. The cache stays as it was.
pub(crate) fn say<T: Tell>(to: &mut T, known: &Known<'_>) -> io::Result<()> {
    let datagram = known.datagram();
    let target = key_at(datagram, known.look.target as usize);
    if target.len() != 32 {
        return Ok(());
    }
    let target = key::key_at(target, 0);
    let own = known.own;
    let cache = known.before.cache;
    match named::name(own, cache, known.major, datagram) {
        Err(_) => Ok(()),
        Ok(choice) => say_choice(to, own, cache, choice, target),
    }
}
