// The record itself: what it was, its row of the second file, and what its message says.
use crate::known::{Known, datagram, key_at};
use facts::{Call, Fact, Message, Row, Tell, Way};
use look::Look;
use std::io;

// Of a record that can't be used the kind is 0.
pub(crate) fn call_of<'a>(kind: u8, known: &Known<'a>) -> Call<'a> {
    match kind {
        1 => received(known.record, known.look),
        2 => sending(known.record),
        3 => Call::Tick,
        _ => Call::Bad,
    }
}

fn received(record: &[u8], look: Look) -> Call<'_> {
    let message = if look.number == 7 {
        Message::Part
    } else {
        Message::from(look.kind)
    };
    Call::Received {
        message,
        id: look.id,
        bytes: datagram(record).len(),
    }
}

// Message ID, neighbour's key, record's key.
fn sending(record: &[u8]) -> Call<'_> {
    if record.len() != 72 {
        return Call::Bad;
    }
    Call::Sending {
        id: octet::read_u32_le(record, 4),
        neighbour: &record[8..40],
        key: &record[40..72],
    }
}

// Whether the endpoint of a row is told, and is where a record came from, or went to.
pub(crate) fn way_of(kind: u8, row: Row) -> Way {
    match kind {
        _ if octet::is_zero(&row.endpoint) => Way::Unknown,
        1 => Way::From,
        2 => Way::To,
        _ => Way::Unknown,
    }
}

// A FLOOD without a route entry revokes the key that the verdict names. A verdict that is not good names none.
fn is_revoking(record: &[u8], look: Look) -> bool {
    look.kind == 4 && look.entry == 0 && record.get(8) == Some(&1)
}

// What the message of a record says: its keys, and the message that an ADVERTISE, AUTHORITY or ACK answers.
pub(crate) fn say<T: Tell>(to: &mut T, known: &Known<'_>) -> io::Result<()> {
    let look = known.look;
    let datagram = known.datagram();
    if look.entry != 0 {
        to.tell(Fact::About(key_at(datagram, look.entry as usize)))?;
    }
    if look.target != 0 {
        to.tell(Fact::For(key_at(datagram, look.target as usize)))?;
    }
    if is_revoking(known.record, look) {
        to.tell(Fact::Revoking(key_at(known.record, 9)))?;
    }
    match look.kind {
        2 | 8 | 9 => to.tell(Fact::Answers(look.acked)),
        _ => Ok(()),
    }
}
