// What waits: places of 140 bytes. What a call has changed is seen from the table before it and the one behind it.
use crate::known::Known;
use facts::{Fact, Message, Tell, Waiting};
use std::io;

// The message that waits at a place: a FLOOD or an INQUIRE, its ID and key.
#[derive(Clone, Copy)]
pub(crate) struct Awaited<'a> {
    message: Message,
    id: u32,
    pub(crate) key: &'a [u8],
}

impl<'a> Awaited<'a> {
    // Of a place that is used.
    fn at(place: &'a [u8; 140]) -> Option<Awaited<'a>> {
        let message = match place[4] {
            0 => return None,
            1 => Message::Flood,
            _ => Message::Inquire,
        };
        Some(Awaited {
            message,
            id: octet::read_u32_le(place, 0),
            key: &place[8..40],
        })
    }
}

// What waits under an ID.
pub(crate) fn find(waiting: &[u8], id: u32) -> Option<Awaited<'_>> {
    let (places, _) = waiting.as_chunks::<140>();
    for there in places.iter().filter_map(Awaited::at) {
        if there.id == id {
            return Some(there);
        }
    }
    None
}

// What waited before the call and still does, or does no longer, as is asked.
pub(crate) fn say<T: Tell>(
    to: &mut T,
    known: &Known<'_>,
    what: Waiting,
    still: bool,
) -> io::Result<()> {
    let (places, _) = known.before.waiting.as_chunks::<140>();
    for there in places.iter().filter_map(Awaited::at) {
        if find(known.now.waiting, there.id).is_some() == still {
            to.tell(Fact::Waited {
                what,
                message: there.message,
                id: there.id,
                key: there.key,
            })?;
        }
    }
    Ok(())
}
