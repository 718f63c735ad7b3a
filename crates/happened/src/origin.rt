// Which FLOOD or LOOKUP the inquiries that wait came from.
use crate::places;
use facts::{Message, Origin};
use look::Look;

#[derive(Clone, Copy)]
struct Inquiry {
    id: u32,
    origin: Origin,
}

// No more than 16 messages wait.
#[derive(Drop)]
pub(crate) struct Origins {
    inquiries: [Option<Inquiry>; 16],
}

impl Origins {
    pub(crate) fn none() -> Origins {
        Origins {
            inquiries: [None; 16],
        }
    }

    // The message that an INQUIRE came from.
    pub(crate) fn of(&self, id: u32) -> Option<Origin> {
        for inquiry in self.inquiries.iter().flatten() {
            if inquiry.id == id {
                return Some(inquiry.origin);
            }
        }
        None
    }

    // An INQUIRE that waits no longer is forgotten.
    fn sweep(&mut self, waiting: &[u8]) {
        for place in self.inquiries.iter_mut() {
            if let Some(inquiry) = *place {
                if places::find(waiting, inquiry.id).is_none() {
                    *place = None;
                }
            }
        }
    }

    fn put_in(&mut self, inquiry: Inquiry) {
        for place in self.inquiries.iter_mut() {
            if place.is_none() {
                *place = Some(inquiry);
                return;
            }
        }
    }

    // A message was accepted: where a place has opened for the ID of its INQUIRE, one more than that of the record, it is that
    // INQUIRE's.
    pub(crate) fn note(&mut self, before: &[u8], now: &[u8], record: &[u8], at: u64, look: Look) {
        if record.len() < 8 {
            return;
        }
        let id = octet::read_u32_le(record, 4).wrapping_add(1);
        if places::find(now, id).is_none() || places::find(before, id).is_some() {
            return;
        }
        self.sweep(before);
        self.put_in(Inquiry {
            id,
            origin: Origin {
                message: Message::from(look.kind),
                id: look.id,
                record: at,
            },
        })
    }
}
