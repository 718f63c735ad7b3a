// The datagrams that the calls send: a writer for each, straight, field by field from the start of the output. What is wrong or
// has no room is known before the first byte is written.
#![tactic(auto)]

mod ack;
mod authority;
mod flood;
mod front;
mod inquire;

pub use ack::write_ack;
pub use authority::{write_closest, write_cpa};
pub use flood::write_flood;
pub use inquire::write_inquire;

// What a datagram of ours is headed with beside its type: the gauge's versions, and the ID of the message.
#[derive(Clone, Copy)]
pub struct Heading {
    pub major: u8,
    pub minor: u8,
    pub id: u32,
}

// What is answered where a key, a nonce or a record is none, and where there is no room.
const NOT_RIGHT: wire_write::Written = wire_write::Written {
    number: 6,
    length: 0,
};

const NO_ROOM: wire_write::Written = wire_write::Written {
    number: 15,
    length: 0,
};
