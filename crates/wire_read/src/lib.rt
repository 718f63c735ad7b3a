// Reading a datagram: the message that it holds as numbers and as places in it, or document 01's number for why it is
// refused. Nothing is copied, and every byte is looked at once.
#![tactic(auto)]

mod ack;
mod advertise;
mod authority;
mod flood;
mod inquire;
mod lookup;
pub mod messages;
mod request;
mod solicit;
mod values;

ghost use Rattle.std.specs.Prelude.{◌≡◌};
ghost use Rattle.wire_read.specs.Answers.{head_number, read_in};

pub use ack::read_ack;
pub use advertise::read_advertise;
pub use authority::read_authority;
pub use flood::read_flood;
pub use inquire::read_inquire;
pub use lookup::read_lookup;
pub use request::read_request;
pub use solicit::read_solicit;
use wire_fields::is_opened;

// What a header has besides its fixed bytes, the major version and the type.
#[derive(Clone, Copy)]
pub struct Head {
    pub minor: u8,
    pub id: u32,
}

// A refusal's number, or a message.
#[derive(Clone, Copy)]
pub enum Incoming {
    Refused(u8),
    Solicit(messages::Solicit),
    Advertise(messages::Advertise),
    Request(messages::Request),
    Flood(messages::Flood),
    Inquire(messages::Inquire),
    Authority(messages::Authority),
    Ack(messages::Ack),
    Lookup(messages::Lookup),
}

// The number of a refusal by length or header, 0 where they are right and the type is to be looked at.
pub fn header(d: &[u8], major: u8) -> u8
    ensures { result ≡ head_number d.now major }
{
    if d.len() < 12 {
        return 2;
    }
    if 1232 < d.len() {
        return 2;
    }
    if !is_opened(d) {
        return 3;
    }
    if d[5] != major {
        return 4;
    }
    0
}

// The message in a datagram, or the number of its refusal.
pub fn read(d: &[u8], major: u8) -> Incoming
    ensures { result ≡ read_in d.now major }
{
    let number = header(d, major);
    if number != 0 {
        return Incoming::Refused(number);
    }
    let kind = d[7];
    match kind {
        1 => read_solicit(d).map_or(Incoming::Refused(6), Incoming::Solicit),
        2 => read_advertise(d).map_or(Incoming::Refused(6), Incoming::Advertise),
        3 => read_request(d).map_or(Incoming::Refused(6), Incoming::Request),
        4 => read_flood(d).map_or(Incoming::Refused(6), Incoming::Flood),
        7 => read_inquire(d).map_or(Incoming::Refused(6), Incoming::Inquire),
        8 => read_authority(d).map_or_else(Incoming::Refused, Incoming::Authority),
        9 => read_ack(d).map_or(Incoming::Refused(6), Incoming::Ack),
        11 => read_lookup(d).map_or(Incoming::Refused(6), Incoming::Lookup),
        _ => Incoming::Refused(5),
    }
}
