// The types of messages by document 000, section 2.2.1; and of a datagram without one, whether it is a part of an AUTHORITY.
use std::fmt;

#[derive(Clone, Copy, PartialEq, Eq)]
pub enum Message {
    Unread,
    Part,
    Solicit,
    Advertise,
    Request,
    Flood,
    Inquire,
    Authority,
    Ack,
    Lookup,
}

impl From<u32> for Message {
    fn from(kind: u32) -> Message {
        match kind {
            1 => Message::Solicit,
            2 => Message::Advertise,
            3 => Message::Request,
            4 => Message::Flood,
            7 => Message::Inquire,
            8 => Message::Authority,
            9 => Message::Ack,
            11 => Message::Lookup,
            _ => Message::Unread,
        }
    }
}

impl fmt::Display for Message {
    fn fmt<W: fmt::Write>(&self, f: &mut fmt::Formatter<W>) -> fmt::Result {
        f.write_str(match self {
            Message::Unread => "unread",
            Message::Part => "part",
            Message::Solicit => "SOLICIT",
            Message::Advertise => "ADVERTISE",
            Message::Request => "REQUEST",
            Message::Flood => "FLOOD",
            Message::Inquire => "INQUIRE",
            Message::Authority => "AUTHORITY",
            Message::Ack => "ACK",
            Message::Lookup => "LOOKUP",
        })
    }
}
