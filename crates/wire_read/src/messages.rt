// The eight messages as they are read: a field of fixed length is the place where its contents start, one of any length
// a `Place`, and one that may be absent an `Option` of it; flags and numbers are themselves.
use crate::Head;
use wire_buffer::Inside;
use wire_fields::Place;

#[derive(Clone, Copy)]
pub struct Solicit {
    pub head: Head,
    pub entry: Option<Place>,
    pub nonce: usize,
}

#[derive(Clone, Copy)]
pub struct Advertise {
    pub head: Head,
    pub acked: u32,
    pub keys: Option<Place>,
    pub nonce: usize,
}

#[derive(Clone, Copy)]
pub struct Request {
    pub head: Head,
    pub flags: bool,
    pub split: bool,
    pub nonce: usize,
    pub keys: Option<Place>,
    pub credential: Option<Place>,
    pub signature: Option<Place>,
    pub key: Option<Place>,
}

#[derive(Clone, Copy)]
pub struct Flood {
    pub head: Head,
    pub d: bool,
    pub validate: usize,
    pub token: Option<Place>,
    pub revoke: Option<Place>,
    pub entry: Option<Place>,
    pub reached: Option<Place>,
}

#[derive(Clone, Copy)]
pub struct Inquire {
    pub head: Head,
    pub a: bool,
    pub x: bool,
    pub c: bool,
    pub validate: usize,
    pub nonce: Option<Place>,
    pub credential: Option<Place>,
    pub signature: Option<Place>,
    pub key: Option<Place>,
}

#[derive(Clone, Copy)]
pub struct Authority {
    pub head: Head,
    pub acked: u32,
    pub fields: Inside,
}

#[derive(Clone, Copy)]
pub struct Ack {
    pub head: Head,
    pub acked: u32,
    pub flags: bool,
    pub n: bool,
}

#[derive(Clone, Copy)]
pub struct Lookup {
    pub head: Head,
    pub a: bool,
    pub precision: u16,
    pub criteria: u8,
    pub reason: u8,
    pub target: usize,
    pub validate: usize,
    pub entry: Option<Place>,
    pub path: Option<Place>,
    pub credential: Option<Place>,
    pub signature: Option<Place>,
    pub key: Option<Place>,
}
