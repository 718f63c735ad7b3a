// A message read without acting on it, as the radio program sees it: its numbers, and where in the datagram those
// fields stand that the program must judge or sign.
#![tactic(auto)]

ghost use Rattle.std.specs.Prelude.{◌≡◌, ◌+◌, ◌≤◌, false, length};
ghost use Rattle.wire_fields.specs.Kinds.{solicit_kinds, advertise_kinds, request_kinds, flood_kinds, inquire_kinds, ack_kinds, lookup_kinds};
ghost use Rattle.wire_buffer.specs.Buffer.{start_of};
ghost use Rattle.wire_read.specs.Answers.{read_in};
ghost use Rattle.wire_read.specs.declared.Incoming.TheVariants.{Refused};
ghost use Rattle.look.specs.Seen.{size_of, seen_as, look_of, briefed, brief_of, read_as, authority_read, Small};

use wire_fields::Place;

// Document 01's number of reading; type, message ID and acked ID; place and length of the CPA or revoke CPA, of the
// nonce, of the route entry and of the target key, 0 and 0 for one not there.
#[repr(C)]
#[derive(Clone, Copy)]
pub struct Look {
    pub number: u32,
    pub kind: u32,
    pub id: u32,
    pub acked: u32,
    pub cpa: u32,
    pub cpa_length: u32,
    pub nonce: u32,
    pub nonce_length: u32,
    pub entry: u32,
    pub entry_length: u32,
    pub target: u32,
    pub target_length: u32,
}

// Where a field's contents are; 0 and 0 for one not there.
fn place_of(p: Option<Place>) -> Place
    ensures start { result.start ≡ start_of p }
    ensures len { result.len ≡ size_of p }
{
    p.unwrap_or(Place { start: 0, len: 0 })
}

// What is told of a message with these fields, or of a refusal, which has none.
fn seen_as(
    number: u32,
    kind: u32,
    id: u32,
    acked: u32,
    cpa: Option<Place>,
    nonce: Option<Place>,
    entry: Option<Place>,
    target: Option<Place>,
) -> Look
    requires { (start_of cpa + size_of cpa ≤ 1232) × (start_of nonce + size_of nonce ≤ 1232)
        × (start_of entry + size_of entry ≤ 1232) × (start_of target + size_of target ≤ 1232) }
    ensures { result ≡ seen_as number kind id acked cpa nonce entry target }
{
    let cpa = place_of(cpa);
    let nonce = place_of(nonce);
    let entry = place_of(entry);
    let target = place_of(target);
    Look {
        number,
        kind,
        id,
        acked,
        cpa: cpa.start as u32,
        cpa_length: cpa.len as u32,
        nonce: nonce.start as u32,
        nonce_length: nonce.len as u32,
        entry: entry.start as u32,
        entry_length: entry.len as u32,
        target: target.start as u32,
        target_length: target.len as u32,
    }
}

// What calls want of a message besides: where the validate key of a FLOOD or INQUIRE stands; one flag: a FLOOD's D, an ACK's
// N, whether an AUTHORITY has a CPA; place and length of a LOOKUP's path.
#[derive(Clone, Copy)]
pub struct Brief {
    pub seen: Look,
    pub validate: usize,
    pub flag: bool,
    pub path: usize,
    pub size: usize,
}

// What is told, and nothing besides.
fn alone(seen: Look) -> Brief
    ensures { result ≡ briefed seen 0 false 0 0 }
{
    Brief {
        seen,
        validate: 0,
        flag: false,
        path: 0,
        size: 0,
    }
}

// What is told of a refusal.
fn refused(number: u8) -> Brief
    ensures { result ≡ brief_of (Refused number) }
{
    alone(seen_as(number as u32, 0, 0, 0, None, None, None, None))
}

// Of each message, where its fields are told within the datagram.
fn brief_solicit(datagram: &[u8]) -> Brief
    requires { (12 ≤ length datagram.now) × Small (look_of (read_as 1 solicit_kinds datagram.now)) }
    ensures { result ≡ brief_of (read_as 1 solicit_kinds datagram.now) }
{
    let Some(m) = wire_read::read_solicit(datagram) else {
        return refused(6);
    };
    let nonce = Some(Place {
        start: m.nonce,
        len: 20,
    });
    let seen = seen_as(0, 1, m.head.id, 0, None, nonce, m.entry, None);
    alone(seen)
}

fn brief_advertise(datagram: &[u8]) -> Brief
    requires { (12 ≤ length datagram.now) × Small (look_of (read_as 2 advertise_kinds datagram.now)) }
    ensures { result ≡ brief_of (read_as 2 advertise_kinds datagram.now) }
{
    let Some(m) = wire_read::read_advertise(datagram) else {
        return refused(6);
    };
    let nonce = Some(Place {
        start: m.nonce,
        len: 20,
    });
    let seen = seen_as(0, 2, m.head.id, m.acked, None, nonce, None, None);
    alone(seen)
}

fn brief_request(datagram: &[u8]) -> Brief
    requires { (12 ≤ length datagram.now) × Small (look_of (read_as 3 request_kinds datagram.now)) }
    ensures { result ≡ brief_of (read_as 3 request_kinds datagram.now) }
{
    let Some(m) = wire_read::read_request(datagram) else {
        return refused(6);
    };
    let nonce = Some(Place {
        start: m.nonce,
        len: 16,
    });
    let seen = seen_as(0, 3, m.head.id, 0, None, nonce, None, None);
    alone(seen)
}

fn brief_flood(datagram: &[u8]) -> Brief
    requires { (12 ≤ length datagram.now) × Small (look_of (read_as 4 flood_kinds datagram.now)) }
    ensures { result ≡ brief_of (read_as 4 flood_kinds datagram.now) }
{
    let Some(m) = wire_read::read_flood(datagram) else {
        return refused(6);
    };
    let seen = seen_as(0, 4, m.head.id, 0, m.revoke, None, m.entry, None);
    Brief {
        validate: m.validate,
        flag: m.d,
        ..alone(seen)
    }
}

fn brief_inquire(datagram: &[u8]) -> Brief
    requires { (12 ≤ length datagram.now) × Small (look_of (read_as 7 inquire_kinds datagram.now)) }
    ensures { result ≡ brief_of (read_as 7 inquire_kinds datagram.now) }
{
    let Some(m) = wire_read::read_inquire(datagram) else {
        return refused(6);
    };
    let seen = seen_as(0, 7, m.head.id, 0, None, m.nonce, None, None);
    Brief {
        validate: m.validate,
        ..alone(seen)
    }
}

fn brief_authority(datagram: &[u8]) -> Brief
    requires { (12 ≤ length datagram.now) × Small (look_of (authority_read datagram.now)) }
    ensures { result ≡ brief_of (authority_read datagram.now) }
{
    let m = match wire_read::read_authority(datagram) {
        Ok(m) => m,
        Err(number) => return refused(number),
    };
    let cpa = m.fields.cpa;
    let entry = m.fields.entry;
    let seen = seen_as(0, 8, m.head.id, m.acked, cpa, None, entry, None);
    Brief {
        flag: cpa.is_some(),
        ..alone(seen)
    }
}

fn brief_ack(datagram: &[u8]) -> Brief
    requires { (12 ≤ length datagram.now) × Small (look_of (read_as 9 ack_kinds datagram.now)) }
    ensures { result ≡ brief_of (read_as 9 ack_kinds datagram.now) }
{
    let Some(m) = wire_read::read_ack(datagram) else {
        return refused(6);
    };
    let seen = seen_as(0, 9, m.head.id, m.acked, None, None, None, None);
    Brief {
        flag: m.n,
        ..alone(seen)
    }
}

fn brief_lookup(datagram: &[u8]) -> Brief
    requires { (12 ≤ length datagram.now) × Small (look_of (read_as 11 lookup_kinds datagram.now)) }
    ensures { result ≡ brief_of (read_as 11 lookup_kinds datagram.now) }
{
    let Some(m) = wire_read::read_lookup(datagram) else {
        return refused(6);
    };
    let target = Some(Place {
        start: m.target,
        len: 32,
    });
    let path = place_of(m.path);
    let seen = seen_as(0, 11, m.head.id, 0, None, None, m.entry, target);
    Brief {
        path: path.start,
        size: path.len,
        ..alone(seen)
    }
}

// What the datagram's message is, for a gauge of the major version. Each message has its own way from its bytes to what is
// told of it, so that the compiler keeps what was read where it is and writes down no answer in between.
pub fn brief_at(major: u8, datagram: &[u8]) -> Brief
    ensures { result ≡ brief_of (read_in datagram.now major) }
{
    let number = wire_read::header(datagram, major);
    if number != 0 {
        return refused(number);
    }
    let kind = datagram[7];
    match kind {
        1 => {
            return brief_solicit(datagram);
        }
        2 => {
            return brief_advertise(datagram);
        }
        3 => {
            return brief_request(datagram);
        }
        4 => {
            return brief_flood(datagram);
        }
        7 => {
            return brief_inquire(datagram);
        }
        8 => {
            return brief_authority(datagram);
        }
        9 => {
            return brief_ack(datagram);
        }
        11 => {
            return brief_lookup(datagram);
        }
        _ => {
            return refused(5);
        }
    }
}

// What the radio program is told of it; field by field, as the compiler would copy a whole struct twice.
pub fn look_at(major: u8, datagram: &[u8]) -> Look
    ensures { result ≡ look_of (read_in datagram.now major) }
{
    let told = brief_at(major, datagram);
    let seen = told.seen;
    Look {
        number: seen.number,
        kind: seen.kind,
        id: seen.id,
        acked: seen.acked,
        cpa: seen.cpa,
        cpa_length: seen.cpa_length,
        nonce: seen.nonce,
        nonce_length: seen.nonce_length,
        entry: seen.entry,
        entry_length: seen.entry_length,
        target: seen.target,
        target_length: seen.target_length,
    }
}
