// A message of any of the eight types that was read from a datagram, written again from where it was read, by the one
// writer of `wire_whole`.
#![tactic(auto)]

ghost use Rattle.std.specs.Prelude.{◌≡◌, cond, not, ◌+◌, ◌*◌, ◌-◌, ◌<◌, eqb, length};
ghost use Rattle.wire_fields.specs.Kinds.{one_of};
ghost use Rattle.wire_read.specs.Meaning.{bit};
ghost use Rattle.wire_read.specs.declared.Incoming.TheVariants as read;
ghost use Rattle.wire_write.specs.Writing.{Wrote};
ghost use Rattle.wire_copy.specs.Resent.{piece_of, spelled_if, resent};

use wire_fields::Place;
use wire_numbers::*;
use wire_read::Incoming;
use wire_read::messages::{Ack, Advertise, Authority, Flood, Inquire, Lookup, Request, Solicit};
use wire_rows::{
    ack_rows, advertise_rows, authority_rows, first_piece, flood_rows, inquire_rows, lookup_bytes,
    lookup_rows, no_piece, request_rows, solicit_rows, spelled_bytes, spelled_piece,
};
use wire_whole::write_rows;
use wire_write::{Piece, Source, Written};

// A place as a piece of the datagram.
pub fn piece_of(p: Option<Place>) -> Piece
    ensures { result ≡ piece_of p }
{
    let place = p.unwrap_or(Place { start: 0, len: 0 });
    Piece {
        there: p.is_some(),
        source: Source::First,
        start: place.start,
        len: place.len,
    }
}

fn spelled_if(there: bool, start: usize, len: usize) -> Piece
    ensures { result ≡ spelled_if there start len }
{
    Piece {
        there,
        source: Source::Spelled,
        start,
        len,
    }
}

pub fn bit_of(b: bool) -> u8
    ensures value { result ≡ bit b }
    ensures upper_bound { result < 2 }
{
    if b { 1 } else { 0 }
}

// The second byte of a buffer's flags: B, and N.
pub fn busy_and_none(b: bool, n: bool) -> u8
    ensures { result ≡ 8 * bit b + bit n }
{
    let busy = bit_of(b);
    let none = bit_of(n);
    8 * busy + none
}

// How many bytes stand behind a place.
fn behind(d: &[u8], place: usize) -> usize
    ensures { result ≡ length d.now - place }
{
    d.len().saturating_sub(place)
}

// Where the split controls of a REQUEST end.
fn split_end(flags: bool) -> usize
    ensures { result ≡ cond flags 28 20 }
{
    if flags { 28 } else { 20 }
}

fn both_or_neither(a: bool, b: bool) -> bool
    ensures { result ≡ not (one_of a b) }
{
    if a {
        return b;
    }
    !b
}

fn kept_precision(criteria: u8, precision: u16) -> u16
    ensures { result ≡ cond (eqb criteria 8) precision 0 }
{
    if criteria == 8 {
        return precision;
    }
    0
}

fn solicit(out: &mut [u8], major: u8, m: Solicit, d: &[u8]) -> Written
    ensures { Wrote (resent major d.now (read.Solicit m)) out.old result out.new }
{
    let rows = solicit_rows();
    let part = m.entry;
    let entry = piece_of(part);
    let nonce = first_piece(m.nonce, HASHED_LEN);
    let none = no_piece();
    let ps = [entry, nonce, none, none, none, none, none, none, none];
    write_rows(
        out,
        major,
        m.head.minor,
        SOLICIT,
        m.head.id,
        rows,
        ps,
        d,
        d,
        d,
    )
}

fn advertise(out: &mut [u8], major: u8, m: Advertise, d: &[u8]) -> Written
    ensures { Wrote (resent major d.now (read.Advertise m)) out.old result out.new }
{
    let rows = advertise_rows();
    let spelled = spelled_bytes(m.acked, 0, 0, 0);
    let id_piece = spelled_piece(0, ACKED_LEN);
    let part = m.keys;
    let keys = piece_of(part);
    let nonce = first_piece(m.nonce, HASHED_LEN);
    let none = no_piece();
    let ps = [id_piece, keys, nonce, none, none, none, none, none, none];
    write_rows(
        out,
        major,
        m.head.minor,
        ADVERTISE,
        m.head.id,
        rows,
        ps,
        &spelled,
        d,
        d,
    )
}

fn request(out: &mut [u8], major: u8, m: Request, d: &[u8]) -> Written
    ensures { Wrote (resent major d.now (read.Request m)) out.old result out.new }
{
    let rows = request_rows();
    let place = split_end(m.flags);
    let size = behind(d, place);
    let spelled = spelled_bytes(0, size, 0, 0);
    let flags = spelled_if(m.flags, 8, FLAGS_LEN);
    let split = spelled_if(m.split, 4, SPLIT_LEN);
    let nonce = first_piece(m.nonce, NONCE_LEN);
    let part = m.keys;
    let keys = piece_of(part);
    let part = m.credential;
    let credential = piece_of(part);
    let part = m.signature;
    let signature = piece_of(part);
    let part = m.key;
    let key = piece_of(part);
    let none = no_piece();
    let ps = [
        flags, split, nonce, keys, credential, signature, key, none, none,
    ];
    write_rows(
        out,
        major,
        m.head.minor,
        REQUEST,
        m.head.id,
        rows,
        ps,
        &spelled,
        d,
        d,
    )
}

fn flood(out: &mut [u8], major: u8, m: Flood, d: &[u8]) -> Written
    ensures { Wrote (resent major d.now (read.Flood m)) out.old result out.new }
{
    let rows = flood_rows();
    let part = m.revoke;
    let revoke = piece_of(part);
    let part = m.entry;
    let entry = piece_of(part);
    if both_or_neither(revoke.there, entry.there) {
        return Written {
            number: 6,
            length: 0,
        };
    }
    let low = bit_of(m.d);
    let spelled = spelled_bytes(0, 0, 0, low);
    let controls = spelled_piece(8, FLOOD_CONTROLS_LEN);
    let validate = first_piece(m.validate, KEY_LEN);
    let part = m.token;
    let token = piece_of(part);
    let part = m.reached;
    let reached = piece_of(part);
    let none = no_piece();
    let ps = [
        controls, validate, token, revoke, entry, reached, none, none, none,
    ];
    write_rows(
        out,
        major,
        m.head.minor,
        FLOOD,
        m.head.id,
        rows,
        ps,
        &spelled,
        d,
        d,
    )
}

fn inquire(out: &mut [u8], major: u8, m: Inquire, d: &[u8]) -> Written
    ensures { Wrote (resent major d.now (read.Inquire m)) out.old result out.new }
{
    let rows = inquire_rows();
    let first = bit_of(m.a);
    let second = bit_of(m.x);
    let third = bit_of(m.c);
    let low = 16 * first + (8 * second + 4 * third);
    let spelled = spelled_bytes(0, 0, 0, low);
    let flags = spelled_piece(8, FLAGS_LEN);
    let validate = first_piece(m.validate, KEY_LEN);
    let part = m.nonce;
    let nonce = piece_of(part);
    let part = m.credential;
    let credential = piece_of(part);
    let part = m.signature;
    let signature = piece_of(part);
    let part = m.key;
    let key = piece_of(part);
    let none = no_piece();
    let ps = [
        flags, validate, nonce, credential, signature, key, none, none, none,
    ];
    write_rows(
        out,
        major,
        m.head.minor,
        INQUIRE,
        m.head.id,
        rows,
        ps,
        &spelled,
        d,
        d,
    )
}

fn authority(out: &mut [u8], major: u8, m: Authority, d: &[u8]) -> Written
    ensures { Wrote (resent major d.now (read.Authority m)) out.old result out.new }
{
    let fields = m.fields;
    let rows = authority_rows();
    let size = behind(d, 28);
    let l = bit_of(fields.l);
    let high = 2 * l;
    let low = busy_and_none(fields.b, fields.n);
    let spelled = spelled_bytes(m.acked, size, high, low);
    let id_piece = spelled_piece(0, ACKED_LEN);
    let split = spelled_piece(4, SPLIT_LEN);
    let flags = spelled_piece(8, FLAGS_LEN);
    let part = fields.chain;
    let chain = piece_of(part);
    let part = fields.token;
    let token = piece_of(part);
    let part = fields.classifier;
    let classifier = piece_of(part);
    let part = fields.payload;
    let payload = piece_of(part);
    let part = fields.entry;
    let entry = piece_of(part);
    let part = fields.cpa;
    let cpa = piece_of(part);
    let ps = [
        id_piece, split, flags, chain, token, classifier, payload, entry, cpa,
    ];
    write_rows(
        out,
        major,
        m.head.minor,
        AUTHORITY,
        m.head.id,
        rows,
        ps,
        &spelled,
        d,
        d,
    )
}

fn ack(out: &mut [u8], major: u8, m: Ack, d: &[u8]) -> Written
    ensures { Wrote (resent major d.now (read.Ack m)) out.old result out.new }
{
    let rows = ack_rows();
    let low = bit_of(m.n);
    let spelled = spelled_bytes(m.acked, 0, 0, low);
    let id_piece = spelled_piece(0, ACKED_LEN);
    let flags = spelled_if(m.flags, 8, FLAGS_LEN);
    let none = no_piece();
    let ps = [id_piece, flags, none, none, none, none, none, none, none];
    write_rows(
        out,
        major,
        m.head.minor,
        ACK,
        m.head.id,
        rows,
        ps,
        &spelled,
        d,
        d,
    )
}

fn lookup(out: &mut [u8], major: u8, m: Lookup, d: &[u8]) -> Written
    ensures { Wrote (resent major d.now (read.Lookup m)) out.old result out.new }
{
    let rows = lookup_rows();
    let first = bit_of(m.a);
    let low = 2 * first;
    let kept = kept_precision(m.criteria, m.precision);
    let spelled = lookup_bytes(low, kept, m.criteria, m.reason);
    let controls = spelled_piece(0, LOOKUP_CONTROLS_LEN);
    let target = first_piece(m.target, KEY_LEN);
    let validate = first_piece(m.validate, KEY_LEN);
    let part = m.entry;
    let entry = piece_of(part);
    let part = m.path;
    let path = piece_of(part);
    let part = m.credential;
    let credential = piece_of(part);
    let part = m.signature;
    let signature = piece_of(part);
    let part = m.key;
    let key = piece_of(part);
    let none = no_piece();
    let ps = [
        controls, target, validate, entry, path, credential, signature, key, none,
    ];
    write_rows(
        out,
        major,
        m.head.minor,
        LOOKUP,
        m.head.id,
        rows,
        ps,
        &spelled,
        d,
        d,
    )
}

// A message that `read` gave of the datagram `d`, at the start of the output.
pub fn write(out: &mut [u8], major: u8, message: Incoming, d: &[u8]) -> Written
    ensures { Wrote (resent major d.now message) out.old result out.new }
{
    match message {
        Incoming::Refused(_) => Written {
            number: 6,
            length: 0,
        },
        Incoming::Solicit(m) => solicit(out, major, m, d),
        Incoming::Advertise(m) => advertise(out, major, m, d),
        Incoming::Request(m) => request(out, major, m, d),
        Incoming::Flood(m) => flood(out, major, m, d),
        Incoming::Inquire(m) => inquire(out, major, m, d),
        Incoming::Authority(m) => authority(out, major, m, d),
        Incoming::Ack(m) => ack(out, major, m, d),
        Incoming::Lookup(m) => lookup(out, major, m, d),
    }
}
