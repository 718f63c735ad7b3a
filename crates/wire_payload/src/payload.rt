// An AUTHORITY that was read, written again with another payload: all else is as it was read, and the split controls say how
// many bytes follow them now.
ghost use Rattle.std.specs.Prelude.{◌≡◌};
ghost use Rattle.wire_write.specs.Writing.{Wrote};
ghost use Rattle.wire_payload.specs.Payload.{carrying, with_payload};

use wire_copy::{bit_of, busy_and_none, piece_of};
use wire_read::messages::Authority;
use wire_rows::{authority_rows, second_piece, spelled_bytes, spelled_piece};
use wire_whole::write_rows;
use wire_write::Written;

// The AUTHORITY with the payload, and with split controls that say 0.
fn put_carrying(out: &mut [u8], major: u8, m: Authority, d: &[u8], payload: &[u8]) -> Written
    ensures { Wrote (carrying major d.now m payload.now 0)
        out.old result out.new }
{
    let fields = m.fields;
    let rows = authority_rows();
    let l = bit_of(fields.l);
    let high = 2 * l;
    let low = busy_and_none(fields.b, fields.n);
    let spelled = spelled_bytes(m.acked, 0, high, low);
    let id_piece = spelled_piece(0, wire_numbers::ACKED_LEN);
    let split = spelled_piece(4, wire_numbers::SPLIT_LEN);
    let flags = spelled_piece(8, wire_numbers::FLAGS_LEN);
    let part = fields.chain;
    let chain = piece_of(part);
    let part = fields.token;
    let token = piece_of(part);
    let part = fields.classifier;
    let classifier = piece_of(part);
    let carried = second_piece(0, payload.len());
    let part = fields.entry;
    let entry = piece_of(part);
    let part = fields.cpa;
    let cpa = piece_of(part);
    let ps = [
        id_piece, split, flags, chain, token, classifier, carried, entry, cpa,
    ];
    write_rows(
        out,
        major,
        m.head.minor,
        wire_numbers::AUTHORITY,
        m.head.id,
        rows,
        ps,
        &spelled,
        d,
        payload,
    )
}

// Where it is written, its length tells how many bytes follow the split controls, and these say so.
pub fn write_payload(out: &mut [u8], major: u8, m: Authority, d: &[u8], payload: &[u8]) -> Written
    ensures { Wrote (with_payload major d.now m payload.now)
        out.old result out.new }
{
    let done = put_carrying(out, major, m, d, payload);
    if done.number != 0 {
        return done;
    }
    let size = done.length - 28;
    octet::write_u16(out, 24, size as u16);
    done
}
