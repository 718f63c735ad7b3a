// What a datagram is besides an AUTHORITY, for whoever wants a whole one.
ghost use Rattle.std.specs.Prelude.{◌≡◌, ◌≤◌, ℕ, cond, length, Err, IfSome, IfNone};
ghost use Rattle.wire_fields.specs.Kinds.{authority_kinds};
ghost use Rattle.wire_fields.specs.Reading.{fields_as};
ghost use Rattle.wire_fields.specs.Refusals.{found_of};
ghost use Rattle.wire_fields.proofs.RefusalLaws.{gated};
ghost use Rattle.wire_read.specs.Answers.{read_in, incoming_of};
ghost use Rattle.carried.specs.Whole.{whole_of, other_in};

// The number for another message: 5 where it is one, 6 where it is malformed.
fn another(is_read: bool) -> u32
    ensures { result ≡ cond is_read 5 6 }
{
    if is_read { 5 } else { 6 }
}

// The number that stands against a datagram that is no AUTHORITY, by its header or its type; none where it is to be read as one. Each
// type goes to its own reader, so that no stack is taken for a message that is not wanted.
pub(crate) fn other_number(major: u8, d: &[u8]) -> Option<u32>
    ensures value { result ≡ other_in major d.now }
    ensures some { IfSome result (λ (n : ℕ). whole_of (read_in d.now major) ≡ Err n) }
    ensures none { IfNone result ((12 ≤ length d.now) × (read_in d.now major
        ≡ incoming_of d.now (gated 8 d.now (found_of 8 (fields_as 8 authority_kinds d.now))))) }
{
    let number = wire_read::header(d, major);
    if number != 0 {
        return Some(u32::from(number));
    }
    let kind = d[7];
    match kind {
        1 => Some(another(wire_read::read_solicit(d).is_some())),
        2 => Some(another(wire_read::read_advertise(d).is_some())),
        3 => Some(another(wire_read::read_request(d).is_some())),
        4 => Some(another(wire_read::read_flood(d).is_some())),
        7 => Some(another(wire_read::read_inquire(d).is_some())),
        8 => None,
        9 => Some(another(wire_read::read_ack(d).is_some())),
        11 => Some(another(wire_read::read_lookup(d).is_some())),
        _ => Some(5),
    }
}
