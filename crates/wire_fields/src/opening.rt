// The bytes that every datagram begins with: the header's number and length, and the protocol's mark.
ghost use Rattle.std.specs.Prelude.{◌≡◌, ◌≤◌, length};
ghost use Rattle.octet.specs.Part.{part, same, splice};
ghost use Rattle.wire_fields.specs.Message.{opening};

const OPENING: [u8; 5] = *b"\x00\x10\x00\x0C\x51";

// Does a datagram begin with them? Four of them are compared as one number.
pub fn is_opened(d: &[u8]) -> bool
    requires { 5 ≤ length d.now }
    ensures { result ≡ same (part 0 5 d.now) opening }
{
    let first = octet::read_u32(&OPENING, 0);
    if octet::read_u32(d, 0) != first {
        return false;
    }
    d[4] == OPENING[4]
}

// They are written at the start of an output.
pub fn put_opening(out: &mut [u8])
    requires { 5 ≤ length out.old }
    ensures { out.new ≡ splice 0 opening out.old }
{
    runs::copy_to(out, 0, &OPENING);
}
