// The header that every message begins with.
ghost use Rattle.std.specs.Prelude.{◌≡◌, ◌∷◌, ◌++◌, ◌≤◌, length};
ghost use Rattle.octet.specs.Number.{digits_be};
ghost use Rattle.octet.specs.Part.{splice};
ghost use Rattle.wire_fields.specs.Message.{opening};

use wire_fields::put_opening;

// The twelve bytes of a header.
pub fn put_header(out: &mut [u8], major: u8, minor: u8, kind: u8, id: u32)
    requires { 12 ≤ length out.old }
    ensures { out.new ≡ splice 0 (opening ++ (major ∷ minor ∷ kind ∷ digits_be 256 4 id)) out.old }
{
    put_opening(out);
    let three = [major, minor, kind];
    runs::copy_to(out, 5, &three);
    octet::write_u32(out, 8, id);
}
