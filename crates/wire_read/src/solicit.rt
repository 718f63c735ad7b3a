// SOLICIT: route entry; hashed nonce.
ghost use Rattle.std.specs.Prelude.{◌≡◌, ◌≤◌, length};
ghost use Rattle.wire_fields.specs.Kinds.{solicit_kinds};
ghost use Rattle.wire_fields.specs.Reading.{fields_as};
ghost use Rattle.wire_fields.specs.Refusals.{found_of};
ghost use Rattle.wire_read.specs.declared.Incoming.TheVariants as M;
ghost use Rattle.wire_read.specs.Readers.{or_six};
ghost use Rattle.wire_read.specs.Answers.{incoming_of};

use crate::messages::Solicit;
use crate::values::head;
use wire_fields::Cursor;

pub fn read_solicit(d: &[u8]) -> Option<Solicit>
    requires { 12 ≤ length d.now }
    ensures { or_six M.Solicit result ≡ incoming_of d.now (found_of 1 (fields_as 1 solicit_kinds d.now)) }
{
    let c = Cursor { at: 12 };
    let Some((entry, c)) = c.entry_or_none(d) else {
        return None;
    };
    let (nonce, c) = c.fixed(d, wire_numbers::HASHED, false, 20)?;
    if c.at != d.len() {
        return None;
    }
    Some(Solicit {
        head: head(d),
        entry,
        nonce: nonce.start,
    })
}
