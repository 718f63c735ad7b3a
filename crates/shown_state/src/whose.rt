// Whose night it was: the record that opens the trace, two versions and the gauge's own record.
use shown_words::names::{self, Names};
use std::io::{self, Write};

// The own record, behind the two versions.
pub fn own_of(opening: &[u8]) -> &[u8] {
    opening.get(2..102).unwrap_or(&[])
}

// The major version of the messages that the gauge reads.
pub fn major(opening: &[u8]) -> u8 {
    opening.first().copied().unwrap_or(0)
}

// Whose night: the opening record has been taken.
pub fn write_whose<W: Write>(out: &mut W, names: Names<'_>, opening: &[u8]) -> io::Result<()> {
    let key = own_of(opening).get(..32).unwrap_or(&[]);
    write!(out, "Night of  ")?;
    names.write_whose(out, key)?;
    write!(out, "\nOwn key   ")?;
    names::write_key(out, key)?;
    writeln!(out)?;
    match opening {
        [major, minor, ..] => writeln!(out, "Versions  major {major}, minor {minor}"),
        _ => Ok(()),
    }
}

// Whether its own record is as one must be.
pub fn write_form<W: Write>(out: &mut W, opening: &[u8]) -> io::Result<()> {
    if record::is_record(own_of(opening)) {
        return writeln!(out);
    }
    out.write_all(
        b"\nThis gauge's own record, with which the trace opens, is not as a record must be. So every call is refused\n\
        with number 1, and the gauge has kept nothing: the trace was recorded wrongly, or is damaged.\n\n",
    )
}
