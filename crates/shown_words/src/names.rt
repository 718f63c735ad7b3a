// Pond names: text with a line for each, a key in 64 hexadecimal digits, a space, and the name. Any other line is
// passed over. Where a key stands in two lines, the first names it.
use std::io::{self, Write};

// Of a name so many bytes are shown, fewer where the last would be a part of a character only.
const SHOWN: usize = 40;

// The names, of bytes that need be no characters.
#[derive(Clone, Copy)]
pub struct Names<'a> {
    text: &'a [u8],
}

// Are the two digits those of the byte?
fn are_of(digits: &[u8], byte: u8) -> bool {
    match digits {
        [high, low] => {
            char::from(*high).to_digit(16) == Some(u32::from(byte / 16))
                && char::from(*low).to_digit(16) == Some(u32::from(byte % 16))
        }
        _ => false,
    }
}

// Is it the line of a key: do its 64 digits tell the key, and does a space follow them?
fn is_line_of(line: &[u8], key: &[u8]) -> bool {
    key.len() == 32
        && line.get(64) == Some(&b' ')
        && line
            .chunks_exact(2)
            .zip(key)
            .all(|(digits, byte)| are_of(digits, *byte))
}

// What is shown of a name: up to its line's end, of which a carriage return is a part, or up to where enough is shown.
fn shown_of(name: &[u8]) -> &[u8] {
    let end = name.iter().position(|b| *b == b'\r').unwrap_or(name.len());
    let name = &name[..end];
    if name.len() <= SHOWN {
        return name;
    }
    let begun = &name[..SHOWN + 1];
    let whole = begun.iter().rposition(|b| *b / 64 != 2).unwrap_or(0);
    &begun[..whole]
}

impl<'a> Names<'a> {
    pub fn of(text: &'a [u8]) -> Names<'a> {
        Names { text }
    }

    // The name of a key, if it has one.
    fn name_of(self, key: &[u8]) -> Option<&'a [u8]> {
        let line = self
            .text
            .split(|b| *b == b'\n')
            .find(|line| is_line_of(line, key))?;
        let name = shown_of(line.get(65..)?);
        if name.is_empty() { None } else { Some(name) }
    }

    // Whose key it is: the pond's name, or the key where it has none.
    pub fn write_whose<W: Write>(self, out: &mut W, key: &[u8]) -> io::Result<()> {
        match self.name_of(key) {
            Some(name) => out.write_all(name),
            None => write_key(out, key),
        }
    }
}

// A key is shown by its first eight digits, two dots and its last eight, here and wherever it has no name: a keeper
// tells the ponds' keys apart by them.
pub fn write_key<W: Write>(out: &mut W, key: &[u8]) -> io::Result<()> {
    if key.len() != 32 {
        return Ok(());
    }
    write!(
        out,
        "{:08x}..{:08x}",
        octet::read_u32(key, 0),
        octet::read_u32(key, 28)
    )
}
