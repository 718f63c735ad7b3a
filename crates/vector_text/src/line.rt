// A line of vectors: a name, and operands in hexadecimal. All of it is total: what is not there is empty, or 0.

ghost use Rattle.std.specs.Prelude.{◌≡◌, ◌≤◌, length};
ghost use Rattle.std.specs.Iterator.{at_most};

use std::mem;

// How many bytes of operands each of the two rooms has place for.
const ROOM: usize = 65536;

// Two rooms for the bytes of operands, those of one line after the other: what a line leaves in them, the next one finds.
#[derive(Drop)]
pub struct Rooms {
    pub room: [u8; ROOM],
    pub side: [u8; ROOM],
}

impl Rooms {
    pub fn new() -> Rooms {
        Rooms {
            room: [0; ROOM],
            side: [0; ROOM],
        }
    }

    // A line that puts its operands from the start of the rooms on.
    pub fn line<'a>(&'a mut self, text: &'a [u8]) -> Line<'a> {
        let room = &mut self.room;
        let side = &mut self.side;
        Line { text, room, side }
    }
}

// A line's text, without its end, and two rooms for the bytes of its operands, each with one behind the other.
#[derive(Drop)]
pub struct Line<'a> {
    pub text: &'a [u8],
    pub room: &'a mut [u8],
    pub side: &'a mut [u8],
}

impl<'a> Line<'a> {
    // Neither empty nor a heading.
    pub fn is_vector(&self) -> bool {
        self.text.first().is_some_and(|b| *b != b'#')
    }

    // The words of a line are apart by a space: word 0 is the name, and the others are the operands.
    fn operand(&self, i: usize) -> &'a [u8] {
        self.text.split(|b| *b == b' ').nth(i).unwrap_or_default()
    }

    // What a table of names has for the line's. A table is far cheaper to prove than a match with an arm for each name.
    pub fn named<T: Copy>(&self, names: &[(&str, T)]) -> Option<T> {
        let name = self.operand(0);
        for (known, what) in names {
            if known.as_bytes() == name {
                return Some(*what);
            }
        }
        None
    }

    // An operand as a number, in its last 16 digits.
    pub fn number(&self, i: usize) -> u64 {
        number_of(self.operand(i))
    }

    // An operand as a place or a count.
    pub fn place(&self, i: usize) -> usize {
        self.number(i) as usize
    }

    // An operand in its last two digits.
    pub fn byte(&self, i: usize) -> u8 {
        (self.number(i) % 256) as u8
    }

    // An operand in its last eight digits.
    pub fn word(&self, i: usize) -> u32 {
        (self.number(i) % 4294967296) as u32
    }

    // The bytes of an operand from the start of a room on, as far as there is room for them. How many they are.
    pub fn put(&self, i: usize, room: &mut [u8]) -> usize
        ensures bound { result ≤ length room.old }
        ensures same_length { length room.new ≡ length room.old }
    {
        put(self.operand(i), room)
    }

    // The bytes of an operand, in the room behind those of the last one.
    pub fn bytes(&mut self, i: usize) -> &'a mut [u8] {
        let (bytes, rest) = put_in(self.operand(i), mem::take(&mut self.room));
        self.room = rest;
        bytes
    }

    // The same in the room at the side.
    pub fn aside(&mut self, i: usize) -> &'a mut [u8] {
        let (bytes, rest) = put_in(self.operand(i), mem::take(&mut self.side));
        self.side = rest;
        bytes
    }

    // The bytes of an operand, kept from this line on.
    pub fn keep<const N: usize>(&self, i: usize, kept: &mut Kept<N>) {
        kept.len = put(self.operand(i), &mut kept.room);
    }

    // The bytes of an operand, where those of the next one will stand too.
    pub fn peek(&mut self, i: usize) -> &[u8] {
        let room = mem::take(&mut self.room);
        let len = put(self.operand(i), room);
        self.room = room;
        &self.room[..len]
    }
}

// Bytes that are kept from line to line, N at most.
#[derive(Clone, Copy)]
pub struct Kept<const N: usize> {
    room: [u8; N],
    len: usize,
    ghost within: { len ≤ N },
}

impl<const N: usize> Kept<N> {
    pub fn new() -> Kept<N> {
        Kept {
            room: [0; N],
            len: 0,
        }
    }

    // So many zero bytes, where there is room for them; else nothing changes.
    pub fn clear(&mut self, len: usize) -> Option<()> {
        self.room.get_mut(..len)?.fill(0);
        self.len = len;
        Some(())
    }

    pub fn bytes(&self) -> &[u8] {
        &self.room[..self.len]
    }

    pub fn bytes_mut(&mut self) -> &mut [u8] {
        let len = self.len;
        let room = &mut self.room;
        &mut room[..len]
    }
}

// The value of a hexadecimal digit; 0 for any other byte.
fn digit(b: u8) -> u8 {
    match b {
        b'0'..=b'9' => b - b'0',
        b'A'..=b'F' => b - b'A' + 10,
        _ => 0,
    }
}

fn number_of(digits: &[u8]) -> u64 {
    digits.iter().fold(0, |n, b| n << 4 | u64::from(digit(*b)))
}

// The pieces of an operand: two digits for a byte, or `Z` with four digits for so many zero bytes.
#[derive(Drop)]
struct Pieces<'a>(&'a [u8]);

impl<'a> Iterator for Pieces<'a> {
    type Item = &'a [u8];

    ghost remaining = { λ p. at_most (length p.0.now) };

    fn next(&mut self) -> Option<&'a [u8]> {
        let first = self.0.first()?;
        let (piece, rest) = self.0.split_at(step_over(*first).min(self.0.len()));
        self.0 = rest;
        Some(piece)
    }
}

// How many digits a byte or a run of zeros takes.
fn step_over(b: u8) -> usize
    ensures { 1 ≤ result }
{
    if b == b'Z' { 5 } else { 2 }
}

// The bytes of a piece, where there is room for all of them. How many they are.
fn put_piece(piece: &[u8], room: &mut [u8]) -> usize
    ensures bound { result ≤ length room.old }
    ensures same_length { length room.new ≡ length room.old }
{
    match piece {
        [b'Z', digits @ ..] => put_zeros(number_of(digits) as usize, room),
        [high, low] => match room.first_mut() {
            Some(byte) => {
                *byte = digit(*high) << 4 | digit(*low);
                1
            }
            None => 0,
        },
        _ => 0,
    }
}

fn put_zeros(n: usize, room: &mut [u8]) -> usize
    ensures bound { result ≤ length room.old }
    ensures same_length { length room.new ≡ length room.old }
{
    match room.get_mut(..n) {
        Some(run) => {
            run.fill(0);
            n
        }
        None => 0,
    }
}

// The bytes of an operand from the start of a room on: a piece for which there is no room is left out. How many they are.
fn put(digits: &[u8], room: &mut [u8]) -> usize
    ensures bound { result ≤ length room.old }
    ensures same_length { length room.new ≡ length room.old }
{
    let mut len = 0;
    for piece in Pieces(digits) {
        len += put_piece(piece, &mut room[len..]);
    }
    len
}

// The bytes of an operand, and what is left of the room.
fn put_in<'a>(digits: &[u8], room: &'a mut [u8]) -> (&'a mut [u8], &'a mut [u8]) {
    let len = put(digits, room);
    room.split_at_mut(len)
}
