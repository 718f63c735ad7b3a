// Vectors of keys, each an operand of 32 bytes: order, difference on the line and round the ring, and how they stand
// around our own and around a target.
use key::Key;
use std::cmp::Ordering;
use std::io::{self, Write};
use vector_text::line::{Line, Rooms};
use vector_text::say::{self, Wide};

#[derive(Clone, Copy)]
enum Asked {
    Order,
    Differ,
    Minus,
    Far,
    Same,
    Above,
    Closer,
}

const NAMES: [(&str, Asked); 7] = [
    ("order", Asked::Order),
    ("differ", Asked::Differ),
    ("minus", Asked::Minus),
    ("far", Asked::Far),
    ("same", Asked::Same),
    ("above", Asked::Above),
    ("closer", Asked::Closer),
];

// An operand as 32 bytes: of a longer one the first, behind a shorter one 0, or in a room that stays what lay there before. And as
// a key: 0 where it has not 32 bytes.
#[derive(Clone, Copy)]
struct Operand {
    bytes: [u8; 32],
    key: Key,
}

impl Operand {
    // Of an operand of so many bytes, with what is to stand behind it.
    fn of(room: &[u8], len: usize) -> Operand {
        let mut bytes = [0; 32];
        for (byte, laid) in bytes.iter_mut().zip(room.iter()) {
            *byte = *laid;
        }
        let key = if len == 32 {
            key::key_at(&bytes, 0)
        } else {
            Key {
                a: 0,
                b: 0,
                c: 0,
                d: 0,
            }
        };
        Operand { bytes, key }
    }

    fn in_line(line: &mut Line<'_>, i: usize) -> Operand {
        let given = line.peek(i);
        Operand::of(given, given.len())
    }

    fn in_room(text: &[u8], rooms: &mut Rooms, i: usize) -> Operand {
        let len = rooms.line(text).bytes(i).len();
        Operand::of(&rooms.room, len)
    }

    fn aside(text: &[u8], rooms: &mut Rooms, i: usize) -> Operand {
        let len = rooms.line(text).aside(i).len();
        Operand::of(&rooms.side, len)
    }
}

fn word_of(order: Ordering) -> &'static str {
    match order {
        Ordering::Less => "less",
        Ordering::Equal => "same",
        Ordering::Greater => "more",
    }
}

// `order KEY KEY`: of the two in hand, and of the two where they lie.
fn order<W: Write>(x: &Operand, y: &Operand, out: &mut W) -> io::Result<()> {
    let in_hand = word_of(key::compare(x.key, y.key));
    let as_they_lie = word_of(key::order_at(&x.bytes, 0, &y.bytes, 0));
    write!(out, "{in_hand} {as_they_lie}")
}

// `closer TARGET KEY KEY`: is the first key taken before the second?
fn closer(target: Key, k: Key, j: Key) -> bool {
    let d = ring::how_far(target, k);
    let e = ring::how_far(target, j);
    ring::is_closer(target, k, d, j, e)
}

fn say_key<W: Write>(key: Key, out: &mut W) -> io::Result<()> {
    let key = Wide(key);
    write!(out, "{key}")
}

// What is asked of two keys: their order, their differences, whether they are the same, and how they lie; false where it is asked
// of three. `above OWN KEY`: is the key above our own?
fn of_two<W: Write>(asked: Asked, x: &Operand, y: &Operand, out: &mut W) -> io::Result<bool> {
    match asked {
        Asked::Order => order(x, y, out)?,
        Asked::Differ => say_key(key::difference(x.key, y.key), out)?,
        Asked::Minus => say_key(key::minus(x.key, y.key), out)?,
        Asked::Far => say_key(ring::how_far(x.key, y.key), out)?,
        Asked::Same => say::yes(key::is_same(x.key, y.key), out)?,
        Asked::Above => say::yes(ring::is_above(&x.bytes, &y.bytes, 0), out)?,
        Asked::Closer => return Ok(false),
    }
    Ok(true)
}

pub(crate) fn answer<W: Write>(line: &mut Line<'_>, out: &mut W) -> io::Result<bool> {
    let Some(asked) = line.named(&NAMES) else {
        return Ok(false);
    };
    let x = Operand::in_line(line, 1);
    let y = Operand::in_line(line, 2);
    if !of_two(asked, &x, &y, out)? {
        say::yes(closer(x.key, y.key, Operand::in_line(line, 3).key), out)?;
    }
    Ok(true)
}

// The same in rooms that stay: the second operand stands aside, and a line of another name leaves its operands there too.
pub(crate) fn answer_in<W: Write>(text: &[u8], rooms: &mut Rooms, out: &mut W) -> io::Result<bool> {
    let x = Operand::in_room(text, rooms, 1);
    let y = Operand::aside(text, rooms, 2);
    let Some(asked) = rooms.line(text).named(&NAMES) else {
        return Ok(false);
    };
    if !of_two(asked, &x, &y, out)? {
        let third = Operand::in_room(text, rooms, 3);
        say::yes(closer(x.key, y.key, third.key), out)?;
    }
    Ok(true)
}
