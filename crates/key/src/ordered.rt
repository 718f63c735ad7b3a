// The order of keys: of two in hand, and of two where they lie.
ghost use Rattle.std.specs.Prelude.{◌≡◌, ◌+◌, ◌≤◌, length, ◌==◌, nat_lt};
ghost use Rattle.key.specs.Number.{number, key_at, order_of};

use crate::Key;
use std::cmp::Ordering;

// How one key, or one difference, stands to another.
pub fn compare(x: Key, y: Key) -> Ordering
    ensures { result ≡ order_of (number x) (number y) }
{
    x.cmp(&y)
}

// Is one key, or one difference, less than another?
pub fn is_less(x: Key, y: Key) -> bool
    ensures { result ≡ nat_lt (number x) (number y) }
{
    x < y
}

// Are two keys the same?
pub fn is_same(x: Key, y: Key) -> bool
    ensures { result ≡ (number x == number y) }
{
    x == y
}

// How the key at a place of one slice stands to that at a place of another: word by word, as far as they are the same.
pub fn order_at(s: &[u8], a: usize, t: &[u8], b: usize) -> Ordering
    requires a_in_bounds { a + 32 ≤ length s.now }
    requires b_in_bounds { b + 32 ≤ length t.now }
    ensures { result ≡ order_of (key_at a s.now) (key_at b t.now) }
{
    for k in 0..4 {
        let x = octet::read_u64(s, a + 8 * k);
        let y = octet::read_u64(t, b + 8 * k);
        if x != y {
            return x.cmp(&y);
        }
    }
    Ordering::Equal
}

// Is the key at a place of one slice less than that at a place of another? The first word that differs says it. The
// form test asks it of each record, and the compiler puts it there for as long as nothing else calls it.
pub fn less_at(s: &[u8], a: usize, t: &[u8], b: usize) -> bool
    requires a_in_bounds { a + 32 ≤ length s.now }
    requires b_in_bounds { b + 32 ≤ length t.now }
    ensures { result ≡ nat_lt (key_at a s.now) (key_at b t.now) }
{
    for word in 0..4 {
        let x = octet::read_u64(s, a + 8 * word);
        let y = octet::read_u64(t, b + 8 * word);
        if x != y {
            return x < y;
        }
    }
    false
}

// Are the keys at two places the same? By words as the machine reads them, without a swap.
pub fn same_at(s: &[u8], a: usize, t: &[u8], b: usize) -> bool
    requires a_in_bounds { a + 32 ≤ length s.now }
    requires b_in_bounds { b + 32 ≤ length t.now }
    ensures { result ≡ (key_at a s.now == key_at b t.now) }
{
    octet::equal_words(s, a, t, b, 4)
}
