// Keys: 256-bit numbers, 32 bytes most significant first. In hand a key is four words by value, and so is a difference. How
// keys stand around our own and around a target is in the crate ring.
#![tactic(auto)]

mod ordered;
mod subtract;

ghost use Rattle.std.specs.Prelude.{◌≡◌, ◌+◌, ◌≤◌, length};
ghost use Rattle.key.specs.Number.{number, key_at};

pub use ordered::{compare, is_less, is_same, less_at, order_at, same_at};
pub use subtract::{difference, minus};

// The words of a key, or of a difference of two keys, most significant first: so keys stand to each other as their words do.
#[derive(Clone, Copy, PartialEq, Eq, PartialOrd, Ord)]
pub struct Key {
    pub a: u64,
    pub b: u64,
    pub c: u64,
    pub d: u64,
}

impl Key {
    // The number 0: no key, and no step.
    pub const ZERO: Key = Key {
        a: 0,
        b: 0,
        c: 0,
        d: 0,
    };
}

// The key whose 32 bytes stand at a place.
pub fn key_at(s: &[u8], at: usize) -> Key
    requires { at + 32 ≤ length s.now }
    ensures { number result ≡ key_at at s.now }
{
    let a = octet::read_u64(s, at);
    let b = octet::read_u64(s, at + 8);
    let c = octet::read_u64(s, at + 16);
    let d = octet::read_u64(s, at + 24);
    Key { a, b, c, d }
}
