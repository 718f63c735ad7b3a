// Differences of keys in 256 bits: round the ring, and on the line, what the old gauge kept in four bytes.
ghost use Rattle.std.specs.Prelude.{◌≡◌, ◌+◌, ◌-◌, ◌*◌, ◌^◌, ◌≤◌};
ghost use Rattle.key.specs.Number.{number, distance};
ghost use Rattle.key.specs.Around.{up};

use crate::Key;
use crate::ordered::is_less;

// A word of a difference, and what was borrowed for it, 0 or 1.
#[derive(Clone, Copy)]
struct Step {
    word: u64,
    borrow: u64,
}

// x less y and less what was borrowed: the sum that may wrap, and what it means.
fn sub_word(x: u64, y: u64, borrow: u64) -> Step
    requires { borrow ≤ 1 }
    ensures { (result.word + y + borrow ≡ x + result.borrow * 2 ^ 64) × (result.borrow ≤ 1) }
{
    let part = x.wrapping_sub(y);
    let word = part.wrapping_sub(borrow);
    if x < y {
        return Step { word, borrow: 1 };
    }
    if part < borrow {
        return Step { word, borrow: 1 };
    }
    Step { word, borrow: 0 }
}

// x less y, round the ring: what is borrowed at the last word is let go.
pub fn minus(x: Key, y: Key) -> Key
    ensures { number result ≡ up (number y) (number x) }
{
    let d = sub_word(x.d, y.d, 0);
    let c = sub_word(x.c, y.c, d.borrow);
    let b = sub_word(x.b, y.b, c.borrow);
    let a = sub_word(x.a, y.a, b.borrow);
    Key {
        a: a.word,
        b: b.word,
        c: c.word,
        d: d.word,
    }
}

// The larger of two keys less the smaller.
pub fn difference(x: Key, y: Key) -> Key
    ensures { number result ≡ distance (number x) (number y) }
{
    if is_less(x, y) {
        return minus(y, x);
    }
    minus(x, y)
}
