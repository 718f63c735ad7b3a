// Runs of bytes in a slice: copied, cleared, moved, inserted, removed. Plain loops from the right end, of which the
// compiler makes moves of many bytes at once.
//
// Each function asks that its places lie within the slice, which its callers have tested, and gives the whole slice at
// exit, by `splice` and `part` of the crate octet.
#![tactic(auto)]

ghost use Rattle.std.specs.Prelude.{◌≡◌, ◌+◌, ◌-◌, ◌≤◌, ◌++◌, length, replicate};
ghost use Rattle.octet.specs.Part.{part, splice};

mod rows;

use rows::{lift, shift};

// Copies the whole of `src` into `dst`, from a place on.
pub fn copy_to(dst: &mut [u8], at: usize, src: &[u8])
    requires { at + length src.now ≤ length dst.old }
    ensures { dst.new ≡ splice at src.now dst.old }
{
    for i in 0..src.len() {
        dst[at + i] = src[i];
    }
}

// Copies N bytes from a place of one slice to a place of another: by way of bytes of its own, so that the compiler need
// not ask whether the two overlap.
pub fn copy_block<const N: usize>(dst: &mut [u8], at: usize, src: &[u8], from: usize)
    requires at_in_bounds { at + N ≤ length dst.old }
    requires from_in_bounds { from + N ≤ length src.now }
    ensures { dst.new ≡ splice at (part from N src.now) dst.old }
{
    let mut held = [0u8; N];
    copy_to(&mut held, 0, &src[from..from + N]);
    copy_to(dst, at, &held);
}

// Clears `n` bytes from a place on.
pub fn clear(s: &mut [u8], at: usize, n: usize)
    requires { at + n ≤ length s.old }
    ensures { s.new ≡ splice at (replicate n 0) s.old }
{
    for i in 0..n {
        s[at + i] = 0;
    }
}

// Moves `n` bytes down, from a place to one at or before it: from the front, so that no byte is lost in an overlap.
pub fn move_down(s: &mut [u8], from: usize, to: usize, n: usize)
    requires to_le_from { to ≤ from }
    requires n_in_bounds { from + n ≤ length s.old }
    ensures { s.new ≡ splice to (part from n s.old) s.old }
{
    if from - to == 100 {
        shift::<100>(&mut s[to..], n);
        return;
    }
    if from - to == 140 {
        shift::<140>(&mut s[to..], n);
        return;
    }
    for i in 0..n {
        s[to + i] = s[from + i];
    }
}

// Moves `n` bytes up, from a place to one at or after it: from the back.
pub fn move_up(s: &mut [u8], from: usize, to: usize, n: usize)
    requires from_le_to { from ≤ to }
    requires n_in_bounds { to + n ≤ length s.old }
    ensures { s.new ≡ splice to (part from n s.old) s.old }
{
    if to - from == 100 {
        lift::<100>(&mut s[from..], n);
        return;
    }
    if to - from == 140 {
        lift::<140>(&mut s[from..], n);
        return;
    }
    for i in (0..n).rev() {
        s[to + i] = s[from + i];
    }
}

// Puts the whole of `src` in at a place: what stands from the place up to `end` moves up behind it.
pub fn insert(s: &mut [u8], at: usize, end: usize, src: &[u8])
    requires at_le_end { at ≤ end }
    requires src_in_bounds { end + length src.now ≤ length s.old }
    ensures { s.new
        ≡ splice at (src.now ++ part at (end - at) s.old) s.old }
{
    let n = src.len();
    move_up(s, at, at + n, end - at);
    copy_to(s, at, src);
}

// Takes `n` bytes at a place out: what stands behind them, up to `end`, moves down, and the last `n` are cleared.
pub fn remove(s: &mut [u8], at: usize, n: usize, end: usize)
    requires n_bound { at + n ≤ end }
    requires end_in_bounds { end ≤ length s.old }
    ensures { s.new
        ≡ splice at (part (at + n) (end - (at + n)) s.old ++ replicate n 0) s.old }
{
    let from = at + n;
    let rest = end - from;
    move_down(s, from, at, rest);
    clear(s, at + rest, n);
}
