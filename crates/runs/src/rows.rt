// Rows of the two tables moved by one row: 100 bytes a row of the cache, 140 of the waiting table. With the distance as a
// number in the code, over a slice of its own, the compiler knows how the two runs overlap, and moves many bytes at once.
ghost use Rattle.std.specs.Prelude.{◌≡◌, ◌+◌, ◌≤◌, length};
ghost use Rattle.octet.specs.Part.{part, splice};

// Moves `n` bytes a row of R bytes down, to the front.
pub fn shift<const R: usize>(s: &mut [u8], n: usize)
    requires { R + n ≤ length s.old }
    ensures { s.new ≡ splice 0 (part R n s.old) s.old }
{
    for i in 0..n {
        s[i] = s[R + i];
    }
}

// Moves `n` bytes a row of R bytes up, from the front.
pub fn lift<const R: usize>(s: &mut [u8], n: usize)
    requires { R + n ≤ length s.old }
    ensures { s.new ≡ splice R (part 0 n s.old) s.old }
{
    for i in (0..n).rev() {
        s[R + i] = s[i];
    }
}
