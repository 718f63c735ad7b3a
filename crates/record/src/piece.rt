// A piece of one slice beside a piece of another.
ghost use Rattle.std.specs.Prelude.{◌≡◌, ◌+◌, ◌≤◌, length};
ghost use Rattle.octet.specs.Part.{part, same, splice};

// Have two pieces of one length the same bytes?
pub fn same_piece(s: &[u8], i: usize, d: &[u8], j: usize, n: usize) -> bool
    requires n_in_bounds { i + n ≤ length s.now }
    requires n_in_bounds_2 { j + n ≤ length d.now }
    ensures { result ≡ same (part i n s.now) (part j n d.now) }
{
    let s_end = i + n;
    let d_end = j + n;
    octet::equal(&s[i..s_end], &d[j..d_end])
}

// Copies a piece of one slice into another.
pub fn copy_piece(dst: &mut [u8], at: usize, d: &[u8], start: usize, n: usize)
    requires n_in_bounds { at + n ≤ length dst.old }
    requires n_in_bounds_2 { start + n ≤ length d.now }
    ensures { dst.new ≡ splice at (part start n d.now) dst.old }
{
    let end = start + n;
    runs::copy_to(dst, at, &d[start..end]);
}
