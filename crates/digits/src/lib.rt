// Numbers in decimal and bytes in hexadecimal, put at a place of a slice: each digit is promised.
#![tactic(auto)]

ghost use Rattle.std.specs.Prelude.{◌≡◌, ◌+◌, ◌*◌, ◌≤◌, ◌<◌, length};
ghost use Rattle.octet.specs.Part.{splice};
ghost use Rattle.digits.specs.Digits.{decimal, hex_digit, hex_of};

// Puts a number's digits at a place, and answers where they end.
pub fn put_decimal(out: &mut [u8], at: usize, n: u64) -> usize
    requires { at + 20 ≤ length out.old }
    ensures value { result ≡ at + length (decimal n) }
    ensures upper_bound { result ≤ at + 20 }
    ensures out_after { out.new ≡ splice at (decimal n) out.old }
{
    let mut digits = [0u8; 20];
    let k = io::decimal(n, &mut digits);
    runs::copy_to(out, at, &digits[..k]);
    at + k
}

fn hex_digit(n: u8) -> u8
    requires { n < 16 }
    ensures { result ≡ hex_digit n }
{
    if n < 10 {
        return 48 + n;
    }
    87 + n
}

// Puts two digits for each byte at a place, and answers where they end.
pub fn put_hex(out: &mut [u8], at: usize, s: &[u8]) -> usize
    requires { at + 2 * length s.now ≤ length out.old }
    ensures value { result ≡ at + 2 * length s.now }
    ensures out_after { out.new ≡ splice at (hex_of s.now) out.old }
{
    for i in 0..s.len() {
        let byte = s[i];
        let place = at + 2 * i;
        out[place] = hex_digit(byte / 16);
        out[place + 1] = hex_digit(byte % 16);
    }
    at + 2 * s.len()
}
