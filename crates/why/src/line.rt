// The lines that the program writes.
ghost use Rattle.std.specs.Prelude.{◌≡◌, ◌++◌, ◌∷◌, [], ◌+◌, ◌*◌, ◌≤◌, length};
ghost use Rattle.octet.specs.Part.{part};
ghost use Rattle.record.specs.Record.{key_of};
ghost use Rattle.digits.specs.Digits.{hex_of};
ghost use Rattle.reason.specs.Reason.{because_of};
ghost use Rattle.why.specs.Text.{record_text, reason_text, key_text, number_text};
ghost use Rattle.why.specs.Puts.{Puts, HasKey};

use reason::Reason;

// Room for the two lines: the first has 126 bytes at most, the second 73.
pub(crate) const TEXT: usize = 256;

// Each puts its text at a place, and answers where it ends.
fn put(out: &mut [u8], at: usize, text: &[u8]) -> usize
    requires { at + length text.now ≤ length out.old }
    ensures { Puts at text.now out.old result out.new }
{
    runs::copy_to(out, at, text);
    at + text.len()
}

fn put_hex(out: &mut [u8], at: usize, s: &[u8]) -> usize
    requires { at + 2 * length s.now ≤ length out.old }
    ensures puts { Puts at (hex_of s.now) out.old result out.new }
    ensures value { result ≡ at + 2 * length s.now }
{
    digits::put_hex(out, at, s)
}

// A number on a line.
pub(crate) fn put_number(out: &mut [u8], n: u32) -> usize
    requires { 21 ≤ length out.old }
    ensures puts { Puts 0 (number_text n) out.old result out.new }
    ensures upper_bound { result ≤ 21 }
{
    let end = digits::put_decimal(out, 0, n as u64);
    put(out, end, b"\n")
}

// The key, the port and the address of a record, on a line.
pub(crate) fn put_record(out: &mut [u8], record: &[u8]) -> usize
    requires { (126 ≤ length out.old) × (52 ≤ length «record».now) }
    ensures puts { Puts 0 (record_text «record».now) out.old result out.new }
    ensures upper_bound { result ≤ 126 }
{
    let port = octet::read_u16(record, 32);
    let a = put(out, 0, b"record ");
    let b = put_hex(out, a, &record[0..32]);
    let c = put(out, b, b" ");
    let d = digits::put_decimal(out, c, port as u64);
    let e = put(out, d, b" ");
    let f = put_hex(out, e, &record[36..52]);
    put(out, f, b"\n")
}

// A word and the key that begins a slice, on a line.
fn put_key(out: &mut [u8], at: usize, word: &[u8], record: &[u8]) -> usize
    requires { (at + length word.now + 65 ≤ length out.old) × (32 ≤ length «record».now) }
    ensures puts { Puts at (key_text word.now (key_of «record».now)) out.old result out.new }
    ensures value { result ≡ at + length word.now + 65 }
{
    let a = put(out, at, word);
    let b = put_hex(out, a, &record[0..32]);
    put(out, b, b"\n")
}

// The reason, with the key of the other candidate where one goes with it.
pub(crate) fn put_reason(out: &mut [u8], at: usize, reason: Reason, other: &[u8]) -> usize
    requires { (at + 73 ≤ length out.old) × HasKey reason other.now }
    ensures puts { Puts at (reason_text (because_of reason (key_of other.now))) out.old result out.new }
    ensures upper_bound { result ≤ at + 73 }
{
    match reason {
        Reason::Only => put(out, at, b"only\n"),
        Reason::Target => put(out, at, b"target\n"),
        Reason::Tied => put_key(out, at, b"tied ", other),
        Reason::Nearest => put_key(out, at, b"nearest ", other),
    }
}
