// Tells why a record was named for a LOOKUP (document 02, request 5). Standard input is a record of kind 4, as a trace
// begins with, the length of a cache in 2 bytes, little-endian, the cache, and a LOOKUP up to the end. Two lines are
// written: the record, and the reason; or the number of a refusal.
//
// That the bytes are those of standard input, and that the text went out, is not proved, nor can it be. What is between them
// is: the text is that of the bytes (specs/Input.antt, Text.antt).
#![tactic(auto)]

mod line;

ghost use Rattle.std.specs.Prelude.{◌≡◌, ◌+◌, ◌≤◌, length, get_or, take, drop};
ghost use Rattle.octet.specs.Part.{part};
ghost use Rattle.named.specs.Call.{name_call};
ghost use Rattle.named.specs.Spots.{choice_told, Placed};
ghost use Rattle.why.specs.Text.{text_of};
ghost use Rattle.why.specs.Input.{first_of, behind_of, told_behind, why_text};

use named::Choice;

// The first record, the longest cache that its length can say, and a datagram of one byte more than a good one may have:
// what stands behind that is not read, and changes no answer.
const INPUT: usize = 66876;

// What is named, and why.
fn put_choice<'a>(out: &mut [u8], own: &'a [u8], cache: &'a [u8], choice: Choice) -> usize
    requires { (256 ≤ length out.old) × Placed own.now cache.now choice }
    ensures out_after { take result out.new ≡ text_of (choice_told own.now cache.now choice) }
    ensures upper_bound { result ≤ length out.old }
{
    let chosen = choice.chosen;
    let other = choice.other;
    let reason = choice.reason;
    let record = named::record_at(own, cache, chosen);
    let next = named::record_at(own, cache, other);
    let at = line::put_record(out, record);
    line::put_reason(out, at, reason, next)
}

fn put_named<'a>(
    out: &mut [u8],
    own: &'a [u8],
    cache: &'a [u8],
    major: u8,
    datagram: &[u8],
) -> usize
    requires { 256 ≤ length out.old }
    ensures out_after { take result out.new
        ≡ text_of (name_call own.now cache.now major datagram.now) }
    ensures upper_bound { result ≤ length out.old }
{
    match named::name(own, cache, major, datagram) {
        Err(number) => line::put_number(out, number),
        Ok(choice) => put_choice(out, own, cache, choice),
    }
}

// Behind a good first record: the cache and the datagram.
fn put_behind<'a>(out: &mut [u8], first: &'a [u8], rest: &'a [u8]) -> usize
    requires { (256 ≤ length out.old) × (106 ≤ length first.now) }
    ensures out_after { take result out.new ≡ text_of (told_behind first.now rest.now) }
    ensures upper_bound { result ≤ length out.old }
{
    if rest.len() < 2 {
        return line::put_number(out, 16);
    }
    let size = octet::read_u16_le(rest, 0) as usize;
    if rest.len() - 2 < size {
        return line::put_number(out, 16);
    }
    let end = 2 + size;
    put_named(out, &first[6..106], &rest[2..end], first[4], &rest[end..])
}

// Where the first record ends: as its length says, or with the input.
fn first_end(input: &[u8]) -> usize
    ensures upper_bound { result ≤ length input.now }
    ensures input_value { take result input.now ≡ first_of input.now }
    ensures input_value_2 { drop result input.now ≡ behind_of input.now }
{
    let len = input.len();
    if len < 2 {
        return len;
    }
    let told = octet::read_u16_le(input, 0) as usize;
    if len - 2 < told {
        return len;
    }
    2 + told
}

// The text for all that was read, put at the start of a slice. Answers where it ends.
fn answer(input: &[u8], out: &mut [u8]) -> usize
    requires { 256 ≤ length out.old }
    ensures out_after { take result out.new ≡ why_text input.now }
    ensures upper_bound { result ≤ length out.old }
{
    if input.len() == 0 {
        return line::put_number(out, 17);
    }
    let end = first_end(input);
    let first = &input[..end];
    let number = trace::fault_of(0, first);
    if number != 0 {
        return line::put_number(out, number);
    }
    put_behind(out, first, &input[end..])
}

fn main() {
    let mut input = [0u8; INPUT];
    let mut out = [0u8; line::TEXT];
    let len = io::read_full(0, &mut input);
    let end = answer(&input[..len], &mut out);
    if !io::write_all(1, &out[..end]) {
        io::write_all(2, b"standard output can't be written: this is not all\n");
    }
}
