// The lines that the replay writes.
ghost use Rattle.std.specs.Prelude.{◌≡◌, ◌++◌, ◌+◌, ◌≤◌, length, take};
ghost use Rattle.night.specs.Replay.{line, line_of, at_end};
ghost use Rattle.replay.specs.Text.{text_of, texts_of};

// The longest line has 42 bytes: two numbers of 20 digits at most, a space, the line's end.

// Puts the line of record number `at` at a place, and answers where it ends.
fn put_line(out: &mut [u8], from: usize, at: u64, answer: u32) -> usize
    requires { from + 42 ≤ length out.old }
    ensures upper_bound { result ≤ from + 42 }
    ensures out_after { take result out.new ≡ take from out.old ++ text_of (line at answer) }
{
    let space = digits::put_decimal(out, from, at);
    out[space] = b' ';
    let end = digits::put_decimal(out, space + 1, answer as u64);
    out[end] = b'\n';
    end + 1
}

// The line of record number `at`, if it has one: the first has one only where it is bad.
pub(crate) fn put(out: &mut [u8], from: usize, at: u64, answer: u32) -> usize
    requires { from + 42 ≤ length out.old }
    ensures upper_bound { result ≤ from + 42 }
    ensures out_after { take result out.new ≡ take from out.old ++ texts_of (line_of at answer) }
{
    if at == 0 {
        if answer == 0 {
            return from;
        }
        return put_line(out, from, at, answer);
    }
    put_line(out, from, at, answer)
}

// What stands behind the last record: nothing, but for a trace of no record, whose kind 4 is missing.
pub(crate) fn put_end(out: &mut [u8], at: u64) -> usize
    requires { 42 ≤ length out.old }
    ensures upper_bound { result ≤ 42 }
    ensures out_after { take result out.new ≡ texts_of (at_end at) }
{
    if at == 0 {
        return put_line(out, 0, 0, 17);
    }
    0
}
