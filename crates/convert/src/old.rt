// A record in the old form: one to four addresses, the unused ones zero.
ghost use Rattle.std.specs.Prelude.{◌≡◌, ◌+◌, ◌≤◌, length};
ghost use Rattle.octet.specs.Part.{part};
ghost use Rattle.convert.specs.Old.{old_record_form};

// Are the 100 bytes at a place a record in the old form? Count and zero byte are one number. What is unused is looked at from the end on, so
// that each count shares the tests of the next.
pub(crate) fn is_formed(s: &[u8], at: usize) -> bool
    requires { at + 100 ≤ length s.now }
    ensures { result ≡ old_record_form (part at 100 s.now) }
{
    let count = octet::read_u16_le(s, at + 34);
    if 4 < count {
        return false;
    }
    if count == 4 {
        return true;
    }
    if !octet::zero_pair(s, at + 84) {
        return false;
    }
    if count == 3 {
        return true;
    }
    if !octet::zero_pair(s, at + 68) {
        return false;
    }
    if count == 2 {
        return true;
    }
    if !octet::zero_pair(s, at + 52) {
        return false;
    }
    if count == 1 {
        return true;
    }
    false
}
