// The form of the own records: one to four, keys strictly increasing.
ghost use Rattle.std.specs.Prelude.{◌≡◌, ◌&&◌, ◌+◌, ◌*◌, ◌≤◌, leb, length};
ghost use Rattle.octet.specs.Part.{part};
ghost use Rattle.key.specs.Number.{key_at};
ghost use Rattle.record.specs.Record.{key_of, record_form};
ghost use Rattle.own.specs.Own.{own_form};
ghost use Rattle.own.specs.Low.{low_at};

// Is the key at place i of records above the one before it?
pub fn above_before(s: &[u8], i: usize) -> bool
    requires { 100 * i + 100 ≤ length s.now }
    ensures { result ≡ leb (low_at s.now i) (key_at (100 * i) s.now) }
{
    if i == 0 {
        return true;
    }
    let before = record::RECORD_LEN * (i - 1);
    let this = record::RECORD_LEN * i;
    key::less_at(s, before, s, this)
}

// Has place i a record in form with a key above the one before it?
fn follows(own: &[u8], i: usize) -> bool
    requires { 100 * i + 100 ≤ length own.now }
    ensures { result ≡ record_form (part (100 * i) 100 own.now)
        && leb (low_at own.now i) (key_of (part (100 * i) 100 own.now)) }
{
    if !record::is_formed(own, record::RECORD_LEN * i) {
        return false;
    }
    above_before(own, i)
}

// Are own records in form, so many as they may be? Mostly it is one, so this stands by itself, and the test of one in its callers.
#[inline(never)]
fn all_formed(own: &[u8]) -> bool
    ensures { result ≡ own_form own.now }
{
    let size = own.len();
    if size % record::RECORD_LEN != 0 {
        return false;
    }
    if size < record::RECORD_LEN {
        return false;
    }
    if 400 < size {
        return false;
    }
    let n = size / record::RECORD_LEN;
    for i in 0..n {
        if !follows(own, i) {
            return false;
        }
    }
    true
}

// Are the own records in form? Mostly it is one.
pub fn own_form(own: &[u8]) -> bool
    ensures { result ≡ own_form own.now }
{
    if own.len() == record::RECORD_LEN {
        return record::is_record(own);
    }
    all_formed(own)
}
