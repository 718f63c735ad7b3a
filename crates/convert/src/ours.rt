// The old form of the own records: as that of today, of old records.
ghost use Rattle.std.specs.Prelude.{◌≡◌, ◌&&◌, ◌+◌, ◌*◌, ◌≤◌, leb, length};
ghost use Rattle.octet.specs.Part.{part};
ghost use Rattle.record.specs.Record.{key_of};
ghost use Rattle.own.specs.Low.{low_at};
ghost use Rattle.convert.specs.Old.{old_record_form, old_own_form};

use crate::old::is_formed;

// Has place i an old record with a key above the one before it?
fn follows(own: &[u8], i: usize) -> bool
    requires { 100 * i + 100 ≤ length own.now }
    ensures { result ≡ old_record_form (part (100 * i) 100 own.now)
        && leb (low_at own.now i) (key_of (part (100 * i) 100 own.now)) }
{
    if !is_formed(own, record::RECORD_LEN * i) {
        return false;
    }
    own::above_before(own, i)
}

// Are the own records in the old form?
pub(crate) fn form(own: &[u8]) -> bool
    ensures { result ≡ old_own_form own.now }
{
    let size = own.len();
    if size % record::RECORD_LEN != 0 {
        return false;
    }
    if size < record::RECORD_LEN {
        return false;
    }
    if 400 < size {
        return false;
    }
    let n = size / record::RECORD_LEN;
    for i in 0..n {
        if !follows(own, i) {
            return false;
        }
    }
    true
}
