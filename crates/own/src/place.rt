// Whether a key is one of ours, and which.
ghost use Rattle.std.specs.Prelude.{◌≡◌, ◌+◌, ◌≤◌, ◌<◌, length};
ghost use Rattle.key.specs.Number.{key_at};
ghost use Rattle.own.specs.Own.{own_keys, own_records, is_own, IsOwn, own_place};

// How many own records are lent.
pub fn count(own: &[u8]) -> usize
    ensures { result ≡ length (own_records own.now) }
{
    own.len() / record::RECORD_LEN
}

// Is the key at a place that of one of so many own records?
fn is_any(own: &[u8], s: &[u8], at: usize) -> bool
    requires { at + 32 ≤ length s.now }
    ensures { result ≡ is_own (own_keys own.now) (key_at at s.now) }
{
    let n = own.len() / record::RECORD_LEN;
    for i in 0..n {
        if key::same_at(s, at, own, record::RECORD_LEN * i) {
            return true;
        }
    }
    false
}

// Is the key at a place one of ours? Mostly we have one.
pub fn is_own(own: &[u8], s: &[u8], at: usize) -> bool
    requires { at + 32 ≤ length s.now }
    ensures { result ≡ is_own (own_keys own.now) (key_at at s.now) }
{
    if own.len() == record::RECORD_LEN {
        return key::same_at(s, at, own, 0);
    }
    is_any(own, s, at)
}

// Which of ours the key at a place is.
pub fn place_of(own: &[u8], s: &[u8], at: usize) -> usize
    requires at_in_bounds { at + 32 ≤ length s.now }
    requires own { IsOwn (own_keys own.now) (key_at at s.now) }
    ensures value { result ≡ own_place (own_keys own.now) (key_at at s.now) }
    ensures upper_bound { result < length (own_records own.now) }
{
    let n = own.len() / record::RECORD_LEN;
    for i in 0..n {
        if key::same_at(s, at, own, record::RECORD_LEN * i) {
            return i;
        }
    }
    0
}
