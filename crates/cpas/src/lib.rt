// Our CPAs as they are lent, one for each own record: whether they are in form, and the one of a place.
#![tactic(auto)]

ghost use Rattle.std.specs.Prelude.{◌≡◌, true, ℕ, ◌+◌, ◌≤◌, ◌<◌, length, drop};
ghost use Rattle.cpas.specs.Cpas.{cpa_size, cpa_form, cpas_form, cpa_of};

// How long the CPA is whose length stands at a place.
fn size_at(cpas: &[u8], at: usize) -> usize
    requires { at + 2 ≤ length cpas.now }
    ensures { (result ≡ cpa_size (drop at cpas.now)) × (result < 65536) }
{
    octet::read_u16_le(cpas, at) as usize
}

// Does a CPA stand at the place, whole?
fn is_cpa(cpas: &[u8], at: usize) -> bool
    requires { at ≤ length cpas.now }
    ensures { result ≡ cpa_form (drop at cpas.now) }
{
    let room = cpas.len() - at;
    if room < 2 {
        return false;
    }
    let size = size_at(cpas, at);
    (1 <= size) & (size <= 1024) & (2 + size <= room)
}

// Are they n, one behind the other, and nothing after?
pub fn cpas_form(cpas: &[u8], n: usize) -> bool
    ensures { result ≡ cpas_form n cpas.now }
{
    let mut at = 0;
    for _i in 0..n {
        if !is_cpa(cpas, at) {
            return false;
        }
        at += 2 + size_at(cpas, at);
    }
    at == cpas.len()
}

// The CPA of a place, of so many in form that it has one.
pub fn cpa_at<'a>(cpas: &'a [u8], place: usize) -> &'a [u8]
    requires { (n : ℕ) × (place < n) × (cpas_form n cpas.now ≡ true) }
    ensures { result.now ≡ cpa_of place cpas.now }
{
    let mut at = 0;
    for _i in 0..place {
        at += 2 + size_at(cpas, at);
    }
    let start = at + 2;
    let end = start + size_at(cpas, at);
    &cpas[start..end]
}
