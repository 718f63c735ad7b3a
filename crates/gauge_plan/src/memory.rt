// Whether the memory that every call is lent is in form.
ghost use Rattle.std.specs.Prelude.{◌≡◌};
ghost use Rattle.own.specs.Own.{own_form};
ghost use Rattle.gauge_plan.specs.Lent.{Memory, with_tables, Receive, handing};
ghost use Rattle.gauge_plan.specs.Memory.{memory_of, comes_fit};

// What memory in form holds: so many records, and so many used places.
#[derive(Clone, Copy)]
pub struct Fit {
    pub held: usize,
    pub used: usize,
}

// Are the own records in form? One function for all that ask it of a call: put in their places it costs more than the calls.
#[inline(never)]
pub fn is_own_formed(own: &[u8]) -> bool
    ensures { result ≡ own_form own.now }
{
    own::own_form(own)
}

// What is held, where own records, cache and waiting table are in form. Memory that is not lent may be any.
pub fn survey(own: &[u8], cache: &[u8], waiting: &[u8]) -> Option<Fit>
    ensures { (m : Memory) → result
        ≡ memory_of own.now (with_tables cache.now waiting.now m) }
{
    if !is_own_formed(own) {
        return None;
    }
    let Some(held) = cache::form(own, cache) else {
        return None;
    };
    let Some(used) = waiting_form::form(own, waiting) else {
        return None;
    };
    Some(Fit { held, used })
}

// Is there a CPA for each own record, and have nonce and key the lengths that document 01 gives them? All else that a
// datagram comes with may be any.
pub fn hands_fit(own: &[u8], cpas: &[u8], nonce: &[u8], key: &[u8]) -> bool
    ensures { (l : Receive) → result
        ≡ comes_fit (handing own.now cpas.now nonce.now key.now l) }
{
    let certified = cpas::cpas_form(cpas, own::count(own));
    certified & (nonce.len() == 16) & (key.len() == 32)
}
