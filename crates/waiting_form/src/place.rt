// The test of one place.
ghost use Rattle.std.specs.Prelude.{◌≡◌, ◌&&◌, leb, eqb, length, get_or};
ghost use Rattle.octet.specs.Part.{all_zero};
ghost use Rattle.own.specs.Own.{own_keys};
ghost use Rattle.waiting.specs.Form.{place_form};
ghost use Rattle.waiting.specs.Place.{tries_of, place_record};

// Is the record of a place all zero?
pub fn zero_record(place: &[u8]) -> bool
    requires { length place.now ≡ 140 }
    ensures { result ≡ all_zero (place_record place.now) }
{
    let most = octet::zero_block(place, 40);
    let next = octet::zero_pair(place, 104);
    let last = octet::zero_pair(place, 120);
    let rest = octet::read_u32_le(place, 136);
    most & (next & (last & (rest == 0)))
}

// Has a place at most two tries left, and are the two bytes behind them zero? As one number with the kind below it.
pub fn is_fresh(place: &[u8]) -> bool
    requires { length place.now ≡ 140 }
    ensures { result ≡ leb (tries_of place.now) 2 && eqb (get_or place.now 6 0) 0
        && eqb (get_or place.now 7 0) 0 }
{
    octet::read_u32_le(place, 4) / 256 <= 2
}

// Is a used place in form?
pub(crate) fn place_formed(own: &[u8], place: &[u8]) -> bool
    requires { length place.now ≡ 140 }
    ensures { result ≡ place_form (own_keys own.now) place.now }
{
    if !is_fresh(place) {
        return false;
    }
    if place[4] == 1 {
        return zero_record(place);
    }
    if place[4] != 2 {
        return false;
    }
    if !record::is_formed(place, 40) {
        return false;
    }
    if !key::same_at(place, 40, place, 8) {
        return false;
    }
    let ours = own::is_own(own, place, 8);
    !ours
}
