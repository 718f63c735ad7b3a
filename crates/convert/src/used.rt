// The old form of the waiting table: as that of today, of inquiries with old records.
ghost use Rattle.std.specs.Prelude.{◌≡◌, ◌*◌, ◌≤◌, length};
ghost use Rattle.own.specs.Own.{own_keys};
ghost use Rattle.table.specs.Rows.{rows};
ghost use Rattle.waiting.specs.Form.{place_by, places_by};
ghost use Rattle.convert.specs.Old.{old_record_form};
ghost use Rattle.convert.specs.Formed.{old_waiting_formed};

use crate::old::is_formed;

// Is a used place in the old form?
fn place_formed(own: &[u8], place: &[u8]) -> bool
    requires { length place.now ≡ 140 }
    ensures { result ≡ place_by old_record_form (own_keys own.now) place.now }
{
    let head = waiting_form::is_fresh(place);
    if place[4] == 1 {
        return head & waiting_form::zero_record(place);
    }
    if place[4] != 2 {
        return false;
    }
    let formed = is_formed(place, 40);
    let keyed = key::same_at(place, 40, place, 8);
    let ours = own::is_own(own, place, 8);
    head & (formed & keyed & !ours)
}

// Are the used places in the old form, the IDs rising and the inquiries' keys different?
fn places_formed(own: &[u8], table: &[u8], used: usize) -> bool
    requires { 140 * used ≤ length table.now }
    ensures { result
        ≡ places_by old_record_form (own_keys own.now) 0 (rows 140 used table.now) }
{
    let mut low: u64 = 0;
    for at in 0..used {
        let from = waiting::PLACE_LEN * at;
        let id = octet::read_u32_le(table, from) as u64;
        let formed = place_formed(own, &table[from..from + waiting::PLACE_LEN]);
        let again = waiting_form::key_again(table, used, at);
        if !(formed & (low <= id) & !again) {
            return false;
        }
        low = id + 1;
    }
    true
}

// How many places are used, where the table is in the old form for a gauge with these own records.
pub(crate) fn form(own: &[u8], table: &[u8]) -> Option<usize>
    ensures { result ≡ old_waiting_formed (own_keys own.now) table.now }
{
    if table.len() != waiting::WAITING_LEN {
        return None;
    }
    let used = waiting_form::count_used(table);
    let clear = octet::is_zero(&table[waiting::PLACE_LEN * used..waiting::WAITING_LEN]);
    let formed = places_formed(own, table, used);
    (clear & formed).then_some(used)
}
