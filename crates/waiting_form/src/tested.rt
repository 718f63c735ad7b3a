// Is the waiting table in form?
ghost use Rattle.std.specs.Prelude.{◌≡◌, ◌+◌, ◌*◌, ◌≤◌, ◌<◌, length, drop};
ghost use Rattle.octet.specs.Part.{part};
ghost use Rattle.own.specs.Own.{own_keys};
ghost use Rattle.table.specs.Rows.{rows};
ghost use Rattle.waiting.specs.Form.{again, places_form, used_of};
ghost use Rattle.waiting_form.specs.Formed.{waiting_formed};

use crate::place::place_formed;
// How many places stand before the first free one.
pub fn count_used(table: &[u8]) -> usize
    requires { length table.now ≡ 2240 }
    ensures { result ≡ used_of table.now }
{
    for at in 0..16 {
        if table[waiting::PLACE_LEN * at + 4] == 0 {
            return at;
        }
    }
    16
}

// Is the place an inquiry, and one after it an inquiry for the same key?
pub fn key_again(table: &[u8], used: usize, at: usize) -> bool
    requires { (at < used) × (140 * used ≤ length table.now) }
    ensures { result
        ≡ again (part (140 * at) 140 table.now) (drop (at + 1) (rows 140 used table.now)) }
{
    let from = waiting::PLACE_LEN * at;
    if table[from + 4] != 2 {
        return false;
    }
    waiting::find_inquiry(table, at + 1, used, table, from + 8).is_some()
}

// Are the used places in form, the IDs rising and the inquiries' keys different?
fn places_formed(own: &[u8], table: &[u8], used: usize) -> bool
    requires { 140 * used ≤ length table.now }
    ensures { result ≡ places_form (own_keys own.now) 0 (rows 140 used table.now) }
{
    let mut low: u64 = 0;
    for at in 0..used {
        let from = waiting::PLACE_LEN * at;
        let id = octet::read_u32_le(table, from) as u64;
        if id < low {
            return false;
        }
        if !place_formed(own, &table[from..from + waiting::PLACE_LEN]) {
            return false;
        }
        if key_again(table, used, at) {
            return false;
        }
        low = id + 1;
    }
    true
}

// How many places are used, where the table is in form for a gauge with these own records.
pub fn form(own: &[u8], table: &[u8]) -> Option<usize>
    ensures { result ≡ waiting_formed (own_keys own.now) table.now }
{
    if table.len() != waiting::WAITING_LEN {
        return None;
    }
    let used = count_used(table);
    let clear = octet::is_zero(&table[waiting::PLACE_LEN * used..waiting::WAITING_LEN]);
    let formed = places_formed(own, table, used);
    (clear & formed).then_some(used)
}
