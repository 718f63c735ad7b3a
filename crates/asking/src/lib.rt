// Whether the record of a route entry must be inquired about, whatever message the entry stands in.
#![tactic(auto)]

ghost use Rattle.std.specs.Prelude.{◌≡◌, ℕ, ◌+◌, ◌*◌, ◌<◌, ◌≤◌, true, List, length};
ghost use Rattle.octet.specs.Part.{part, same};
ghost use Rattle.record.specs.Entry.{entry_form, record_of};
ghost use Rattle.own.specs.Own.{own_form, own_keys};
ghost use Rattle.table.specs.Rows.{rows, any_of};
ghost use Rattle.kept.specs.Keys.{Rising, plain};
ghost use Rattle.cache.specs.Form.{keys_of};
ghost use Rattle.asking.specs.Asking.{inquire_room, must_ask, asks_for};
ghost use Rattle.asking.specs.Ids.{id_after};

// How many bytes an INQUIRE has.
pub const INQUIRE_LEN: usize = 76;

// The ID of an INQUIRE is one more than the given one; the last is followed by 0.
pub fn id_after(id: u32) -> u32
    ensures { result ≡ id_after id }
{
    std::num::wrapping_add_u32(id, 1)
}

// How many bytes the INQUIRE has, where one is sent.
pub fn inquire_room(opens: bool) -> usize
    ensures { result ≡ inquire_room opens }
{
    if opens { INQUIRE_LEN } else { 0 }
}

// Is the very record that the entry at a place names held? Only one with its key can be it.
fn holds_same(cache: &[u8], held: usize, d: &[u8], start: usize, len: usize) -> bool
    requires { (100 * held ≤ length cache.now) × (start + len ≤ length d.now)
        × (entry_form (part start len d.now) ≡ true) × Rising plain 0 (keys_of (rows 100 held cache.now)) }
    ensures { result ≡ any_of (λ (q : List ℕ). same q (record_of (part start len d.now)))
        (rows 100 held cache.now) }
{
    let end = start + len;
    match cache::find(cache, held, &d[start..end]) {
        Ok(i) => record::same_as_entry(cache, record::RECORD_LEN * i, d, start, len),
        Err(_) => false,
    }
}

// Must the record be inquired about?
pub fn must_ask(
    cache: &[u8],
    held: usize,
    waiting: &[u8],
    used: usize,
    d: &[u8],
    start: usize,
    len: usize,
) -> bool
    requires { (100 * held ≤ length cache.now) × (140 * used ≤ length waiting.now)
        × (start + len ≤ length d.now) × (entry_form (part start len d.now) ≡ true)
        × Rising plain 0 (keys_of (rows 100 held cache.now)) }
    ensures { result ≡ must_ask (rows 100 held cache.now) (rows 140 used waiting.now)
        (record_of (part start len d.now)) }
{
    if holds_same(cache, held, d, start, len) {
        return false;
    }
    waiting::find_inquiry(waiting, 0, used, d, start).is_none()
}

// Must the record be inquired about that the entry at a place names, of a message that may have none? None has no bytes; our
// own key there is passed over.
pub fn asks_for(
    own: &[u8],
    cache: &[u8],
    held: usize,
    waiting: &[u8],
    used: usize,
    d: &[u8],
    start: usize,
    len: usize,
) -> bool
    requires { (own_form own.now ≡ true) × (100 * held ≤ length cache.now) × (140 * used ≤ length waiting.now)
        × (start + len ≤ length d.now) × (0 < len → entry_form (part start len d.now) ≡ true)
        × Rising plain 0 (keys_of (rows 100 held cache.now)) }
    ensures { result ≡ asks_for (own_keys own.now) (rows 100 held cache.now)
        (rows 140 used waiting.now) (part start len d.now) }
{
    if len == 0 {
        return false;
    }
    if own::is_own(own, d, start) {
        return false;
    }
    must_ask(cache, held, waiting, used, d, start, len)
}
