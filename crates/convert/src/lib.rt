// Memory of the time when a record could have four addresses, turned into the form of today (document 02, request 13).
#![tactic(auto)]

mod held;
mod old;
mod ours;
mod used;

ghost use Rattle.std.specs.Prelude.{◌≡◌};
ghost use Rattle.convert.specs.Convert.{convert_handed, convert_call};

// The cache and the waiting table with one address in each record. 1 where the own records, the cache or the table are not
// in the old form, of which the new one is a part; then nothing changes.
pub fn convert(own: &[u8], cache: &mut [u8], waiting: &mut [u8]) -> u32
    ensures { convert_handed result cache.new waiting.new
        ≡ convert_call own.now cache.old waiting.old }
{
    if !ours::form(own) {
        return refusal::MEMORY;
    }
    let Some(held) = held::form(own, cache) else {
        return refusal::MEMORY;
    };
    let Some(used) = used::form(own, waiting) else {
        return refusal::MEMORY;
    };
    cut::cut_records(cache, held);
    cut::cut_places(waiting, used);
    0
}
