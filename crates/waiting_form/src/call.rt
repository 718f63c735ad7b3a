// The tick on memory that nobody has tested.
ghost use Rattle.std.specs.Prelude.{◌≡◌};
ghost use Rattle.waiting_form.specs.Call.{tick_handed, tick_call};

use crate::tested::form;

// A number of document 01, and how many IDs are listed.
#[derive(Clone, Copy)]
pub struct Answer {
    pub number: u32,
    pub count: usize,
}

// The waiting table after one second, and the list of IDs in the first bytes of the output. 1 where the own records or
// the table are out of form, 15 where the output is shorter than 64 bytes; then nothing changes.
pub fn tick(own: &[u8], table: &mut [u8], output: &mut [u8]) -> Answer
    ensures { tick_handed result.number result.count table.new output.new
        ≡ tick_call own.now table.old output.old }
{
    if !own::own_form(own) {
        return Answer {
            number: refusal::MEMORY,
            count: 0,
        };
    }
    let Some(used) = form(own, table) else {
        return Answer {
            number: refusal::MEMORY,
            count: 0,
        };
    };
    if output.len() < 64 {
        return Answer {
            number: refusal::ROOM,
            count: 0,
        };
    }
    let count = waiting::tick_places(table, used, output);
    Answer { number: 0, count }
}
