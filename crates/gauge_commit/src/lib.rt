// What a call answers. What was planned for a datagram received, or for a FLOOD to send, is done in the crates
// commit_flood, commit_answer and commit_send; nothing there can refuse.
#![tactic(auto)]

ghost use Rattle.std.specs.Prelude.{◌≡◌, ◌<◌};
ghost use Rattle.gauge_commit.specs.Sending.{answer, lengths};

// What the first four calls answer: document 01's number, and two lengths or counts.
#[repr(C)]
#[derive(Clone, Copy)]
pub struct Answer {
    pub number: u32,
    pub first: u32,
    pub second: u32,
}

pub fn answer_of(number: u32, first: usize, second: usize) -> Answer
    requires { (first < 65536) × (second < 65536) }
    ensures { result ≡ answer number first second }
{
    Answer {
        number,
        first: first as u32,
        second: second as u32,
    }
}
