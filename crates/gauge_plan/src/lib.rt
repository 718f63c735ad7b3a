// What all planning shares: whether what is lent is in form, and what a plan is. The plans of each message stand in the
// crates plan_flood, plan_answer, plan_send and plan_message; lent everything for reading, they decide every refusal.
#![tactic(auto)]

mod memory;
mod opening;

pub use memory::{Fit, hands_fit, is_own_formed, survey};
pub use opening::open_refusal;

// What is to be done with a datagram received: numbers and places, never a part of a slice.
#[derive(Clone, Copy)]
pub enum Plan {
    // Refused with the number.
    Refuse(u32),
    // A FLOOD with a route entry: whether an ACK is left out (D), its N, the ID it answers, whether an inquiry opens,
    // and where the entry stands.
    Flood {
        used: usize,
        silent: bool,
        n: bool,
        acked: u32,
        opens: bool,
        start: usize,
        len: usize,
    },
    // A FLOOD with a revocation.
    Revoke {
        held: usize,
        used: usize,
        silent: bool,
        n: bool,
        acked: u32,
    },
    // An AUTHORITY for the inquiry of a place.
    Learn {
        held: usize,
        used: usize,
        at: usize,
    },
    // An ACK for the flood of a place, with N or without.
    Free {
        held: usize,
        used: usize,
        at: usize,
        n: bool,
    },
    // An INQUIRE for one of our keys: the ID it answers, and the place of the key's own record.
    Certify {
        acked: u32,
        at: usize,
    },
    // A LOOKUP for a target that stands at a place of the datagram, and where its path stands: whether an inquiry opens,
    // and where the entry stands.
    Show {
        held: usize,
        used: usize,
        acked: u32,
        target: usize,
        path: usize,
        size: usize,
        opens: bool,
        start: usize,
        len: usize,
    },
}
