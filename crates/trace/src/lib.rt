// A recorded night as bytes: its records are read one by one, and each is good or bad.
#![tactic(auto)]

mod fault;
mod input;

pub use fault::{fault_of, is_end};
pub use input::next_record;

// A record, with its length, has this many bytes at most.
pub const RECORD: usize = 65537;
