// An AUTHORITY that was read, written again with another payload.
#![tactic(auto)]

mod payload;

pub use payload::write_payload;
