// The waiting table: 16 places of 140 bytes, the used ones first, in the order of their IDs. Searched, opened, freed and
// ticked in place; each function asks for what its callers have tested, by the crate waiting_form.
#![tactic(auto)]

mod edit;
mod round;
mod seek;

pub use edit::{free, open};
pub use round::tick_places;
pub use seek::{find, find_inquiry, has_id};

// How many bytes a place has, and the table of 16.
pub const PLACE_LEN: usize = 140;

pub const WAITING_LEN: usize = 2240;

// What a place waits for: the ACK of a FLOOD, or the AUTHORITY of an inquiry.
pub const FLOOD: u8 = 1;

pub const INQUIRY: u8 = 2;

// The tries that a place opens with.
pub const TRIES: u8 = 2;
