// Which keys are ours: those of one to four own records, which are lent one after the other.
#![tactic(auto)]

mod form;
mod place;

pub use form::{above_before, own_form};
pub use place::{count, is_own, place_of};
