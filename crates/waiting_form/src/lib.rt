// The waiting table tested: its form, and the tick on memory that nobody has tested.
#![tactic(auto)]

mod call;
mod place;
mod tested;

pub use call::{Answer, tick};
pub use place::{is_fresh, zero_record};
pub use tested::{count_used, form, key_again};
