// Two caches in form, walked side by side in key order: what changed from one to the other (document 02, request 10) is counted, and written.
#![tactic(auto)]

mod merge;
mod written;

pub use merge::count;
pub use written::{CHANGE_LEN, write};
