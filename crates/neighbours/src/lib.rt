// Keys near one: the neighbour list round our own key, and the record closest to a target, of a cache in lent memory. The
// two calls test what is lent and refuse it with a number of document 01; the functions that crates above use on memory
// already tested ask for its form.
#![tactic(auto)]

mod listing;
mod nearest;

pub use listing::{Counts, neighbour_list, neighbours};
pub use nearest::{Sighted, Spot, closest, closest_record, record_at};
