// The cache: C records of 100 bytes in lent memory, changed in place. Each call tests what is lent and refuses it with
// a number of document 01; the functions that crates above use on memory already tested ask for its form.
#![tactic(auto)]

mod calls;
mod learning;
mod place;
mod shape;

pub use calls::{Searched, learn_record, memory, remove_key, search_key};
pub use learning::{Change, learn, remove};
pub use place::find;
pub use shape::form;
