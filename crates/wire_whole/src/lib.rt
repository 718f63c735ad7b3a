// The one writer: a message of any type, over the rows of its table and the pieces of its fields.
#![tactic(auto)]

mod whole;

pub use whole::write_rows;
