// What the programs read with and write to, as they take no memory: input up to an end, a writer with room of its own, and
// the columns of a line.
#![tactic(auto)]

mod columns;
mod input;
mod roomy;

pub use columns::Columns;
pub use input::read_full;
pub use roomy::Roomy;
