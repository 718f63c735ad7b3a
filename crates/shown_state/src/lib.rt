// What the program `shown` says around the records of a night: whose it was, what the gauge kept, how often each answer was
// given. Used by it alone.
#![tactic(auto)]

pub mod state;
pub mod totals;
pub mod whose;
