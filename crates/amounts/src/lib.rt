// What was measured at a pond, as text: a depth in metres, litres, a balance of them. Used by the programs `ponds` and `shown`.
#![tactic(auto)]

pub mod balance;
pub mod depth;
pub mod number;
