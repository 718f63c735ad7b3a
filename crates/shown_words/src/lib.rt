// What the program `shown` has words for: messages, answers, keys. Of these `overnight` uses the names.
#![tactic(auto)]

pub mod message;
pub mod names;
pub mod words;
