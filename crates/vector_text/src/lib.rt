// The lines of vectors: a name and operands in hexadecimal are read, answers are written. Used by the programs `vectors` and `vector_rooms`.
#![tactic(auto)]

pub mod line;
pub mod say;
