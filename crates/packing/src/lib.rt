// Pond readings packed into bytes, and read from them.
#![tactic(auto)]

mod packing;
mod unpacking;

pub use packing::{pack, pack_allowed, pack_number};
pub use unpacking::{unpack, unpack_number};
