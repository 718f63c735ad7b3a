// What the one writer of `wire_whole` is handed: the rows of the messages' tables, and pieces.
#![tactic(auto)]

mod pieces;
mod rows;

pub use pieces::{first_piece, lookup_bytes, no_piece, second_piece, spelled_bytes, spelled_piece};
pub use rows::{
    ack_rows, advertise_rows, authority_rows, flood_rows, inquire_rows, lookup_rows, request_rows,
    solicit_rows,
};
