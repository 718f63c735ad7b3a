// The fields of a datagram: number, length, contents, padding. A reading position is a value; each field read hands
// back the place of the next.
#![tactic(auto)]

mod opening;
mod position;

pub use opening::{is_opened, put_opening};

// A reading position: a place in the datagram.
#[derive(Clone, Copy)]
pub struct Cursor {
    pub at: usize,
}

// Where a field's contents start and how many bytes they are.
#[derive(Clone, Copy)]
pub struct Place {
    pub start: usize,
    pub len: usize,
}

// A field's number and length read at a position, its contents not looked at.
#[derive(Clone, Copy)]
pub enum Span {
    // Where the contents are, and the position past them and their padding.
    Whole(Place, Cursor),
    // Another number stands there, or nothing.
    Other,
    // The length is wrong or runs past the end.
    Cut,
}
