// Writing a message, field by field: the one writer (`wire_whole`) goes over the rows of a message's table and the pieces of
// its fields. A field's contents stay where they are lent until they are written.
#![tactic(auto)]

mod check;
mod field;
mod header;

pub use check::pieces_ok;
pub use field::{put_head, put_piece};
pub use header::put_header;

// What the code knows of a kind of field.
#[derive(Clone, Copy)]
pub struct Row {
    pub number: u16,
    pub optional: bool,
    pub padded: bool,
    pub shape: wire_shapes::Shape,
}

// Which slice a piece is taken from: the bytes that the writer spells out, or one of two that are lent.
#[derive(Clone, Copy)]
pub enum Source {
    Spelled,
    First,
    Second,
}

// A field of a message: whether it is there, and where its contents stand.
#[derive(Clone, Copy)]
pub struct Piece {
    pub there: bool,
    pub source: Source,
    pub start: usize,
    pub len: usize,
}

// What writing gives: 0, 6 or 15, and how many bytes were written.
#[derive(Clone, Copy)]
pub struct Written {
    pub number: u8,
    pub length: usize,
}
