// Pieces, as the one writer takes them, and the bytes that it spells out.
ghost use Rattle.std.specs.Prelude.{◌≡◌};
ghost use Rattle.wire_write.specs.Rows.{spelled_piece, first_piece, second_piece, no_piece, spelled_bytes, lookup_bytes};

use wire_write::{Piece, Source};

pub fn spelled_piece(start: usize, len: usize) -> Piece
    ensures { result ≡ spelled_piece start len }
{
    Piece {
        there: true,
        source: Source::Spelled,
        start,
        len,
    }
}

pub fn first_piece(start: usize, len: usize) -> Piece
    ensures { result ≡ first_piece start len }
{
    Piece {
        there: true,
        source: Source::First,
        start,
        len,
    }
}

pub fn second_piece(start: usize, len: usize) -> Piece
    ensures { result ≡ second_piece start len }
{
    Piece {
        there: true,
        source: Source::Second,
        start,
        len,
    }
}

pub fn no_piece() -> Piece
    ensures { result ≡ no_piece }
{
    Piece {
        there: false,
        source: Source::Spelled,
        start: 0,
        len: 0,
    }
}

// The bytes that the writer spells out: acked ID at 0, split controls at 4, flags at 8 with a byte after them.
pub fn spelled_bytes(acked: u32, size: usize, high: u8, low: u8) -> [u8; 11]
    ensures { result ≡ spelled_bytes acked size high low }
{
    let a = (acked / 16777216 % 256) as u8;
    let b = (acked / 65536 % 256) as u8;
    let c = (acked / 256 % 256) as u8;
    let d = (acked % 256) as u8;
    let e = (size / 256 % 256) as u8;
    let f = (size % 256) as u8;
    [a, b, c, d, e, f, 0, 0, high, low, 0]
}

// LOOKUP's controls.
pub fn lookup_bytes(low: u8, precision: u16, criteria: u8, reason: u8) -> [u8; 8]
    ensures { result ≡ lookup_bytes low precision criteria reason }
{
    let high = (precision / 256 % 256) as u8;
    let last = (precision % 256) as u8;
    [0, low, high, last, criteria, reason, 0, 0]
}
