// Readings from standard input.
use readings::Reading;
use std::io::Read;

// A reading has so many bytes at most: two of its length, and as many as they can say.
pub(crate) const READING: usize = 65537;

// The next reading: its length, and as many bytes as that says, if so many come. It is empty where the input has ended.
pub(crate) fn next_reading<'a, R: Read>(input: &mut R, room: &'a mut [u8; READING]) -> &'a [u8] {
    let mut length = [0u8; 2];
    let mut came = text::read_full(input, &mut length);
    room[..2].copy_from_slice(&length);
    if came == 2 {
        let told = usize::from(u16::from_le_bytes(length));
        came += text::read_full(input, &mut room[2..2 + told]);
    }
    &room[..came]
}

// Is it all there? Behind one that is cut short no other follows.
pub(crate) fn is_whole(packed: &[u8]) -> bool {
    match packed {
        [low, high, body @ ..] => body.len() == usize::from(u16::from_le_bytes([*low, *high])),
        _ => false,
    }
}

// How many bytes of a reading stand behind a length that is wrong, and were not looked at. Number 1 is document 02's for that.
pub(crate) fn unseen(packed: &[u8], found: Result<Reading, u32>) -> usize {
    match found {
        Err(1) => packed.len().saturating_sub(2),
        _ => 0,
    }
}
