// What standard input holds: bytes with their length in front, two bytes, least significant first, and what is behind them.

// The bytes with their length in front, and what is behind; neither where they are cut short.
pub(crate) fn split_first(s: &[u8]) -> (&[u8], &[u8]) {
    match s.split_first_chunk::<2>() {
        Some((length, rest)) => rest
            .split_at_checked(usize::from(u16::from_le_bytes(*length)))
            .unwrap_or((&[], &[])),
        None => (&[], s),
    }
}
