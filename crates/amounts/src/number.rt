// The digits of a whole number, put in place at once, where write! pads byte by byte.

// Up to a place in a line; how many they are. None where the line does not reach so far.
pub fn put(line: &mut [u8], end: usize, number: u64) -> usize {
    let Some(field) = line.get_mut(..end) else {
        return 0;
    };
    let mut left = number;
    let mut count: usize = 0;
    for digit in field.iter_mut().rev() {
        *digit = b'0' + (left % 10) as u8;
        left /= 10;
        count = count.saturating_add(1);
        if left == 0 {
            return count;
        }
    }
    count
}
