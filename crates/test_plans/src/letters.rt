// The bytes of plans.

// A byte of a text, or 0, which stands in no plan, past the end.
pub fn byte_at(text: &[u8], at: usize) -> u8 {
    text.get(at).copied().unwrap_or(0)
}

pub fn is_leaf(byte: u8) -> bool {
    matches!(byte, b'r' | b'w' | b's')
}

// A number with a digit more.
pub fn extend(value: usize, digit: u8) -> usize {
    (value % 65536) * 10 + usize::from(digit.wrapping_sub(b'0'))
}
