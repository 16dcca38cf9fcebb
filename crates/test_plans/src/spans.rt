// Which operator a byte of a plan belongs to, by brackets alone.
use crate::letters::byte_at;

// How many brackets are open behind a byte.
fn open_after(open: usize, byte: u8) -> usize {
    match byte {
        b'(' => open.wrapping_add(1),
        b')' => open.wrapping_sub(1),
        _ => open,
    }
}

// The place of the comma of the operator whose letter stands at a place.
pub fn comma_of(text: &[u8], letter: usize) -> usize {
    let mut open = 0;
    for at in letter..text.len() {
        let byte = text[at];
        open = open_after(open, byte);
        if open == 1 && byte == b',' {
            return at;
        }
    }
    text.len()
}

// How many brackets that were opened before a place are closed from there up to another.
pub fn closed_between(text: &[u8], from: usize, to: usize) -> usize {
    let mut open = 0;
    let mut closed: usize = 0;
    for at in from..to {
        let byte = byte_at(text, at);
        if open == 0 && byte == b')' {
            closed = closed.wrapping_add(1);
        } else {
            open = open_after(open, byte);
        }
    }
    closed
}

// The place of the letter of the operator around a place that has so many others around it inside.
pub fn around(text: &[u8], place: usize, inside: usize) -> usize {
    let mut closed = inside;
    for at in (0..place).rev() {
        match byte_at(text, at) {
            b'(' if closed == 0 => return at.wrapping_sub(1),
            b'(' => closed = closed.wrapping_sub(1),
            b')' => closed = closed.wrapping_add(1),
            _ => {}
        }
    }
    0
}
