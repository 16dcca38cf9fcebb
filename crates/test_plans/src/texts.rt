// Texts to read, each built in a long buffer.
ghost use Rattle.std.specs.Prelude.{◌≤◌};

// Room for the text of 40,960 leaves.
pub const TEXT: usize = 262144;

// The longest word over an alphabet.
const LONGEST: usize = 9;

#[derive(Drop)]
pub struct Text {
    bytes: [u8; TEXT],
    used: usize,
    ghost within: { used ≤ 262144 },
}

// A byte of a recipe: an underscore stands for a blank, a tilde for a line feed, an exclamation mark for the byte 255.
fn byte_of(byte: u8) -> u8 {
    match byte {
        b'_' => b' ',
        b'~' => b'\n',
        b'!' => 255,
        _ => byte,
    }
}

// How many operators end before the i-th leaf of a tree, and how many begin there: as many as i is divisible by 2.
fn turns(i: usize) -> usize {
    i.trailing_zeros() as usize
}

impl Text {
    pub fn new() -> Text {
        Text {
            bytes: [0; TEXT],
            used: 0,
        }
    }

    pub fn bytes(&self) -> &[u8] {
        &self.bytes[..self.used]
    }

    pub fn clear(&mut self) {
        self.used = 0;
    }

    // A byte more, as long as there is room.
    pub fn push(&mut self, byte: u8) {
        if self.used < TEXT {
            self.bytes[self.used] = byte;
            self.used += 1;
        }
    }

    pub fn add(&mut self, bytes: &[u8]) {
        for byte in bytes {
            self.push(*byte);
        }
    }

    // A piece of a recipe.
    pub fn add_piece(&mut self, piece: &str) {
        for byte in piece.as_bytes() {
            self.push(byte_of(*byte));
        }
    }

    // The same piece over and over.
    pub fn repeat(&mut self, piece: &str, times: usize) {
        for _ in 0..times {
            self.add_piece(piece);
        }
    }

    // The word of a number over an alphabet: each word has one.
    pub fn spell(&mut self, alphabet: &[&str], number: usize) {
        let letters = alphabet.len();
        let mut left = number;
        for _ in 0..LONGEST {
            if left == 0 || letters == 0 {
                return;
            }
            self.add(alphabet[(left - 1) % letters].as_bytes());
            left = (left - 1) / letters;
        }
    }

    // The i-th leaf of a tree, of which two neighbours differ.
    fn add_leaf(&mut self, i: usize) {
        self.push(b"rws"[i % 3]);
        self.push(b"0123456789"[i % 10]);
    }

    // A tree of one operator: 2 to the power of `depth` leaves, all at this depth.
    pub fn tree(&mut self, opening: &str, depth: usize) {
        let one: usize = 1;
        self.repeat(opening, depth);
        self.add_leaf(0);
        for i in 1..one << (depth % 16) {
            self.repeat(")", turns(i));
            self.add_piece(",");
            self.repeat(opening, turns(i));
            self.add_leaf(i);
        }
        self.repeat(")", depth);
    }
}
