// Plans at random, and damage to their texts. A plan is drawn byte by byte, with a stack of its open levels.
use crate::texts::Text;
use test_samples::draws::{below, next, stream};

// ---- shapes

#[derive(Clone, Copy)]
pub struct Shape {
    // How deep it may get, and how many operators it may have.
    pub deepest: usize,
    pub operators: usize,
    // Of 64 plans in a left operand so many are operators, and in a right one; of 16 operators so many are P's.
    pub left: usize,
    pub right: usize,
    pub parallels: usize,
    // Leaves are of the first so many letters of `rwsrrs`, at so many locations.
    pub letters: usize,
    pub locations: usize,
}

// Of 64 plans so many are operators, on the one side and on the other.
fn side_of(seed: usize, leaning: usize) -> usize {
    match below(seed, 3).wrapping_add(leaning) % 3 {
        0 => 32,
        1 => 3,
        _ => 62,
    }
}

fn locations_of(seed: usize) -> usize {
    match below(seed, 4) {
        0 => 1024,
        1 => 20,
        _ => 2,
    }
}

// A plan of at most so many operators, and up to 66 deep.
pub fn shape_of(seed: usize, operators: usize) -> Shape {
    let a = stream(seed, 1);
    let b = stream(seed, 2);
    Shape {
        deepest: below(a, 66).wrapping_add(1),
        operators,
        left: side_of(b, 0),
        right: side_of(b, below(next(b), 2).wrapping_add(1)),
        parallels: below(stream(seed, 3), 17),
        letters: below(stream(seed, 4), 6).wrapping_add(1),
        locations: locations_of(stream(seed, 5)),
    }
}

// ---- the draft

// More turns than a plan takes, and more levels than it has.
const TURNS: usize = 8192;

const LEVELS: usize = 128;

// The operand in which an open level stands.
#[derive(Clone, Copy, PartialEq, Eq)]
enum Operand {
    Left,
    Right,
}

// What is due: a plan, or what stands behind one.
#[derive(Clone, Copy, PartialEq, Eq)]
enum Due {
    Plan,
    Behind,
}

// The levels that are open, and how many operators there are; what is due; and the draws' state.
#[derive(Drop)]
struct Growth {
    depth: usize,
    levels: [Operand; LEVELS],
    operators: usize,
    due: Due,
    seed: usize,
}

fn add_number(text: &mut Text, number: usize) {
    for place in [1000, 100, 10, 1] {
        if place <= number || place == 1 {
            text.push(b"0123456789"[number / place % 10]);
        }
    }
}

impl Growth {
    // The operand in which the innermost open level stands.
    fn side(&self) -> Option<Operand> {
        self.levels.get(self.depth.wrapping_sub(1)).copied()
    }

    fn add_leaf(&mut self, text: &mut Text, shape: Shape) {
        let letter = below(stream(self.seed, 6), shape.letters);
        text.push(b"rwsrrs"[letter % 6]);
        add_number(text, below(stream(self.seed, 7), shape.locations));
        self.due = Due::Behind;
    }

    fn add_operator(&mut self, text: &mut Text, shape: Shape) {
        let parallel = below(stream(self.seed, 8), 16) < shape.parallels;
        text.push(if parallel { b'P' } else { b'S' });
        text.push(b'(');
        if self.depth < LEVELS {
            self.levels[self.depth] = Operand::Left;
            self.depth += 1;
        }
        self.operators = self.operators.wrapping_add(1);
    }

    // The first plan is an operator if there may be any.
    fn wants_operator(&self, shape: Shape) -> bool {
        let right = self.side() == Some(Operand::Right);
        let chance = if right { shape.right } else { shape.left };
        let drawn = below(stream(self.seed, 9), 64) < chance || self.depth == 0;
        drawn && self.depth < shape.deepest && self.operators < shape.operators
    }

    // The comma behind a left operand, or the bracket behind a right one. False where the plan is whole.
    fn add_mark(&mut self, text: &mut Text) -> bool {
        if self.depth == 0 || LEVELS < self.depth {
            return false;
        }
        let top = self.depth - 1;
        match self.levels[top] {
            Operand::Left => {
                text.push(b',');
                self.levels[top] = Operand::Right;
                self.due = Due::Plan;
            }
            Operand::Right => {
                text.push(b')');
                self.depth = top;
            }
        }
        true
    }

    // False where the plan is whole.
    fn step(&mut self, text: &mut Text, shape: Shape) -> bool {
        self.seed = next(self.seed);
        match self.due {
            Due::Plan if self.wants_operator(shape) => self.add_operator(text, shape),
            Due::Plan => self.add_leaf(text, shape),
            Due::Behind => return self.add_mark(text),
        }
        true
    }
}

// Draws a plan.
pub fn draw(text: &mut Text, shape: Shape, seed: usize) {
    let mut growth = Growth {
        depth: 0,
        levels: [Operand::Left; LEVELS],
        operators: 0,
        due: Due::Plan,
        seed,
    };
    text.clear();
    for _ in 0..TURNS {
        if !growth.step(text, shape) {
            return;
        }
    }
}

// ---- damage

// What becomes of the byte at a place: it is another byte, it is removed, a byte is put in before it, or the text ends before it.
#[derive(Clone, Copy)]
enum Damage {
    Changed(u8),
    Removed,
    Inserted(u8),
    Cut,
}

fn damage_of(seed: usize) -> Damage {
    let bytes = b"SPrws(),0123456789SP(),0123\n\0 xR[";
    let byte = bytes[below(stream(seed, 12), bytes.len()) % bytes.len()];
    match below(stream(seed, 10), 4) {
        0 => Damage::Changed(byte),
        1 => Damage::Removed,
        2 => Damage::Inserted(byte),
        _ => Damage::Cut,
    }
}

// The draft as a text, with damage at one place.
pub fn spoil(text: &mut Text, draft: &[u8], seed: usize) {
    let at = below(stream(seed, 11), draft.len()).min(draft.len());
    let behind = at.wrapping_add(1).min(draft.len());
    text.clear();
    text.add(&draft[..at]);
    match damage_of(seed) {
        Damage::Changed(byte) => {
            text.push(byte);
            text.add(&draft[behind..]);
        }
        Damage::Removed => text.add(&draft[behind..]),
        Damage::Inserted(byte) => {
            text.push(byte);
            text.add(&draft[at..]);
        }
        Damage::Cut => {}
    }
}
