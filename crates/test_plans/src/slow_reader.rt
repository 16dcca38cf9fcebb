// The slow reader's answer: document 02's K4 taken at its word, byte by byte, by what may come next and a stack of the open levels. It shares no code with the
// fast reader, rows and kinds included: of crate `trace` it has the types alone.
use crate::letters::{extend, is_leaf};
use crate::rows::Row;
use crate::wrong::Wrong;
use trace::Refusal;

// What may come next: a plan, the bracket behind an operator, the first digit of a location, one more, or what stands behind a plan.
#[derive(Clone, Copy, PartialEq, Eq)]
enum Due {
    Plan,
    Bracket,
    Digit,
    Number,
    Behind,
}

// The operand in which an open level stands.
#[derive(Clone, Copy, PartialEq, Eq)]
enum Operand {
    Left,
    Right,
}

// More levels than any rule lets open.
const LEVELS: usize = 66;

// The leaves and P's met, and the row that is met, if any.
#[derive(Clone, Copy)]
pub struct Reading {
    pub leaves: usize,
    pub forks: usize,
    pub refused: Option<Refusal>,
}

// How far the reading has come: what is due, how many levels are open, the number so far, and the leaves and P's met.
#[derive(Drop)]
struct Reader {
    due: Due,
    depth: usize,
    levels: [Operand; LEVELS],
    value: usize,
    leaves: usize,
    forks: usize,
    plant: Option<Wrong>,
}

impl Reader {
    // "A plan may nest up to 64 deep"
    fn most_levels(&self) -> usize {
        if self.plant == Some(Wrong::Deeper) {
            65
        } else {
            64
        }
    }

    // "18, an S or P that opens level 65"
    fn operator(&mut self, byte: u8) -> Result<(), Row> {
        if self.depth == self.most_levels() {
            let spoiled = self.plant == Some(Wrong::Row);
            return Err(if spoiled { Row::NoPlan } else { Row::DeepPlan });
        }
        if byte == b'P' {
            self.forks = self.forks.wrapping_add(1);
        }
        self.due = Due::Bracket;
        Ok(())
    }

    // "Leaves are r, w or s (sum) with a location"
    fn plan(&mut self, byte: u8) -> Result<(), Row> {
        if matches!(byte, b'S' | b'P') {
            return self.operator(byte);
        }
        if !is_leaf(byte) {
            return Err(Row::NoPlan);
        }
        self.leaves = self.leaves.wrapping_add(1);
        self.due = Due::Digit;
        Ok(())
    }

    fn bracket(&mut self, byte: u8) -> Result<(), Row> {
        if byte != b'(' || LEVELS <= self.depth {
            return Err(Row::NoPlan);
        }
        self.levels[self.depth] = Operand::Left;
        self.depth += 1;
        self.due = Due::Plan;
        Ok(())
    }

    // "no leading zeros": no digit follows a zero.
    fn digit(&mut self, byte: u8) -> Result<(), Row> {
        if !byte.is_ascii_digit() {
            return Err(Row::NoPlan);
        }
        self.value = extend(0, byte);
        let whole = self.value == 0 && self.plant != Some(Wrong::Zeros);
        self.due = if whole { Due::Behind } else { Due::Number };
        Ok(())
    }

    // "a location 0 to 1,023"
    fn longer(&mut self, byte: u8) -> Result<(), Row> {
        self.value = extend(self.value, byte);
        let most = if self.plant == Some(Wrong::Location) {
            1024
        } else {
            1023
        };
        if most < self.value {
            return Err(Row::NoPlan);
        }
        Ok(())
    }

    // Behind a plan stands the comma of the innermost open level if that was the left operand, and its bracket if it was the right one.
    fn behind(&mut self, byte: u8) -> Result<(), Row> {
        if self.depth == 0 || LEVELS < self.depth {
            return Err(Row::NoPlan);
        }
        let top = self.depth - 1;
        match (self.levels[top], byte) {
            (Operand::Left, b',') => {
                self.levels[top] = Operand::Right;
                self.due = Due::Plan;
                Ok(())
            }
            (Operand::Right, b')') => {
                self.depth = top;
                self.due = Due::Behind;
                Ok(())
            }
            _ => Err(Row::NoPlan),
        }
    }

    fn step(&mut self, byte: u8) -> Result<(), Row> {
        match self.due {
            Due::Plan => self.plan(byte),
            Due::Bracket => self.bracket(byte),
            Due::Digit => self.digit(byte),
            Due::Number if byte.is_ascii_digit() => self.longer(byte),
            Due::Number | Due::Behind => self.behind(byte),
        }
    }

    // "or the plan's length if it breaks off"
    fn is_whole(&self) -> bool {
        self.depth == 0 && matches!(self.due, Due::Number | Due::Behind)
    }

    fn reading(&self, refused: Option<Refusal>) -> Reading {
        Reading {
            leaves: self.leaves,
            forks: self.forks,
            refused,
        }
    }
}

// "17, first byte that can't continue a plan, .. 18, .. of these two the first met." Once a row is met nothing is read any more.
pub fn read(text: &[u8], plant: Option<Wrong>) -> Reading {
    let mut reader = Reader {
        due: Due::Plan,
        depth: 0,
        levels: [Operand::Left; LEVELS],
        value: 0,
        leaves: 0,
        forks: 0,
        plant,
    };
    for (at, byte) in text.iter().enumerate() {
        if let Err(row) = reader.step(*byte) {
            return reader.reading(Some(row.at(at)));
        }
    }
    if reader.is_whole() {
        return reader.reading(None);
    }
    reader.reading(Some(Row::NoPlan.at(text.len())))
}
