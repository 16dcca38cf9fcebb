// The tries, group by group: each makes a text of its number, and holds the reader to what must come of it.
use crate::compare::{Call, Tally, compare};
use crate::drawn::{draw, shape_of, spoil};
use crate::slow_trace::SlowTrace;
use crate::texts::Text;
use crate::want::Cells;
use crate::{known, meaning, plants};
use test_outcome::{Outcome, make_outcome, with};
use test_samples::draws::{below, seed_of, stream};

#[derive(Clone, Copy, PartialEq, Eq)]
pub enum Group {
    Answers,
    Traces,
    // All words over an alphabet: `S P ( , ) r 0 1`; letters and digits; and the pieces of plans.
    Bytes,
    Numbers,
    Tokens,
    // Plans at random, as they are, with a fault, and of which the traces are judged.
    Drawn,
    Damaged,
    Meanings,
    Plants,
}

impl Group {
    // How many tries it has: of words all up to 6 letters, of tokens up to 9.
    fn tries(self) -> usize {
        match self {
            Group::Answers => known::TEXTS * known::ROOMS,
            Group::Traces => known::TRACES,
            Group::Bytes => 299593,
            Group::Numbers => 597871,
            Group::Tokens => 2441406,
            Group::Drawn => 10000,
            Group::Damaged => 40000,
            Group::Meanings => 2000,
            Group::Plants => plants::PLANTS,
        }
    }
}

// What the tries work with: a text and a draft of one, and the slow trace; and what they count.
#[derive(Drop)]
pub struct Desk {
    text: Text,
    draft: Text,
    trace: SlowTrace,
    pub tally: Tally,
}

// In one of eight tries a slice has a cell too few; else each has just enough, or up to two more.
fn room_of(seed: usize) -> Cells {
    let short = below(stream(seed, 13), 24);
    let a = below(stream(seed, 14), 27);
    Cells::new(
        if short == 0 { 0 } else { 1 + a % 3 },
        if short == 1 { 0 } else { 1 + a / 3 % 3 },
        if short == 2 { 0 } else { 1 + a / 9 % 3 },
    )
}

impl Desk {
    pub fn new() -> Desk {
        Desk {
            text: Text::new(),
            draft: Text::new(),
            trace: SlowTrace::new(),
            tally: Tally::new(),
        }
    }

    fn text_agrees(&mut self, room: Cells, seed: usize) -> bool {
        let call = Call {
            room: Some(room),
            salt: seed,
            plant: None,
        };
        let answer = compare(self.text.bytes(), call, &mut self.trace);
        self.tally.agreed(answer)
    }

    fn word_agrees(&mut self, alphabet: &[&str], i: usize) -> bool {
        let seed = seed_of(i);
        self.text.clear();
        self.text.spell(alphabet, i);
        self.text_agrees(room_of(seed), seed)
    }

    fn drawn_agrees(&mut self, seed: usize) -> bool {
        draw(&mut self.text, shape_of(seed, 150), seed);
        self.text_agrees(room_of(seed), seed)
    }

    fn damaged_agrees(&mut self, seed: usize) -> bool {
        draw(&mut self.draft, shape_of(seed, 150), seed);
        spoil(&mut self.text, self.draft.bytes(), seed);
        self.text_agrees(room_of(seed), seed)
    }

    // A plan of up to 12 operators, and what its trace means.
    fn meaning_agrees(&mut self, seed: usize) -> bool {
        draw(&mut self.text, shape_of(seed, below(seed, 13)), seed);
        let read = self.text_agrees(Cells::new(1, 2, 3), seed);
        let meant = meaning::agrees(self.text.bytes(), &self.trace, &mut self.tally, None);
        read && meant
    }

    fn try_one(&mut self, group: Group, i: usize) -> bool {
        match group {
            Group::Answers => {
                known::answer_agrees(&mut self.text, i, &mut self.trace, &mut self.tally)
            }
            Group::Traces => known::trace_agrees(i, &mut self.trace, &mut self.tally),
            Group::Bytes => self.word_agrees(&["S", "P", "(", ",", ")", "r", "0", "1"], i),
            Group::Numbers => self.word_agrees(&["r", "w", "s", "0", "1", "2", "3", "4", "9"], i),
            Group::Tokens => self.word_agrees(&["S(", "P(", ",", ")", "w1"], i),
            Group::Drawn => self.drawn_agrees(seed_of(i.wrapping_add(5))),
            Group::Damaged => self.damaged_agrees(seed_of(i.wrapping_add(6))),
            Group::Meanings => self.meaning_agrees(seed_of(i)),
            Group::Plants => plants::is_noticed(&mut self.text, i, &mut self.trace),
        }
    }

    // All tries of a group, with counts of its own.
    pub fn try_all(&mut self, group: Group) -> Outcome {
        let mut outcome = make_outcome(0, true);
        self.tally = Tally::new();
        for i in 0..group.tries() {
            outcome = with(outcome, self.try_one(group, i));
        }
        outcome
    }
}
