// Paths: for each event all its ancestors are stored, as a row of bits, and every question about paths is asked of those rows.
ghost use Rattle.std.specs.Prelude.{◌<◌};

use crate::events::{Kind, Trace};
use std::alloc::{AllocError, Global};
use std::array;

// The most events that a trace may have: each has a row of bits with one for each event, in WORDS words.
pub const EVENTS: usize = 4096;

const WORDS: usize = 64;

#[derive(Drop)]
pub struct Paths {
    rows: Vec<[u64; WORDS]>,
}

// The word and the bit of event p in a row.
fn word(p: usize) -> usize
    ensures { result < 64 }
{
    p % EVENTS / 64
}

fn bit(p: usize) -> u64 {
    1 << (p % 64)
}

// "Arcs go from each event to the same task's next event, from a fork to the child's first event, ..": where the arc into q comes from.
fn of_task(trace: Trace<'_>, q: usize) -> Option<usize> {
    let task = trace.event(q).task;
    trace.latest(q, |event| event.task == task).or_else(|| trace.latest(
        q,
        |event| event.is(Kind::Fork) && event.operand == task,
    ))
}

// ".. and from a task's halt to the join that names it."
fn of_join(trace: Trace<'_>, q: usize) -> Option<usize> {
    let join = trace.event(q);
    if !join.is(Kind::Join) {
        return None;
    }
    trace.latest(
        q,
        |event| event.is(Kind::Halt) && event.task == join.operand,
    )
}

impl Paths {
    pub fn new(alloc: Global) -> Result<Paths, AllocError> {
        Ok(Paths {
            rows: vec![in alloc; [0; WORDS]; EVENTS]?,
        })
    }

    // Whether p reaches q: "p = q or a chain of arcs leads from p to q".
    pub fn reaches(&self, p: usize, q: usize) -> bool {
        let row = self.rows.get(q);
        p == q || row.is_some_and(|row| row[word(p)] & bit(p) != 0)
    }

    // What an arc from an event, if there is one, brings into a row: the event and its ancestors.
    fn brought(&self, from: Option<usize>) -> [u64; WORDS] {
        let Some(p) = from else {
            return [0; WORDS];
        };
        let mut row = self.rows.get(p).copied().unwrap_or([0; WORDS]);
        row[word(p)] |= bit(p);
        row
    }

    // Fills the row of q from the arcs that lead to it.
    pub fn take(&mut self, trace: Trace<'_>, q: usize) {
        let one = self.brought(of_task(trace, q));
        let other = self.brought(of_join(trace, q));
        if let Some(row) = self.rows.get_mut(q) {
            *row = array::from_fn(|w| one[w] | other[w]);
        }
    }
}
