// A nest of all tasks, and many traces at random, stored with other operands at their halts.
use crate::compare::{Compared, compare};
use crate::slow::Way;
use test_calls::drawn::sizes_of;
use test_calls::lines::lay_nest;
use test_calls::{Call, Case, judging, roomy};
use test_outcome::{Outcome, count_more, try_each};
use test_samples::draws::{below, next, seed_of, stream};
use test_samples::events::{Event, Kind, event_at, put_event};
use test_samples::make;
use test_slow::Memory;

const TRACES: usize = 4001;

// ---- counts

// How many were converted, how many were refused by 1, 2 and 3, how many operands changed, and the verdicts before the conversion: clean, and a race.
#[derive(Clone, Copy)]
pub struct Counts {
    converted: usize,
    refused: [usize; 3],
    changed: usize,
    clean: usize,
    races: usize,
}

impl Counts {
    pub fn new() -> Counts {
        Counts {
            converted: 0,
            refused: [0; 3],
            changed: 0,
            clean: 0,
            races: 0,
        }
    }

    fn count_row(&mut self, row: usize) {
        if let Some(count) = self.refused.get_mut(row.wrapping_sub(1)) {
            count_more(count, 1);
        }
    }

    // Counts what came of a call, and says whether it is an answer.
    fn take(&mut self, compared: &Compared) -> bool {
        match compared.answer.map(|reply| reply.row()) {
            Ok(None) => count_more(&mut self.converted, 1),
            Ok(Some(row)) => self.count_row(row),
            Err(_) => return false,
        }
        count_more(&mut self.changed, compared.before.wanted.changed);
        match compared.before.verdict.case {
            Case::Clean => count_more(&mut self.clean, 1),
            Case::Race => count_more(&mut self.races, 1),
            _ => {}
        }
        true
    }

    pub fn numbers(&self) -> [usize; 7] {
        [
            self.converted,
            self.refused[0],
            self.refused[1],
            self.refused[2],
            self.changed,
            self.clean,
            self.races,
        ]
    }
}

// ---- traces

// What a halt has in the stored trace of a number: in two of four traces 0, in one at times another number, in one what is drawn, the task that resumes.
fn stored(drawn: usize, i: usize, seed: usize) -> usize {
    match i % 4 {
        3 => drawn,
        2 if below(seed, 8) == 0 => below(next(seed), 1100),
        _ => 0,
    }
}

fn store_one(events: &mut [u16], p: usize, i: usize) {
    let event = event_at(events, p);
    if event.is(Kind::Halt) {
        let operand = stored(event.operand, i, seed_of(i.wrapping_add(p)));
        put_event(events, p, Event { operand, ..event });
    }
}

// Lays out the trace of a number: first a nest of 1,024 tasks, then those at random. Answers how many events it has.
fn draw(events: &mut [u16], i: usize) -> usize {
    if i == 0 {
        lay_nest(events);
        return 2048;
    }
    make(events, seed_of(i))
}

fn call_of(n: usize, i: usize) -> Call {
    if i == 0 {
        return judging(roomy(n), i);
    }
    judging(sizes_of(n, stream(seed_of(i), 5)), i)
}

fn agrees(i: usize, memory: &mut Memory, counts: &mut Counts) -> bool {
    let mut events = [0u16; 12300];
    let n = draw(&mut events, i);
    for p in 0..n {
        store_one(&mut events, p, i);
    }
    counts.take(&compare(&events, call_of(n, i), Way::Right, memory))
}

pub fn try_all(memory: &mut Memory, counts: &mut Counts) -> Outcome {
    try_each(TRACES, |i| agrees(i, memory, counts))
}
