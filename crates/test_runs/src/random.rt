// Many traces at random: both judges answer each, and both ordering calls several pairs of its positions.
use test_calls::drawn::{asking_of, sizes_of};
use test_calls::{Case, Mismatch, Reply, judging};
use test_compare::compare;
use test_outcome::{Fault, count_at, count_more};
use test_samples::draws::{next, seed_of, stream};
use test_samples::events::{Event, Kind, event_at};
use test_samples::make;
use test_slow::{Memory, Sizes};

pub const TRACES: usize = 10000;

pub const PAIRS: usize = 4;

// Refusals by the numbers of their rows.
pub const ROWS: usize = 14;

// What came of the calls so far. The races are counted by the kinds of their accesses too, of a read, a write and a sum with a later one; and the refusals by row
// 12 by what the halt names: 0, itself, another task, no task.
#[derive(Clone, Copy)]
pub struct Counts {
    pub events: usize,
    pub sums: usize,
    pub clean: usize,
    pub races: usize,
    pub races_of_read: [usize; 3],
    pub races_of_write: [usize; 3],
    pub races_of_sum: [usize; 3],
    // Of the clean traces and the races.
    pub links: [usize; 11],
    pub refused: [usize; ROWS],
    pub halts: [usize; 4],
    // Of the ordering call.
    pub yes: usize,
    pub no: usize,
    pub not_ordered: [usize; ROWS],
}

// The place of a kind of access among the three.
fn place_of(event: Event) -> usize {
    match event.kind {
        Ok(Kind::Read) => 0,
        Ok(Kind::Write) => 1,
        _ => 2,
    }
}

// The place of what a halt names that row 12 refuses.
fn place_of_halt(event: Event) -> usize {
    if event.operand == 0 {
        return 0;
    }
    if event.operand == event.task {
        return 1;
    }
    if event.operand < 1024 { 2 } else { 3 }
}

impl Counts {
    fn new() -> Counts {
        Counts {
            events: 0,
            sums: 0,
            clean: 0,
            races: 0,
            races_of_read: [0; 3],
            races_of_write: [0; 3],
            races_of_sum: [0; 3],
            links: [0; 11],
            refused: [0; ROWS],
            halts: [0; 4],
            yes: 0,
            no: 0,
            not_ordered: [0; ROWS],
        }
    }

    // Counts a race by the kinds of its accesses.
    fn count_race(&mut self, one: Event, other: Event) {
        count_more(&mut self.races, 1);
        let place = place_of(other);
        match one.kind {
            Ok(Kind::Read) => count_at(&mut self.races_of_read, place),
            Ok(Kind::Write) => count_at(&mut self.races_of_write, place),
            _ => count_at(&mut self.races_of_sum, place),
        }
    }

    // Counts a refusal of the judge, at this event.
    fn count_refusal(&mut self, row: usize, event: Event) {
        count_at(&mut self.refused, row);
        if row == 12 {
            count_at(&mut self.halts, place_of_halt(event));
        }
    }

    // Counts a judge's answer, and its links if it tells them.
    fn count_judged(&mut self, events: &[u16], reply: Reply) {
        match reply.case {
            Case::Clean => count_more(&mut self.clean, 1),
            Case::Race => self.count_race(event_at(events, reply.a), event_at(events, reply.b)),
            _ => return self.count_refusal(reply.a, event_at(events, reply.b)),
        }
        count_at(&mut self.links, reply.links);
    }

    fn count_ordered(&mut self, reply: Reply) {
        match reply.case {
            Case::Yes => count_more(&mut self.yes, 1),
            Case::No => count_more(&mut self.no, 1),
            _ => count_at(&mut self.not_ordered, reply.a),
        }
    }

    // Counts the n events of a trace.
    fn count_events(&mut self, events: &[u16], n: usize) {
        let sums = (0..n).filter(|p| event_at(events, *p).is(Kind::Sum));
        count_more(&mut self.events, n);
        count_more(&mut self.sums, sums.count());
    }
}

// Asks about some pairs, and counts the answers.
fn ask_all(
    events: &[u16],
    sizes: Sizes,
    seed: usize,
    counts: &mut Counts,
    memory: &mut Memory,
) -> Result<(), Mismatch> {
    let mut draw = seed;
    for _ in 0..PAIRS {
        draw = next(next(draw));
        let reply = compare(events, asking_of(sizes, draw), memory)?;
        counts.count_ordered(reply);
    }
    Ok(())
}

// Makes the trace of a seed, and compares.
fn try_one(seed: usize, counts: &mut Counts, memory: &mut Memory) -> Result<(), Mismatch> {
    let mut cells = [0u16; 12300];
    let n = make(&mut cells, seed);
    let events = &cells[..n.wrapping_mul(3).min(12300)];
    let sizes = sizes_of(n, stream(seed, 5));
    counts.count_events(events, n);
    let reply = compare(events, judging(sizes, seed), memory)?;
    counts.count_judged(events, reply);
    ask_all(events, sizes, stream(seed, 6), counts, memory)
}

// What came of all traces, if all answers agreed.
pub fn try_all(memory: &mut Memory) -> Result<Counts, Fault> {
    let mut counts = Counts::new();
    for number in 0..TRACES {
        try_one(seed_of(number), &mut counts, memory).map_err(|_| Fault { number })?;
    }
    Ok(counts)
}
