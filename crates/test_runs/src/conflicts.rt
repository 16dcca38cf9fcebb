// Each pair of kinds of access, ordered and not: both judges and both ordering calls must answer as is told.
use crate::lines::{judges, reaches};
use test_calls::conflicts::{earlier_at, lay_pair, reach, read_pairs, traces};
use test_outcome::{Outcome, try_rows};
use test_slow::Memory;

// Each trace is laid over the one before it.
fn run_agrees(cells: &[u16], events: &mut [u16], i: usize, memory: &mut Memory) -> bool {
    let run = lay_pair(events, cells, i);
    let answered = judges(events, run.events, run.want, memory);
    let asked = reaches(events, run.events, earlier_at(i), reach(i), memory);
    answered & asked
}

pub fn try_all(memory: &mut Memory) -> Outcome {
    let mut cells = [0u16; 27];
    let mut events = [0u16; 18];
    let runs = read_pairs(&mut cells).map(traces);
    try_rows(runs, |i| run_agrees(&cells, &mut events, i, memory))
}
