// Each pair of kinds of access, ordered and not: each trace is answered as is told where there are records enough, with its cards after clean, and else
// refused by 16.
use crate::lending::all_answer;
use test_calls::conflicts::{lay_pair, read_pairs, traces};
use test_calls::{judging, roomy};
use test_outcome::{Outcome, try_rows};
use test_slow::Memory;

// Each trace is laid over the one before it.
fn run_agrees(cells: &[u16], events: &mut [u16], i: usize, memory: &mut Memory) -> bool {
    let run = lay_pair(events, cells, i);
    all_answer(events, judging(roomy(run.events), i), run.want, memory)
}

pub fn try_all(memory: &mut Memory) -> Outcome {
    let mut cells = [0u16; 27];
    let mut events = [0u16; 18];
    let runs = read_pairs(&mut cells).map(traces);
    try_rows(runs, |i| run_agrees(&cells, &mut events, i, memory))
}
