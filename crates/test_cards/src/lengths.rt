// Rows 1 to 4 come before row 16, and row 16 before the events: reads by task 0 in slices of many lengths.
use crate::lending::all_answer;
use test_calls::lengths::{lengths, read_runs, told};
use test_calls::{Reply, judging};
use test_outcome::{Outcome, try_rows};
use test_slow::Memory;

fn run_agrees(cells: &[u16], run: usize, events: &[u16], memory: &mut Memory) -> bool {
    let want = told(cells, run, Reply::clean(0));
    all_answer(events, judging(lengths(cells, run), run), want, memory)
}

// Every event is a read of location 0 by task 0.
pub fn try_all(memory: &mut Memory) -> Outcome {
    let mut cells = [0u16; 170];
    let rows = read_runs(&mut cells);
    let reads = [0u16; 3];
    try_rows(rows, |run| run_agrees(&cells, run, &reads, memory))
}
