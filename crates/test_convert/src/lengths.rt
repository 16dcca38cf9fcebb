// Rows 1 to 3 and the largest traces: slices of many lengths. What is refused leaves the halts as they are.
use crate::compare::{compare, converted};
use crate::slow::Way;
use test_calls::lengths::{lengths, read_runs, told};
use test_calls::{Reply, judging};
use test_outcome::{Outcome, try_rows};
use test_slow::Memory;

// The conversion's answer where this is the judge's to as many reads: row 4 is none of its own.
fn told_of(judged: Reply) -> Reply {
    match judged.row() {
        Some(4) => converted(),
        _ => judged,
    }
}

fn run_agrees(cells: &[u16], run: usize, events: &[u16], memory: &mut Memory) -> bool {
    let call = judging(lengths(cells, run), run);
    let want = told_of(told(cells, run, converted()));
    compare(events, call, Way::Right, memory).answer == Ok(want)
}

// 0 fork 1, 1 fork 2, 2 halt, 1 halt, and behind them reads by task 0: all events keep the rules.
pub fn try_all(memory: &mut Memory) -> Outcome {
    let events = [0u16, 2, 1, 1, 2, 2, 2, 4, 0, 1, 4, 0];
    let mut cells = [0u16; 170];
    let rows = read_runs(&mut cells);
    try_rows(rows, |run| run_agrees(&cells, run, &events, memory))
}
