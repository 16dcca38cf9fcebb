// Rows 1 to 4 of document 01's table, and the largest traces: reads by task 0 in slices of many lengths.
use test_calls::lengths::{lengths, read_runs, told};
use test_calls::{Reply, asking, judging};
use test_compare::compare;
use test_outcome::{Outcome, try_rows};
use test_slow::Memory;

// The ordering call's answer where the judge's is this one. "It has no order buffers, so refusal 4 is absent": past rows 1 to 3 the read at position 0 reaches
// itself, if it is there.
fn ordering_told(judged: Reply, n: usize) -> Reply {
    match judged.row() {
        Some(1..=3) => judged,
        _ if n == 0 => Reply::refused(13, 0),
        _ => true.into(),
    }
}

fn run_agrees(cells: &[u16], run: usize, events: &[u16], memory: &mut Memory) -> bool {
    let sizes = lengths(cells, run);
    let want = told(cells, run, Reply::clean(0));
    let answer = compare(events, judging(sizes, run), memory);
    let asked = compare(events, asking(sizes, 0, 0, run), memory);
    (answer == Ok(want)) & (asked == Ok(ordering_told(want, sizes.kinds)))
}

// Every event is a read of location 0 by task 0.
pub fn try_all(memory: &mut Memory) -> Outcome {
    let mut cells = [0u16; 170];
    let rows = read_runs(&mut cells);
    let reads = [0u16; 3];
    try_rows(rows, |run| run_agrees(&cells, run, &reads, memory))
}
