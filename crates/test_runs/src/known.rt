// The runs that document 01 tells, and those for the links, the sums and the halts of document 02's K2, K3 and K6: each trace with its answer, and with both
// orders where they are told. Each is also judged by the slow judge, and asked about every pair of positions.
use test_calls::known::{HEAD, cells_of, next_run, orders_told, read_runs, read_wrong_runs, told};
use test_calls::{Reply, asking, chains, judging, roomy, sums};
use test_cells::get;
use test_compare::{agrees, compare};
use test_outcome::{Fault, Outcome, make_outcome, try_each};
use test_slow::Memory;

// Both ordering calls agree on every pair of positions below 16, those past the end included.
fn pairs_agree(events: &[u16], n: usize, memory: &mut Memory) -> bool {
    try_each(256, |i| {
        agrees(events, asking(roomy(n), i / 16, i % 16, i), memory)
    })
    .is_ok()
}

// Both judges answer the events of the run at a cell as told, with the orders that are told, and both ordering calls agree.
fn events_agree(cells: &[u16], at: usize, events: &[u16], memory: &mut Memory) -> bool {
    let n = get(cells, at);
    let answer = compare(events, judging(roomy(n), at), memory);
    let orders = orders_told(cells, at, memory);
    let pairs = pairs_agree(events, n, memory);
    (answer == Ok(told(cells, at))) & orders & pairs
}

fn run_agrees(cells: &[u16], at: usize, memory: &mut Memory) -> bool {
    let from = at.wrapping_add(HEAD).min(cells.len());
    let n = cells_of(get(cells, at)).min(cells.len() - from);
    events_agree(cells, at, &cells[from..from + n], memory)
}

// Whether all runs of a table agree, or where they are told wrong, whether none does. The table has so many cells: some, and none behind the last run's.
fn go_through(cells: &[u16], count: usize, right: bool, memory: &mut Memory) -> Outcome {
    let mut at = 0;
    for number in 0..count {
        if count <= at {
            return make_outcome(number, at == count);
        }
        if run_agrees(cells, at, memory) != right {
            return Err(Fault { number });
        }
        at = next_run(cells, at);
    }
    Err(Fault { number: count })
}

// The example of row 13: "empty trace, p = 0".
fn past_the_end(memory: &mut Memory) -> bool {
    let none = [0u16; 1];
    compare(&none, asking(roomy(0), 0, 0, 1), memory) == Ok(Reply::refused(13, 0))
}

pub fn try_all(memory: &mut Memory) -> Outcome {
    let mut cells = [0u16; 1024];
    let count = read_runs(&mut cells);
    if !past_the_end(memory) {
        return Err(Fault { number: 0 });
    }
    go_through(&cells, count.unwrap_or(0), true, memory)
}

// The short runs for the links.
pub fn try_chains(memory: &mut Memory) -> Outcome {
    let mut cells = [0u16; 1024];
    let count = chains::read_runs(&mut cells);
    go_through(&cells, count.unwrap_or(0), true, memory)
}

pub fn try_sums(memory: &mut Memory) -> Outcome {
    let mut cells = [0u16; 1024];
    let count = sums::read_runs(&mut cells);
    go_through(&cells, count.unwrap_or(0), true, memory)
}

// That a run does not agree is noticed, whether its answer is told wrong, its links, or one of its orders.
pub fn try_wrong(memory: &mut Memory) -> Outcome {
    let mut cells = [0u16; 640];
    let count = read_wrong_runs(&mut cells);
    go_through(&cells, count.unwrap_or(0), false, memory)
}
