// Runs that are told with what becomes of them, as a table. Each wrong way of the slow conversion must show in one of them.
use crate::compare::compare;
use crate::slow::Way;
use test_calls::known::{HEAD, behind_events, told};
use test_calls::table::read_table;
use test_calls::{judging, roomy};
use test_cells::get;
use test_outcome::{Fault, Outcome, make_outcome};
use test_slow::Memory;

const RUNS: usize = 16;

// Of each run: how many events; the position of the first that breaks a rule with row 12 as it was, or again how many; what the judge with that row 12 answers,
// with its two numbers and the links; then the events, and then their operands after the conversion. Answers how many cells the table has, as read_table does.
fn read_runs(cells: &mut [u16]) -> Option<usize> {
    read_table(
        "
# no events
0 0 CLEAN 0 0 0
# a nest of three, and once more when it is converted
7 7 CLEAN 0 0 0: 0 fork 9, 9 fork 7, 7 fork 3, 3 halt 0, 7 halt 0, 9 halt 0, 0 halt 0; 9 7 3 7 9 0 0
7 3 REFUSED 12 3 0: 0 fork 9, 9 fork 7, 7 fork 3, 3 halt 7, 7 halt 9, 9 halt 0, 0 halt 0; 9 7 3 7 9 0 0
# joins and accesses in a nest
11 11 CLEAN 0 0 1: 0 fork 1, 1 fork 2, 2 write 5, 2 halt 0, 1 fork 3, 3 join 2, 3 read 5, 3 halt 0, 1 join 3, 1 halt 0, 0 join 1;
    1 2 5 1 3 2 5 1 3 0 1
# a race stops nothing, but an event behind it does
10 7 RACE 2 4 0: 0 fork 1, 1 fork 2, 2 sum 5, 2 halt 0, 1 read 5, 1 fork 3, 3 halt 0, 1 write 1024, 1 fork 4, 4 halt 0; 1 2 5 1 5 3 1 1024 4 0
# rows 5, 10, 11
6 3 REFUSED 5 3 0: 0 fork 1, 1 fork 2, 2 halt 0, 1 6 0, 1 fork 3, 3 halt 0; 1 2 1 0 3 0
5 3 REFUSED 10 3 0: 0 fork 1, 1 fork 2, 2 halt 0, 1 fork 2, 2 halt 0; 1 2 1 2 0
6 3 REFUSED 11 3 0: 0 fork 1, 1 fork 2, 2 halt 0, 1 join 1, 1 fork 3, 3 halt 0; 1 2 1 1 3 0
# a halt after the end; of a task that is paused, has halted, was never forked
6 5 REFUSED 6 5 0: 0 fork 1, 1 fork 2, 2 halt 0, 1 halt 0, 0 halt 0, 2 halt 0; 1 2 1 0 0 0
5 3 REFUSED 7 3 0: 0 fork 1, 1 fork 2, 2 fork 3, 2 halt 0, 3 halt 0; 1 2 3 0 0
4 3 REFUSED 7 3 0: 0 fork 1, 1 fork 2, 2 halt 0, 2 halt 0; 1 2 1 0
4 2 REFUSED 7 2 0: 0 fork 1, 1 fork 2, 3 halt 0, 2 halt 0; 1 2 0 0
# one that names the task that resumes, another, itself
5 2 REFUSED 12 2 0: 0 fork 1, 1 fork 2, 2 halt 1, 1 fork 3, 3 halt 0; 1 2 1 3 0
5 2 REFUSED 12 2 0: 0 fork 1, 1 fork 2, 2 halt 3, 1 fork 3, 3 halt 0; 1 2 3 3 0
3 2 REFUSED 12 2 0: 0 fork 1, 1 fork 2, 2 halt 2; 1 2 2
1 0 REFUSED 12 0 0: 0 halt 1; 1
",
        cells,
    )
}

fn next_run(cells: &[u16], at: usize) -> usize {
    behind_events(cells, at).wrapping_add(get(cells, at))
}

// Whether the n cells of the table from a place on are the first of these.
fn cells_told(cells: &[u16], from: usize, n: usize, these: &[u16]) -> bool {
    (0..n).all(|i| get(cells, from.wrapping_add(i)) == get(these, i))
}

// Whether the run at a cell is converted as the slow conversion says and, where that goes the right way, as is told. Behind its events stand the other runs, which
// are not lent.
fn run_agrees(cells: &[u16], at: usize, way: Way, memory: &mut Memory) -> bool {
    let n = get(cells, at);
    let from = at.wrapping_add(HEAD).min(cells.len());
    let compared = compare(&cells[from..], judging(roomy(n), at), way, memory);
    let before = &compared.before;
    let right = before.broken == get(cells, at.wrapping_add(1))
        && before.verdict == told(cells, at)
        && cells_told(cells, behind_events(cells, at), n, before.wanted.operands());
    compared.answer.is_ok() && (right || way != Way::Right)
}

// The table has so many cells: those of its runs, and none behind them.
fn go_through(cells: &[u16], count: Option<usize>, way: Way, memory: &mut Memory) -> Outcome {
    let mut at = 0;
    for number in 0..RUNS {
        if !run_agrees(cells, at, way, memory) {
            return Err(Fault { number });
        }
        at = next_run(cells, at);
    }
    make_outcome(RUNS, count == Some(at))
}

// All runs, where the slow conversion goes this way.
pub fn try_all(way: Way, memory: &mut Memory) -> Outcome {
    let mut cells = [0u16; 1024];
    let count = read_runs(&mut cells);
    go_through(&cells, count, way, memory)
}

// Each wrong way is noticed.
pub fn try_wrong(memory: &mut Memory) -> Outcome {
    for (number, way) in Way::WRONG.iter().enumerate() {
        if try_all(*way, memory).is_ok() {
            return Err(Fault { number });
        }
    }
    Ok(Way::WRONG.len())
}
