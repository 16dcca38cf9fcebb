// Runs that are told with their pairs, as a table. Each wrong way of the slow list must show in one of them, but for those that take the distance wrong.
use crate::compare::{LENDINGS, Lending, compare};
use test_calls::known::{HEAD, next_run, orders_told, told};
use test_calls::table::read_table;
use test_calls::{judging, roomy};
use test_cells::get;
use test_outcome::{Fault, Outcome, make_outcome};
use test_slow::Memory;
use test_slow::close::Way;

const RUNS: usize = 23;

// As document 01's runs in test_calls: of each run how many events, how many pairs, the answer with its numbers where there is room for all pairs; then the events,
// and then the earlier and the later positions. Answers how many cells the table has, as read_table does.
fn read_runs(cells: &mut [u16]) -> Option<usize> {
    read_table(
        "
# no events
0 0 LISTED 0 0 0
# two writes: unordered, joined, before the fork, of two locations
4 1 LISTED 1 0 0: 0 fork 1, 1 write 5, 1 halt 0, 0 write 5; 1; 3
5 0 LISTED 0 0 0: 0 fork 1, 1 write 5, 1 halt 0, 0 join 1, 0 write 5
3 0 LISTED 0 0 0: 0 write 5, 0 fork 1, 1 write 5
4 0 LISTED 0 0 0: 0 fork 1, 1 write 5, 1 halt 0, 0 write 6
# each kind against each
8 7 LISTED 7 0 0: 0 fork 1, 1 sum 5, 1 read 5, 1 write 5, 1 halt 0, 0 sum 5, 0 read 5, 0 write 5; 2 3 1 3 1 2 3; 5 5 6 6 7 7 7
# two partners of one access, two accesses with one partner
5 2 LISTED 2 0 0: 0 fork 1, 1 write 5, 1 write 5, 1 halt 0, 0 read 5; 1 2; 4 4
5 2 LISTED 2 0 0: 0 fork 1, 1 sum 5, 1 halt 0, 0 read 5, 0 read 5; 1 1; 3 4
# races of two locations; three tasks
7 3 LISTED 3 0 0: 0 fork 1, 1 write 5, 1 read 6, 1 halt 0, 0 write 5, 0 write 6, 0 read 5; 1 2 1; 4 5 6
7 3 LISTED 3 0 0: 0 fork 1, 1 write 5, 1 halt 0, 0 fork 2, 2 write 5, 2 halt 0, 0 write 5; 1 1 4; 4 6 6
# a task joins one that it did not fork, and is joined
8 2 LISTED 2 0 0: 0 fork 1, 1 write 5, 1 halt 0, 0 fork 2, 2 join 1, 2 write 5, 2 halt 0, 0 write 5; 1 5; 7 7
9 0 LISTED 0 0 0: 0 fork 1, 1 read 7, 1 halt 0, 0 read 7, 0 fork 2, 2 join 1, 2 halt 0, 0 join 2, 0 write 7
# after a race all goes on
9 2 LISTED 2 0 0: 0 fork 1, 1 write 5, 1 halt 0, 0 write 5, 0 join 1, 0 fork 2, 2 write 5, 2 halt 0, 0 write 5; 1 6; 3 8
# task 0 halts; the trace breaks off
5 1 LISTED 1 0 0: 0 fork 1, 1 write 5, 1 halt 0, 0 write 5, 0 halt 0; 1; 3
6 1 LISTED 1 0 0: 0 fork 1, 1 write 5, 1 halt 0, 0 fork 2, 2 fork 3, 3 write 5; 1; 5
# rows 5 to 12 after a race
5 0 REFUSED 5 4 0: 0 fork 1, 1 write 5, 1 halt 0, 0 write 5, 0 6 0
6 0 REFUSED 6 5 0: 0 fork 1, 1 write 5, 1 halt 0, 0 write 5, 0 halt 0, 0 write 5
5 0 REFUSED 7 4 0: 0 fork 1, 1 write 5, 1 halt 0, 0 write 5, 1 write 5
5 0 REFUSED 8 4 0: 0 fork 1, 1 write 5, 1 halt 0, 0 write 5, 0 sum 1024
5 0 REFUSED 9 4 0: 0 fork 1, 1 write 5, 1 halt 0, 0 write 5, 0 fork 1024
5 0 REFUSED 10 4 0: 0 fork 1, 1 write 5, 1 halt 0, 0 write 5, 0 fork 1
5 0 REFUSED 11 4 0: 0 fork 1, 1 write 5, 1 halt 0, 0 write 5, 0 join 2
5 0 REFUSED 12 4 0: 0 fork 1, 1 write 5, 1 halt 0, 0 write 5, 0 halt 1
",
        cells,
    )
}

// Whether the run at a cell is answered as the slow list says and, where that goes the right way and there are cells enough, as is told. Behind its events stand the
// other runs, which are not lent.
fn run_agrees(cells: &[u16], at: usize, number: usize, way: Way, memory: &mut Memory) -> bool {
    let from = at.wrapping_add(HEAD).min(cells.len());
    let lending = Lending::of(number);
    let call = judging(roomy(get(cells, at)), number);
    let answer = compare(&cells[from..], call, lending, way, memory);
    let right = answer == Ok(told(cells, at)) && orders_told(cells, at, memory);
    answer.is_ok() && (right || way != Way::Right || lending != Lending::EXACT)
}

// The table has so many cells: those of its runs, and none behind them.
fn go_through(cells: &[u16], count: Option<usize>, way: Way, memory: &mut Memory) -> Outcome {
    let mut at = 0;
    for number in 0..RUNS {
        if !(0..LENDINGS).all(|lending| run_agrees(cells, at, lending, way, memory)) {
            return Err(Fault { number });
        }
        at = next_run(cells, at);
    }
    make_outcome(RUNS, count == Some(at))
}

// All runs, with slices of each length, where the slow list goes this way.
pub fn try_all(way: Way, memory: &mut Memory) -> Outcome {
    let mut cells = [0u16; 640];
    let count = read_runs(&mut cells);
    go_through(&cells, count, way, memory)
}
