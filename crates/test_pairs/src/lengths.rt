// Rows 1 to 3 and 20, and the longest traces: slices of many lengths.
use crate::compare::{Lending, compare};
use crate::counts::Counts;
use crate::slow::listed;
use test_calls::lengths::{lengths, told};
use test_calls::plants::lay_events;
use test_calls::table::read_rows;
use test_calls::{Call, judging, wanting};
use test_outcome::{Fault, Outcome, try_rows};
use test_slow::Memory;
use test_slow::close::Way;

// Of each run the lengths of the six slices, with those for the pairs last, and the row by which it is refused, or 0. Answers how many runs there are, as read_rows
// does.
fn read_runs(cells: &mut [u16]) -> Option<usize> {
    read_rows(
        "
# just enough for two pairs, and more than enough
5 5 5 12293 2 2: 0
5 5 5 12293 3 2: 0
5 5 5 12293 2 3: 0
5 5 5 12400 90 65535: 0
# either slice is shorter than the list, or both are
5 5 5 12293 1 2: 20
5 5 5 12293 2 1: 20
5 5 5 12293 0 90: 20
5 5 5 12293 90 0: 20
5 5 5 12293 1 1: 20
5 5 5 12293 0 0: 20
# slices that differ in length, also before rows 2, 3 and 20
5 6 5 12293 2 2: 1
5 5 4 12293 2 2: 1
4 5 5 0 0 0: 1
32769 1 1 0 0 0: 1
# 32,769 events, also before rows 3 and 20; 32,768
32769 32769 32769 45057 2 2: 2
32769 32769 32769 0 0 0: 2
32768 32768 32768 45056 2 2: 0
32768 32768 32768 45056 2 1: 20
# too short a workspace, also before row 20
5 5 5 12292 2 2: 3
5 5 5 0 1 2: 3
32768 32768 32768 45055 0 0: 3
",
        cells,
        7,
    )
}

// There are two pairs.
fn call_of(cells: &[u16], run: usize) -> Call {
    let want = told(cells, run, listed(2));
    wanting(judging(lengths(cells, run), run), want)
}

// The events are those of the plants, and behind them reads by task 0. Of 32,768 events the slow list is what was put before.
pub fn try_all(memory: &mut Memory, counts: &mut Counts) -> Outcome {
    let mut events = [0u16; 15];
    let mut cells = [0u16; 150];
    if lay_events(&mut events).is_none() {
        return Err(Fault { number: 0 });
    }
    let rows = read_runs(&mut cells);
    try_rows(rows, |run| {
        let call = call_of(&cells, run);
        counts.take(compare(&events, call, Lending::AsTold, Way::Right, memory))
    })
}
