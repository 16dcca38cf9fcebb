// The runs that document 01 tells, and those for the halts of document 02's K6, as a table: each trace with its answer and its links, and with both orders where
// they are told. Document 01 tells no links: they are drawn by hand from document 02's K2. Where it has kind 5 it is read with kind 6, as K3 says.
use crate::table::read_table;
use crate::{Case, Reply};
use test_cells::get;
use test_slow::{Memory, ROOM};

// How many cells stand before the events of a run.
pub const HEAD: usize = 6;

// Of each run: how many events, how many cells of each order are told, the answer with its two numbers and the links; then the events, and then the two orders.
// Answers how many cells the table has, as read_table does.
pub fn read_runs(cells: &mut [u16]) -> Option<usize> {
    read_table(
        "
# no events
0 0 CLEAN 0 0 0
# '0 write 1023', and with 1024
1 0 CLEAN 0 0 0: 0 write 1023
1 0 REFUSED 8 0 0: 0 write 1024
# '0 fork 1023', '0 fork 1024'
1 0 CLEAN 0 0 0: 0 fork 1023
1 0 REFUSED 9 0 0: 0 fork 1024
# two unordered reads; Last event '0 write 5'
4 0 CLEAN 0 0 0: 0 fork 1, 1 read 5, 1 halt 0, 0 read 5
4 0 RACE 1 3 0: 0 fork 1, 1 read 5, 1 halt 0, 0 write 5
# two writes before an unordered read
5 5 RACE 1 4 0: 0 fork 1, 1 write 5, 1 write 5, 1 halt 0, 0 read 5; 0 1 4 2 3; 0 4 1 2 3
# joins in the wrong order, and in the right one
5 0 REFUSED 11 4 0: 0 fork 1, 1 halt 0, 0 fork 2, 2 halt 0, 0 join 1
6 0 CLEAN 0 0 1: 0 fork 1, 1 halt 0, 0 fork 2, 2 halt 0, 0 join 2, 0 join 1
# a task joins one that it did not fork, and with '0 join 2' before the write
8 8 RACE 1 7 1: 0 fork 1, 1 read 7, 1 halt 0, 0 read 7, 0 fork 2, 2 join 1, 2 halt 0, 0 write 7; 0 3 4 1 7 2 5 6; 0 3 4 7 1 2 5 6
9 0 CLEAN 0 0 1: 0 fork 1, 1 read 7, 1 halt 0, 0 read 7, 0 fork 2, 2 join 1, 2 halt 0, 0 join 2, 0 write 7
# '0 halt', then kind 6
2 0 REFUSED 5 1 0: 0 halt 0, 0 6 0
# the examples of rows 5 to 12
1 0 REFUSED 5 0 0: 0 6 0
2 0 REFUSED 6 1 0: 0 halt 0, 0 read 1
1 0 REFUSED 7 0 0: 1 read 0
1 0 REFUSED 10 0 0: 0 fork 0
1 0 REFUSED 11 0 0: 0 join 1
1 0 REFUSED 12 0 0: 0 halt 3
# row 6 before row 7, row 7 before row 8, a number used before, the largest kind, a task that is no task
2 0 REFUSED 6 1 0: 0 halt 0, 1 read 0
1 0 REFUSED 7 0 0: 1 read 1024
3 0 REFUSED 10 2 0: 0 fork 1, 1 halt 0, 0 fork 1
1 0 REFUSED 5 0 0: 0 255 0
1 0 REFUSED 7 0 0: 65535 read 0
# a trace may end with the halt of task 0
1 0 CLEAN 0 0 0: 0 halt 0
# later events are not looked at
5 0 RACE 1 3 0: 0 fork 1, 1 write 5, 1 halt 0, 0 write 5, 0 6 0
# Figure 6 misses a write before an unordered read, the run of the text form
4 4 RACE 1 3 0: 0 fork 1, 1 write 5, 1 halt 0, 0 read 5; 0 1 3 2; 0 3 1 2
# Only the last reader remembered
8 0 RACE 1 7 1: 0 fork 1, 1 read 5, 1 halt 0, 0 fork 2, 2 read 5, 2 halt 0, 0 join 2, 0 write 5
# A paused parent's accesses before the fork taken as unordered with its child's
3 0 CLEAN 0 0 0: 0 write 5, 0 fork 1, 1 write 5
4 0 CLEAN 0 0 0: 0 write 5, 0 fork 1, 1 read 5, 1 halt 0
5 0 CLEAN 0 0 0: 0 read 5, 0 fork 1, 1 fork 2, 2 write 5, 2 halt 1
# the accesses of two children of one parent
5 0 RACE 1 4 0: 0 fork 1, 1 write 5, 1 halt 0, 0 fork 2, 2 read 5
# A halt's operand names the task that resumes: a nest of three that names each parent
7 0 CLEAN 0 0 0: 0 fork 1, 1 fork 2, 2 fork 3, 3 halt 2, 2 halt 1, 1 halt 0, 0 halt 0
# the inner halt with 0; the second with 0, the bottom of the stack; the inner one with the task above that, with itself, with 1,024 more than is right
7 0 REFUSED 12 3 0: 0 fork 1, 1 fork 2, 2 fork 3, 3 halt 0, 2 halt 1, 1 halt 0, 0 halt 0
7 0 REFUSED 12 4 0: 0 fork 1, 1 fork 2, 2 fork 3, 3 halt 2, 2 halt 0, 1 halt 0, 0 halt 0
7 0 REFUSED 12 3 0: 0 fork 1, 1 fork 2, 2 fork 3, 3 halt 1, 2 halt 1, 1 halt 0, 0 halt 0
7 0 REFUSED 12 3 0: 0 fork 1, 1 fork 2, 2 fork 3, 3 halt 3, 2 halt 1, 1 halt 0, 0 halt 0
7 0 REFUSED 12 3 0: 0 fork 1, 1 fork 2, 2 fork 3, 3 halt 1026, 2 halt 1, 1 halt 0, 0 halt 0
# a child of task 0 that names itself; for task 0's own halt it is 0
7 0 REFUSED 12 5 0: 0 fork 1, 1 fork 2, 2 fork 3, 3 halt 2, 2 halt 1, 1 halt 1, 0 halt 0
7 0 REFUSED 12 6 0: 0 fork 1, 1 fork 2, 2 fork 3, 3 halt 2, 2 halt 1, 1 halt 0, 0 halt 1
# not the task at the left, nor the one that halted last
6 0 CLEAN 0 0 0: 0 fork 1023, 1023 fork 2, 2 halt 1023, 1023 fork 1, 1 halt 1023, 1023 halt 0
5 0 REFUSED 12 4 0: 0 fork 1023, 1023 fork 2, 2 halt 1023, 1023 fork 1, 1 halt 2
# rows 6 and 7 before row 12, and a race before it
2 0 REFUSED 6 1 0: 0 halt 0, 0 halt 1
3 0 REFUSED 7 2 0: 0 fork 1, 1 fork 2, 1 halt 2
6 0 RACE 2 4 0: 0 fork 1, 1 fork 2, 2 write 5, 2 halt 1, 1 write 5, 1 halt 1
",
        cells,
    )
}

// Runs told wrong: the answer, a cell of the first order, a cell of the second; the links of a clean trace and of a race, too many and too few; links beside a
// refusal; and what a judge would answer that takes sums for something else, or what a halt names.
pub fn read_wrong_runs(cells: &mut [u16]) -> Option<usize> {
    read_table(
        "
5 5 RACE 2 4 0: 0 fork 1, 1 write 5, 1 write 5, 1 halt 0, 0 read 5; 0 1 4 2 3; 0 4 1 2 3
5 5 RACE 1 4 0: 0 fork 1, 1 write 5, 1 write 5, 1 halt 0, 0 read 5; 1 1 4 2 3; 0 4 1 2 3
5 5 RACE 1 4 0: 0 fork 1, 1 write 5, 1 write 5, 1 halt 0, 0 read 5; 0 1 4 2 3; 0 4 1 2 4
6 0 CLEAN 0 0 2: 0 fork 1, 1 halt 0, 0 fork 2, 2 halt 0, 0 join 2, 0 join 1
6 0 CLEAN 0 0 0: 0 fork 1, 1 halt 0, 0 fork 2, 2 halt 0, 0 join 2, 0 join 1
8 0 RACE 1 7 0: 0 fork 1, 1 read 5, 1 halt 0, 0 fork 2, 2 read 5, 2 halt 0, 0 join 2, 0 write 5
8 0 RACE 1 7 2: 0 fork 1, 1 read 5, 1 halt 0, 0 fork 2, 2 read 5, 2 halt 0, 0 join 2, 0 write 5
5 0 REFUSED 11 4 1: 0 fork 1, 1 halt 0, 0 fork 2, 2 halt 0, 0 join 1
# a sum conflicts with a sum
4 0 RACE 1 3 0: 0 fork 1, 1 sum 5, 1 halt 0, 0 sum 5
# a read does not conflict with a sum, either way round
4 0 CLEAN 0 0 0: 0 fork 1, 1 sum 5, 1 halt 0, 0 read 5
4 0 CLEAN 0 0 0: 0 fork 1, 1 read 5, 1 halt 0, 0 sum 5
# a write does not conflict with a sum, either way round
4 0 CLEAN 0 0 0: 0 fork 1, 1 sum 5, 1 halt 0, 0 write 5
4 0 CLEAN 0 0 0: 0 fork 1, 1 write 5, 1 halt 0, 0 sum 5
# a sum is kept as a write, and that of task 2 held against it
5 0 RACE 1 4 0: 0 fork 1, 1 sum 5, 1 halt 0, 0 fork 2, 2 sum 5
# only the last sum is kept
5 0 CLEAN 0 0 0: 0 fork 1, 1 sum 5, 1 halt 0, 0 sum 5, 0 read 5
5 0 CLEAN 0 0 0: 0 fork 1, 1 sum 5, 1 halt 0, 0 sum 5, 0 write 5
# kind 5 is refused, and so before row 6
1 0 REFUSED 5 0 0: 0 sum 5
2 0 REFUSED 5 1 0: 0 halt 0, 0 sum 5
# the location of a sum is not asked for
1 0 CLEAN 0 0 0: 0 sum 1024
# the two orders are exchanged
4 4 RACE 1 3 0: 0 fork 1, 1 sum 5, 1 halt 0, 0 read 5; 0 3 1 2; 0 1 3 2
# row 12 is held against 0, as it was, which is the bottom of the stack
3 0 REFUSED 12 2 0: 0 fork 1, 1 fork 2, 2 halt 1
3 0 CLEAN 0 0 0: 0 fork 1, 1 fork 2, 2 halt 0
# against the task above that
4 0 REFUSED 12 3 0: 0 fork 1, 1 fork 2, 2 fork 3, 3 halt 2
4 0 CLEAN 0 0 0: 0 fork 1, 1 fork 2, 2 fork 3, 3 halt 1
# against the task that halts
2 0 REFUSED 12 1 0: 0 fork 1, 1 halt 0
2 0 CLEAN 0 0 0: 0 fork 1, 1 halt 1
# against nothing
1 0 CLEAN 0 0 0: 0 halt 1
",
        cells,
    )
}

// The answer that the table tells of the run at a cell. One that has no word for it is no answer.
pub fn told(cells: &[u16], at: usize) -> Reply {
    let told = |i: usize| get(cells, at.wrapping_add(i));
    Reply {
        case: Case::of(told(2)).unwrap_or(Case::Slow),
        a: told(3),
        b: told(4),
        links: told(5),
    }
}

// How many cells n events have.
pub fn cells_of(n: usize) -> usize {
    n.wrapping_mul(3)
}

// Where that stands in the table which is told behind the events of the run at a cell.
pub fn behind_events(cells: &[u16], at: usize) -> usize {
    let events = cells_of(get(cells, at));
    at.wrapping_add(HEAD).wrapping_add(events)
}

// How many cells of each order are told.
fn orders_told_of(cells: &[u16], at: usize) -> usize {
    get(cells, at.wrapping_add(1))
}

// Where the run behind the one at a cell stands.
pub fn next_run(cells: &[u16], at: usize) -> usize {
    let orders = orders_told_of(cells, at).wrapping_mul(2);
    behind_events(cells, at).wrapping_add(orders)
}

// Whether the cells of the table from a place on are these.
pub fn cells_told(cells: &[u16], from: usize, these: &[u16]) -> bool {
    cells
        .get(from..)
        .is_some_and(|told| told.starts_with(these))
}

// Whether the first cells of the memory, so many as are told, are what the table tells of the run at a cell: the two orders, or the earlier and the later positions.
pub fn orders_told(cells: &[u16], at: usize, memory: &Memory) -> bool {
    let m = orders_told_of(cells, at).min(ROOM);
    let from = behind_events(cells, at);
    cells_told(cells, from, &memory.first[..m])
        & cells_told(cells, from.wrapping_add(m), &memory.second[..m])
}
