// Rows 1 to 4 of document 01's table, as a table of the lengths of slices.
use crate::Reply;
use crate::table::read_rows;
use test_cells::get;
use test_slow::Sizes;

const CELLS: usize = 7;

// Of each run the lengths of the six slices, and the row by which it is refused, or 0. Answers how many runs there are, as read_rows does.
pub fn read_runs(cells: &mut [u16]) -> Option<usize> {
    read_rows(
        "
# kinds 2, tasks 3, operands 3, and the like
2 3 3 12300 3 3: 1
3 2 3 12300 3 3: 1
3 3 2 12300 3 3: 1
2 2 3 12300 3 3: 1
0 0 1 12300 3 3: 1
1 0 0 12300 3 3: 1
# row 1 before rows 2, 3 and 4
32769 1 1 0 0 0: 1
1 2 1 0 0 0: 1
# 32,769 events, also before rows 3 and 4
32769 32769 32769 45057 32769 32769: 2
32769 32769 32769 0 0 0: 2
# 1 event, 12,288 cells, and the like, also before row 4
1 1 1 12288 1 1: 3
1 1 1 0 0 0: 3
0 0 0 12287 0 0: 3
32768 32768 32768 45055 32768 32768: 3
# 1 event, 0 cells, in either buffer
1 1 1 12289 0 1: 4
1 1 1 12289 1 0: 4
1 1 1 12289 0 0: 4
32768 32768 32768 45056 32767 32768: 4
32768 32768 32768 45056 32768 32767: 4
# just enough, and more than enough
0 0 0 12288 0 0: 0
0 0 0 12400 7 9: 0
1 1 1 12289 1 1: 0
4 4 4 12292 4 4: 0
4 4 4 13000 90 4: 0
",
        cells,
        CELLS,
    )
}

fn at(cells: &[u16], run: usize, i: usize) -> usize {
    get(cells, ((run % 65536) * CELLS).wrapping_add(i))
}

pub fn lengths(cells: &[u16], run: usize) -> Sizes {
    Sizes {
        kinds: at(cells, run, 0),
        tasks: at(cells, run, 1),
        operands: at(cells, run, 2),
        ws: at(cells, run, 3),
        first: at(cells, run, 4),
        second: at(cells, run, 5),
    }
}

// What a call answers that answers so where it is not refused, of the judge that there are no links: all events are reads by task 0, and none is a join.
pub fn told(cells: &[u16], run: usize, passed: Reply) -> Reply {
    match at(cells, run, 6) {
        0 => passed,
        row => Reply::refused(row, 0),
    }
}
