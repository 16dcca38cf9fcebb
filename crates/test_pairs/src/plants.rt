// Wrong expectations: the comparison must notice each of them.
use crate::compare::{Lending, compare};
use test_calls::plants::{CELLS, lay_events, planted};
use test_calls::table::read_rows;
use test_cells::get;
use test_outcome::{Fault, Outcome, try_rows};
use test_slow::Memory;
use test_slow::close::Way;

// As the judge's plants, on the same events, which make the two pairs 1 4 and 2 4: how many of the events; the lending, 16 for slices of 7 and 8 cells or 9 for 2
// and 1; the answer that is told, or SLOW for the right one; the buffer and its cell that is expected wrong, with the earlier slice for the first and the later one
// for the second. But for one thing all is right. Answers how many plants there are, as read_rows does.
fn read_plants(cells: &mut [u16]) -> Option<usize> {
    read_rows(
        "
# the answer is that two pairs are listed, and refused 20 0
5 16 LISTED 1 0 0 none 0
5 16 LISTED 3 0 0 none 0
5 16 REFUSED 20 0 0 none 0
5 9 REFUSED 19 0 0 none 0
5 9 REFUSED 20 4 0 none 0
# of each slice the first and the last cell of the list, the first and the last past it, and the first and the last behind those that are lent
5 16 SLOW 0 0 0 first 0
5 16 SLOW 0 0 0 first 1
5 16 SLOW 0 0 0 first 2
5 16 SLOW 0 0 0 first 6
5 16 SLOW 0 0 0 first 7
5 16 SLOW 0 0 0 first 14
5 16 SLOW 0 0 0 second 0
5 16 SLOW 0 0 0 second 1
5 16 SLOW 0 0 0 second 2
5 16 SLOW 0 0 0 second 7
5 16 SLOW 0 0 0 second 8
5 16 SLOW 0 0 0 second 15
# after 20 all must be as it was
5 9 SLOW 0 0 0 first 0
5 9 SLOW 0 0 0 first 1
5 9 SLOW 0 0 0 second 0
5 9 SLOW 0 0 0 second 1
# of the workspace the first and the last cell that must be 0, and the first and the last that must be as it was; after 20 too
5 16 SLOW 0 0 0 ws 0
5 16 SLOW 0 0 0 ws 12292
5 16 SLOW 0 0 0 ws 12293
5 16 SLOW 0 0 0 ws 12312
5 9 SLOW 0 0 0 ws 0
5 9 SLOW 0 0 0 ws 12292
5 9 SLOW 0 0 0 ws 12293
",
        cells,
        CELLS,
    )
}

fn lending_of(cells: &[u16], row: usize) -> Lending {
    Lending::of(get(cells, ((row % 65536) * CELLS).wrapping_add(1)))
}

pub fn try_all(memory: &mut Memory) -> Outcome {
    let mut events = [0u16; 15];
    let mut cells = [0u16; 240];
    if lay_events(&mut events).is_none() {
        return Err(Fault { number: 0 });
    }
    let rows = read_plants(&mut cells);
    try_rows(rows, |row| {
        let lending = lending_of(&cells, row);
        compare(&events, planted(&cells, row), lending, Way::Right, memory).is_err()
    })
}
