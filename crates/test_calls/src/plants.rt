// Wrong expectations, as a table: a comparison that does not notice them would notice no wrong judge either.
use crate::known::told;
use crate::table::{read_rows, read_table};
use crate::{Buffer, Call, Plant, roomy};
use test_cells::get;

pub const CELLS: usize = 8;

// The events of all, document 01's run of two writes before an unordered read: race 1 4, and clean without the last.
pub fn lay_events(events: &mut [u16]) -> Option<usize> {
    read_table("0 fork 1, 1 write 5, 1 write 5, 1 halt 0, 0 read 5", events)
}

// Of each plant: how many of the events; the judge, or the ordering call for 0 and 4; the answer that is told with its two numbers and the links, or SLOW for
// what the slow one says, with so many links more; the buffer and its cell that is expected wrong. But for one thing all is right. Answers how many plants
// there are, as read_rows does.
pub fn read_plants(cells: &mut [u16]) -> Option<usize> {
    read_rows(
        "
# the answer is clean, and a race 1 4, both with 0 links
4 judge REFUSED 8 0 0 none 0
4 judge CLEAN 1 0 0 none 0
4 judge CLEAN 0 1 0 none 0
4 judge CLEAN 0 0 1 none 0
4 judge SLOW 0 0 1 none 0
5 judge RACE 2 4 0 none 0
5 judge RACE 1 4 1 none 0
5 judge SLOW 0 0 1 none 0
# the answer is yes
5 order NO 0 0 0 none 0
5 order YES 1 0 0 none 0
5 order YES 0 1 0 none 0
# of the workspace the first and the last cell that must be 0, and the first and the last that must be as it was
5 judge SLOW 0 0 0 ws 0
5 judge SLOW 0 0 0 ws 12292
5 judge SLOW 0 0 0 ws 12293
5 judge SLOW 0 0 0 ws 12312
5 order SLOW 0 0 0 ws 0
5 order SLOW 0 0 0 ws 12292
5 order SLOW 0 0 0 ws 12293
5 order SLOW 0 0 0 ws 12312
# of the order buffers the first and the last cell of the order, and the first and the last that must be as it was
5 judge SLOW 0 0 0 first 0
5 judge SLOW 0 0 0 first 4
5 judge SLOW 0 0 0 first 5
5 judge SLOW 0 0 0 first 14
5 judge SLOW 0 0 0 second 0
5 judge SLOW 0 0 0 second 4
5 judge SLOW 0 0 0 second 5
5 judge SLOW 0 0 0 second 15
",
        cells,
        CELLS,
    )
}

// The call of the plant in a row of the table.
pub fn planted(cells: &[u16], row: usize) -> Call {
    let at = (row % 65536) * CELLS;
    let told_at = |i: usize| get(cells, at.wrapping_add(i));
    let cell = told_at(7);
    Call {
        asked: (told_at(1) == 1).then_some((0, 4)),
        sizes: roomy(told_at(0)),
        salt: 3,
        want: told(cells, at),
        plant: Buffer::of(told_at(6)).map(|buffer| Plant { buffer, cell }),
    }
}
