// Wrong expectations: the comparison must notice each of them.
use crate::compare::compare;
use crate::slow::Way;
use test_calls::plants::{CELLS, planted};
use test_calls::table::read_rows;
use test_outcome::{Outcome, try_rows};
use test_slow::Memory;

// As the judge's plants: how many of the events; the answer that is told, CLEAN for converted, or SLOW for the right one; the buffer and its cell that is expected
// wrong. But for one thing all is right. Answers how many plants there are, as read_rows does.
fn read_plants(cells: &mut [u16]) -> Option<usize> {
    read_rows(
        "
# the answer
4 judge REFUSED 3 0 0 none 0
4 judge CLEAN 1 0 0 none 0
4 judge CLEAN 0 1 0 none 0
# of the workspace the first and the last cell that must be 0, and the first and the last that must be as it was
4 judge SLOW 0 0 0 ws 0
4 judge SLOW 0 0 0 ws 12291
4 judge SLOW 0 0 0 ws 12292
4 judge SLOW 0 0 0 ws 12311
# the operand of a fork, of the halt, of the event that breaks a rule, and of the first and the last cell behind those that are lent
4 judge SLOW 0 0 0 operands 0
4 judge SLOW 0 0 0 operands 2
4 judge SLOW 0 0 0 operands 3
4 judge SLOW 0 0 0 operands 4
4 judge SLOW 0 0 0 operands 11
# what the judge leaves
3 judge SLOW 0 0 0 first 0
",
        cells,
        CELLS,
    )
}

// The events are 0 fork 1, 1 fork 2, 2 halt, 0 read 5. The last is refused, since task 0 does not run: what the judge leaves is not looked at then, and only the
// conversion can be at fault.
pub fn try_all(memory: &mut Memory) -> Outcome {
    let events = [0u16, 2, 1, 1, 2, 2, 2, 4, 0, 0, 0, 5];
    let mut cells = [0u16; 128];
    let rows = read_plants(&mut cells);
    try_rows(rows, |row| {
        compare(&events, planted(&cells, row), Way::Right, memory)
            .answer
            .is_err()
    })
}
