// Wrong expectations: the comparison must notice each of them.
use crate::compare::compare;
use test_calls::judging;
use test_calls::plants::{CELLS, planted};
use test_calls::table::{read_rows, read_table};
use test_cells::get;
use test_outcome::{Fault, Outcome, try_rows};
use test_slow::Memory;

// The events of all: race 9 15, and clean without the last, both with 1 link. Then location 5 is read once, written three times and added to twice, by events 1
// to 11, location 7 is added to by the events 4, 12 and 14, location 1,023 is read by event 7, and no other is touched.
pub fn lay_events(events: &mut [u16]) -> Option<usize> {
    read_table(
        "
0 fork 1, 1 write 5, 1 read 5, 1 write 5, 1 sum 7, 1 halt 0, 0 join 1, 0 read 1023,
0 fork 2, 2 write 5, 2 sum 5, 2 sum 5, 2 sum 7, 2 halt 0, 0 sum 7, 0 read 5
",
        events,
    )
}

// Of each plant: how many of the events; how many records; the answer that is told with its two numbers and the links, or SLOW for what the slow judge says,
// with so many links more; the buffer and its cell that is expected wrong, or the field of a card and its location. But for one thing all is right. Answers how
// many plants there are, as read_rows does.
fn read_plants(cells: &mut [u16]) -> Option<usize> {
    read_rows(
        "
# the answer is clean, and refused 16 0
15 1024 CLEAN 1 0 1 none 0
15 1024 CLEAN 0 1 1 none 0
15 1023 REFUSED 4 0 0 none 0
15 1023 REFUSED 16 1 0 none 0
15 0 REFUSED 4 0 0 none 0
# the links of clean, of a race and of 16
15 1024 CLEAN 0 0 0 none 0
15 1024 CLEAN 0 0 2 none 0
16 1024 SLOW 0 0 1 none 0
15 1023 REFUSED 16 0 1 none 0
# each field of a card, of the first location, of one with all kinds of access, of one with sums alone, and of the last; where none touched it, the marker
15 1024 SLOW 0 0 0 reads 0
15 1024 SLOW 0 0 0 writes 0
15 1024 SLOW 0 0 0 sums 0
15 1024 SLOW 0 0 0 earliest 0
15 1024 SLOW 0 0 0 latest 0
15 1024 SLOW 0 0 0 reads 5
15 1024 SLOW 0 0 0 writes 5
15 1024 SLOW 0 0 0 sums 5
15 1024 SLOW 0 0 0 earliest 5
15 1024 SLOW 0 0 0 latest 5
15 1024 SLOW 0 0 0 reads 7
15 1024 SLOW 0 0 0 writes 7
15 1024 SLOW 0 0 0 sums 7
15 1024 SLOW 0 0 0 earliest 7
15 1024 SLOW 0 0 0 latest 7
15 1024 SLOW 0 0 0 reads 1023
15 1024 SLOW 0 0 0 writes 1023
15 1024 SLOW 0 0 0 sums 1023
15 1024 SLOW 0 0 0 earliest 1023
15 1024 SLOW 0 0 0 latest 1023
15 5000 SLOW 0 0 0 latest 1022
# all cards are due, and none
15 1024 SLOW 0 0 0 due 0
16 1024 SLOW 0 0 0 due 0
15 1023 SLOW 0 0 0 due 0
# of the workspace after clean the first and the last cell of the tables, the next, the last that must be 0, and the first and the last that must be as it was
15 1024 SLOW 0 0 0 ws 0
15 1024 SLOW 0 0 0 ws 5119
15 1024 SLOW 0 0 0 ws 5120
15 1024 SLOW 0 0 0 ws 12302
15 1024 SLOW 0 0 0 ws 12303
15 1024 SLOW 0 0 0 ws 12322
# after a race too, and after 16 all must be as it was
16 1024 SLOW 0 0 0 ws 0
16 1024 SLOW 0 0 0 ws 12323
15 1023 SLOW 0 0 0 ws 0
15 1023 SLOW 0 0 0 ws 5119
15 1023 SLOW 0 0 0 ws 12322
# of the order buffers the first and the last cell of the order, and the next; after clean and 16 all must be as it was
16 1024 SLOW 0 0 0 first 0
16 1024 SLOW 0 0 0 first 15
16 1024 SLOW 0 0 0 first 16
16 1024 SLOW 0 0 0 second 0
16 1024 SLOW 0 0 0 second 15
16 1024 SLOW 0 0 0 second 16
15 1024 SLOW 0 0 0 first 0
15 1024 SLOW 0 0 0 second 0
15 1023 SLOW 0 0 0 first 0
15 1023 SLOW 0 0 0 second 0
",
        cells,
        CELLS,
    )
}

// With no plant the events agree, and with it they do not.
fn is_noticed(cells: &[u16], row: usize, events: &[u16], memory: &mut Memory) -> bool {
    let records = get(cells, ((row % 65536) * CELLS).wrapping_add(1));
    let call = planted(cells, row);
    let bare = compare(events, judging(call.sizes, call.salt), records, memory);
    let wrong = compare(events, call, records, memory);
    bare.is_ok() && wrong.is_err()
}

pub fn try_all(memory: &mut Memory) -> Outcome {
    let mut events = [0u16; 48];
    let mut cells = [0u16; 500];
    if lay_events(&mut events).is_none() {
        return Err(Fault { number: 0 });
    }
    let rows = read_plants(&mut cells);
    try_rows(rows, |row| is_noticed(&cells, row, &events, memory))
}
