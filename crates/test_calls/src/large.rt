// Calls on 32,768 events, too many for the slow judge: what must come of them is written out here.
use crate::{Call, Reply, wanting};
use test_samples::events::{Event, Kind, put_event};
use test_slow::{Memory, Sizes};

fn full() -> Sizes {
    Sizes {
        kinds: 32768,
        tasks: 32768,
        operands: 32768,
        ws: 45060,
        first: 32770,
        second: 32768,
    }
}

pub fn judging(want: Reply) -> Call {
    wanting(crate::judging(full(), 3), want)
}

// Whether position p reaches the last.
pub fn asking(p: usize, reaches: bool) -> Call {
    wanting(crate::asking(full(), p, 32767, 7), reaches.into())
}

pub fn put_one(events: &mut [u16], p: usize, task: usize, kind: Kind, operand: usize) {
    put_event(events, p, Event::new(task, kind, operand));
}

// `0 fork 1`, `1 write 6`, `1 halt`, reads of location 0 by task 0, and last `0 read 6`; where a cell is not set here it is 0.
pub fn lay_race(events: &mut [u16]) {
    put_one(events, 0, 0, Kind::Fork, 1);
    put_one(events, 1, 1, Kind::Write, 6);
    put_one(events, 2, 1, Kind::Halt, 0);
    put_one(events, 32767, 0, Kind::Read, 6);
}

// 0, 3 to 32,766, a, b, 2.
fn order(cells: &mut [u16], a: u16, b: u16) {
    let positions = [0u16].into_iter().chain(3..32767).chain([a, b, 2]);
    for (cell, position) in cells.iter_mut().zip(positions) {
        *cell = position;
    }
}

// Puts the two orders that the race must leave where the slow judge leaves its own.
pub fn put_orders(memory: &mut Memory) {
    order(&mut memory.first, 1, 32767);
    order(&mut memory.second, 32767, 1);
}
