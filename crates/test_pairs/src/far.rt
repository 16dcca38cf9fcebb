// Events that are as far apart as those of a pair may be, and more than 65,535 pairs.
use crate::compare::{Lending, compare};
use crate::counts::Counts;
use crate::slow::listed;
use test_calls::large::put_one;
use test_calls::lines::lay_row;
use test_calls::table::read_table;
use test_calls::{Answer, Call, Mismatch, judging, roomy, wanting};
use test_outcome::{Outcome, try_each};
use test_samples::events::Kind;
use test_slow::Memory;
use test_slow::close::Way;

const TRIES: usize = 5;

// The try in which two writes are 257 and 256 events before a third.
const EDGE: usize = 1;

// A pair, then two writes by task 2, then reads by task 0, and last its write of the same location: this is 256 and 255 events behind the two, 257 and 256, or 258
// and 257. No other event between them has the location.
fn lay_write(i: usize, events: &mut [u16]) -> Option<Call> {
    read_table(
        "0 fork 1, 1 write 5, 1 halt 0, 0 read 5, 0 fork 2, 2 write 6, 2 write 6, 2 halt 0",
        events,
    )?;
    let last = i.wrapping_add(261);
    put_one(events, last, 0, Kind::Write, 6);
    let call = judging(roomy(last.wrapping_add(1)), i);
    Some(wanting(call, listed(3usize.wrapping_sub(i))))
}

// The writes of a row of tasks stand at 1, 4, 7 and so on to 3,067. All are unordered, and each races with the 85 before it, which are up to 255 events away, or
// with all where they are fewer: 0 + 1 + .. + 84 + 938 * 85 pairs. Task 0 joins all, so its own write at the end races with none.
const PAIRS: usize = 83300;

fn lay_tasks(i: usize, events: &mut [u16]) -> Call {
    lay_row(events, Kind::Write, Kind::Write);
    let call = judging(roomy(4093), i);
    if i == 3 {
        return wanting(call, listed(PAIRS));
    }
    call
}

fn lay(i: usize, events: &mut [u16]) -> Option<Call> {
    if i < 3 {
        return lay_write(i, events);
    }
    Some(lay_tasks(i, events))
}

// Slices that are just long enough, and at last a cell too few for the later positions.
fn lending_of(i: usize) -> Lending {
    if i < 4 {
        Lending::EXACT
    } else {
        Lending::SHORT
    }
}

fn answer(i: usize, way: Way, memory: &mut Memory) -> Answer {
    let mut events = [0u16; 12300];
    let call = lay(i, &mut events).ok_or(Mismatch)?;
    compare(&events, call, lending_of(i), way, memory)
}

pub fn at_the_edge(way: Way, memory: &mut Memory) -> Answer {
    answer(EDGE, way, memory)
}

pub fn try_all(memory: &mut Memory, counts: &mut Counts) -> Outcome {
    try_each(TRIES, |i| counts.take(answer(i, Way::Right, memory)))
}
