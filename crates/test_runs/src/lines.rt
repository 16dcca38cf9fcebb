// Traces that have all 1,024 tasks in the line at once: both judges and both ordering calls must answer as written here.
use test_calls::lines::{lay_nest, lay_row, read_early, swap_joins};
use test_calls::{Reply, asking, judging, roomy};
use test_compare::compare;
use test_outcome::{Outcome, with};
use test_samples::events::Kind;
use test_slow::Memory;

// Whether the judges answer so.
pub fn judges(events: &[u16], n: usize, want: Reply, memory: &mut Memory) -> bool {
    compare(events, judging(roomy(n), 3), memory) == Ok(want)
}

// Whether the ordering calls, asked if p reaches the last position, answer so.
fn orders(events: &[u16], n: usize, p: usize, want: Reply, memory: &mut Memory) -> bool {
    let call = asking(roomy(n), p, n.wrapping_sub(1), 7);
    compare(events, call, memory) == Ok(want)
}

// Whether they say yes, or no.
pub fn reaches(events: &[u16], n: usize, p: usize, reach: bool, memory: &mut Memory) -> bool {
    orders(events, n, p, reach.into(), memory)
}

// 1,024 tasks nest: the write of the innermost races with the last read of task 0, which the first fork reaches.
fn nest(events: &mut [u16], memory: &mut Memory) -> bool {
    lay_nest(events);
    let race = judges(events, 2048, Reply::race(1023, 2047, 0), memory);
    let fork = reaches(events, 2048, 0, true, memory);
    let write = reaches(events, 2048, 1023, false, memory);
    race & fork & write
}

// 1,023 halted tasks stand in the line: joined in the right order, they race with nobody, and the first one's access reaches that of task 0. Each hangs under
// task 0.
fn row(events: &mut [u16], kind: Kind, last: Kind, memory: &mut Memory) -> bool {
    lay_row(events, kind, last);
    let clean = judges(events, 4093, Reply::clean(1), memory);
    let access = reaches(events, 4093, 1, true, memory);
    clean & access
}

// The same, but the last two joins are in the wrong order.
fn wrong_row(events: &mut [u16], memory: &mut Memory) -> bool {
    swap_joins(events);
    let want = Reply::refused(11, 4090);
    let judged = judges(events, 4093, want, memory);
    let ordered = orders(events, 4093, 1, want, memory);
    judged & ordered
}

// 1,023 tasks have added to a location, in no order, and before it joins them task 0 reads it: the first one's sum races.
fn early_read(events: &mut [u16], memory: &mut Memory) -> bool {
    read_early(events);
    let race = judges(events, 3070, Reply::race(1, 3069, 0), memory);
    let sum = reaches(events, 3070, 1, false, memory);
    race & sum
}

// Each trace is laid over the one before it.
pub fn try_all(memory: &mut Memory) -> Outcome {
    let mut events = [0u16; 12288];
    let nested = with(Ok(0), nest(&mut events, memory));
    let read = with(nested, row(&mut events, Kind::Read, Kind::Write, memory));
    let wrong = with(read, wrong_row(&mut events, memory));
    let summed = with(wrong, row(&mut events, Kind::Sum, Kind::Read, memory));
    with(summed, early_read(&mut events, memory))
}
