// Traces of 32,768 events, too many for the slow judge: what must come of them is written out here.
use test_calls::Reply;
use test_calls::large::{asking, judging, lay_race, put_orders};
use test_compare::agrees;
use test_outcome::{Outcome, with};
use test_slow::Memory;

// "32,768 reads by task 0: clean". Behind the events of a call stand reads by task 0.
fn reads(memory: &mut Memory) -> bool {
    let events = [0u16; 3];
    agrees(&events, judging(Reply::clean(0)), memory)
}

// A race of the last event with the second.
fn race(events: &[u16], memory: &mut Memory) -> bool {
    put_orders(memory);
    agrees(events, judging(Reply::race(1, 32767, 0)), memory)
}

// The reads; the race, and that the fork reaches the last event and the child's write does not.
pub fn try_all(memory: &mut Memory) -> Outcome {
    let mut events = [0u16; 98304];
    lay_race(&mut events);
    let clean = with(Ok(0), reads(memory));
    let first = with(clean, race(&events, memory));
    let second = with(first, agrees(&events, asking(0, true), memory));
    with(second, agrees(&events, asking(1, false), memory))
}
