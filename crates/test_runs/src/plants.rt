// Wrong expectations: the comparison must notice each of them.
use test_calls::plants::{lay_events, planted, read_plants};
use test_calls::{Reply, judging, roomy};
use test_compare::{agrees, compare};
use test_outcome::{Fault, Outcome, try_rows};
use test_slow::Memory;

// With no plant the events agree. The slow judge leaves their orders in the memory, where the plants that tell the answer find them.
fn bare_agrees(events: &[u16], memory: &mut Memory) -> bool {
    compare(events, judging(roomy(5), 3), memory) == Ok(Reply::race(1, 4, 0))
}

pub fn try_all(memory: &mut Memory) -> Outcome {
    let mut events = [0u16; 15];
    let mut cells = [0u16; 256];
    let laid = lay_events(&mut events);
    let rows = read_plants(&mut cells);
    if laid.is_none() || !bare_agrees(&events, memory) {
        return Err(Fault { number: 0 });
    }
    try_rows(rows, |row| !agrees(&events, planted(&cells, row), memory))
}
