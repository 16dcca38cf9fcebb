// How many records are lent, and what row 16 makes of it.
use crate::compare::compare;
use test_calls::{Call, Reply};
use test_slow::Memory;

pub const ENOUGH: usize = 1024;

// Each trace is judged with a record too few, with just enough, with more.
pub const RECORDS: [usize; 3] = [1023, ENOUGH, 5000];

// What is to be answered to so many records, where the judge answers so: row 16 comes behind rows 1 to 4 and before the events.
fn told_with(told: Reply, records: usize) -> Reply {
    match told.row() {
        _ if ENOUGH <= records => told,
        Some(1..=4) => told,
        _ => Reply::refused(16, 0),
    }
}

// Whether the call agrees and is answered as told, however many records are lent.
pub fn all_answer(events: &[u16], call: Call, told: Reply, memory: &mut Memory) -> bool {
    for records in RECORDS {
        if compare(events, call, records, memory) != Ok(told_with(told, records)) {
            return false;
        }
    }
    true
}
