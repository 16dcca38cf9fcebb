// Traces whose chains of links are as long as they get: both judges must answer as is written with them.
use crate::lines::judges;
use test_calls::chains::Long;
use test_outcome::{Outcome, with};
use test_slow::Memory;

// Each trace is laid over the one before it.
pub fn try_all(memory: &mut Memory) -> Outcome {
    let mut events = [0u16; 12288];
    let mut outcome = Ok(0);
    for long in Long::ALL {
        let run = long.lay(&mut events);
        outcome = with(outcome, judges(&events, run.events, run.want, memory));
    }
    outcome
}
