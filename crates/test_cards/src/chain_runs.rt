// Traces whose chains of links are as long as they get: each is answered as is written with it where there are records enough, and else refused by 16.
use crate::lending::all_answer;
use test_calls::chains::Long;
use test_calls::{judging, roomy};
use test_outcome::{Outcome, with};
use test_slow::Memory;

// Each trace is laid over the one before it.
pub fn try_all(memory: &mut Memory) -> Outcome {
    let mut events = [0u16; 12288];
    let mut outcome = Ok(0);
    for (i, long) in Long::ALL.iter().enumerate() {
        let run = long.lay(&mut events);
        let call = judging(roomy(run.events), i);
        outcome = with(outcome, all_answer(&events, call, run.want, memory));
    }
    outcome
}
