// The wrong ways of the slow list: each must be noticed.
use crate::{far, known};
use test_outcome::{Fault, Outcome};
use test_slow::Memory;
use test_slow::close::Way;

// A wrong way shows in a run that is told, or where events are as far apart as they may be.
fn is_noticed(way: Way, memory: &mut Memory) -> bool {
    known::try_all(way, memory).is_err() || far::at_the_edge(way, memory).is_err()
}

pub fn try_all(memory: &mut Memory) -> Outcome {
    for (number, way) in Way::WRONG.iter().enumerate() {
        if !is_noticed(*way, memory) {
            return Err(Fault { number });
        }
    }
    Ok(Way::WRONG.len())
}
