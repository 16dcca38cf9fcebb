// Many traces at random.
use crate::compare::{LENDINGS, Lending, compare};
use crate::counts::Counts;
use test_calls::drawn::sizes_of;
use test_calls::{Answer, judging};
use test_outcome::{Outcome, try_each};
use test_samples::draws::{below, next, seed_of, stream};
use test_samples::make;
use test_slow::Memory;
use test_slow::close::Way;

const TRACES: usize = 4000;

// Half of them have slices that are just long enough.
fn lending_of(seed: usize) -> Lending {
    let draw = stream(seed, 6);
    if below(draw, 2) == 0 {
        return Lending::EXACT;
    }
    Lending::of(below(next(draw), LENDINGS))
}

fn answer(i: usize, memory: &mut Memory) -> Answer {
    let seed = seed_of(i);
    let mut events = [0u16; 12300];
    let n = make(&mut events, seed);
    let call = judging(sizes_of(n, stream(seed, 5)), seed);
    compare(&events, call, lending_of(seed), Way::Right, memory)
}

pub fn try_all(memory: &mut Memory, counts: &mut Counts) -> Outcome {
    try_each(TRACES, |i| counts.take(answer(i, memory)))
}
