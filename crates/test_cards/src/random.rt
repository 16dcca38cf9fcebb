// Many traces at random: each is judged with too few records, with just enough and with more.
use crate::compare::compare;
use crate::lending::RECORDS;
use test_calls::drawn::sizes_of;
use test_calls::{Case, Mismatch, Reply, judging};
use test_outcome::{Fault, count_at, count_more};
use test_samples::draws::{seed_of, stream};
use test_samples::make;
use test_slow::{Memory, Sizes};

pub const TRACES: usize = 1000;

// What came of the calls so far; the refusals by the numbers of their rows.
#[derive(Clone, Copy)]
pub struct Counts {
    pub events: usize,
    pub clean: usize,
    pub races: usize,
    // Of the clean traces and the races.
    pub links: [usize; 11],
    pub refused: [usize; 17],
}

impl Counts {
    fn new() -> Counts {
        Counts {
            events: 0,
            clean: 0,
            races: 0,
            links: [0; 11],
            refused: [0; 17],
        }
    }

    fn count(&mut self, reply: Reply) {
        match reply.case {
            Case::Refused => count_at(&mut self.refused, reply.a),
            Case::Race => {
                count_more(&mut self.races, 1);
                count_at(&mut self.links, reply.links);
            }
            _ => {
                count_more(&mut self.clean, 1);
                count_at(&mut self.links, reply.links);
            }
        }
    }

    // Judges with each number of records, and counts the answers.
    fn judge_all(
        &mut self,
        events: &[u16],
        sizes: Sizes,
        seed: usize,
        memory: &mut Memory,
    ) -> Result<(), Mismatch> {
        for (i, records) in RECORDS.iter().enumerate() {
            let call = judging(sizes, seed.wrapping_add(i));
            self.count(compare(events, call, *records, memory)?);
        }
        Ok(())
    }

    // Makes the trace of a seed, and compares.
    fn try_one(&mut self, seed: usize, memory: &mut Memory) -> Result<(), Mismatch> {
        let mut events = [0u16; 12300];
        let n = make(&mut events, seed);
        self.events = self.events.wrapping_add(n);
        let cut = n.wrapping_mul(3).min(12300);
        let sizes = sizes_of(n, stream(seed, 5));
        self.judge_all(&events[..cut], sizes, seed, memory)
    }
}

pub fn try_all(memory: &mut Memory) -> Result<Counts, Fault> {
    let mut counts = Counts::new();
    for number in 0..TRACES {
        counts
            .try_one(seed_of(number), memory)
            .map_err(|_| Fault { number })?;
    }
    Ok(counts)
}
