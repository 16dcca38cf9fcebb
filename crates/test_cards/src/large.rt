// Traces of 32,768 accesses of one location by task 0, too many for the slow judge: what must come of them is written out here. "32,768 reads by task 0: clean"
use crate::compare::compared;
use crate::lending::ENOUGH;
use test_calls::Reply;
use test_calls::large::judging;
use test_outcome::{Outcome, with};
use test_samples::events::Kind;
use test_slow::Memory;
use test_slow::card::{Card, card_of};
use test_slow::events::Trace;

// The card of a location that all events touch.
fn touched() -> Card {
    Card {
        reads: 0,
        writes: 0,
        sums: 0,
        first: 0,
        last: 32767,
    }
}

// Whether the call comes to what it must, and the slow card of the location is the one that is told.
fn agree(kind: Kind, l: u16, records: usize, want: Reply, told: Card, memory: &mut Memory) -> bool {
    let kinds = [kind as u8; 32768];
    let tasks = [0u16; 32768];
    let operands = [l; 32768];
    let trace = Trace {
        kinds: &kinds,
        tasks: &tasks,
        operands: &operands,
    };
    let answer = compared(trace, judging(want), records, memory);
    answer == Ok(want) && card_of(trace, l.into()) == told
}

pub fn try_all(memory: &mut Memory) -> Outcome {
    let clean = Reply::clean(0);
    let few = Reply::refused(16, 0);
    let reads = Card {
        reads: 32768,
        ..touched()
    };
    let writes = Card {
        writes: 32768,
        ..touched()
    };
    let sums = Card {
        sums: 32768,
        ..touched()
    };
    let one = with(Ok(0), agree(Kind::Read, 0, ENOUGH, clean, reads, memory));
    let two = with(one, agree(Kind::Write, 1023, ENOUGH, clean, writes, memory));
    let three = with(two, agree(Kind::Sum, 512, ENOUGH, clean, sums, memory));
    with(three, agree(Kind::Read, 0, ENOUGH - 1, few, reads, memory))
}
