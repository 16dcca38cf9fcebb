// The slow judge, the slow ordering call, slow cards and the slow list of close pairs: documents 01 and 02 taken at their word, with no part of the fast ones.
#![tactic(auto)]

pub mod card;
pub mod close;
pub mod events;
mod joins;
mod paths;
mod races;
pub mod rows;
pub mod rules;

use events::Trace;
use joins::links_after;
use paths::Paths;
use rows::{Refusal, Row};
use rules::{Halts, Line};
use std::alloc::{AllocError, Global};

pub const EVENTS: usize = paths::EVENTS;

// "At most 32,768 events."
const MOST_EVENTS: usize = 32768;

// "The workspace has at least 12,288 cells more than the trace has events."
const WORKSPACE: usize = 12288;

// "fewer than 1,024 records"
const RECORDS: usize = 1024;

// The most pairs that are kept.
pub const ROOM: usize = 83301;

// What the slow calls leave: the paths among the events that they took, and what the first cells of two buffers must hold. After a race those are the two orders of
// the events up to t; of a list of pairs they are the earlier and the later positions. They are
// no Vecs: a push can fail, and each caller would hand that on.
#[derive(Drop)]
pub struct Memory {
    paths: Paths,
    pub first: [u16; ROOM],
    pub second: [u16; ROOM],
}

impl Memory {
    pub fn new(alloc: Global) -> Result<Memory, AllocError> {
        Ok(Memory {
            paths: Paths::new(alloc)?,
            first: [0; ROOM],
            second: [0; ROOM],
        })
    }
}

// What the judge says of a trace that it does not turn back.
#[derive(Clone, Copy, PartialEq, Eq)]
pub enum Verdict {
    Clean { links: usize },
    Race { s: usize, t: usize, links: usize },
}

// ---- sizes

// How many cells of each slice are lent.
#[derive(Clone, Copy, PartialEq, Eq)]
pub struct Sizes {
    pub kinds: usize,
    pub tasks: usize,
    pub operands: usize,
    pub ws: usize,
    pub first: usize,
    pub second: usize,
}

impl Sizes {
    // Rows 1 to 3.
    pub fn check(self) -> Result<(), Row> {
        if self.tasks != self.kinds || self.operands != self.kinds {
            return Err(Row::UnequalSlices);
        }
        if MOST_EVENTS < self.kinds {
            return Err(Row::ManyEvents);
        }
        if self.ws < WORKSPACE + self.kinds {
            return Err(Row::ShortWorkspace);
        }
        Ok(())
    }

    // Rows 1 to 4.
    fn check_orders(self) -> Result<(), Row> {
        self.check()?;
        if self.first < self.kinds || self.second < self.kinds {
            return Err(Row::ShortOrders);
        }
        Ok(())
    }

    // Rows 1 to 4 and 16: "16, fewer than 1,024 records, a size check tested after 4".
    fn check_records(self, records: usize) -> Result<(), Row> {
        self.check_orders()?;
        if records < RECORDS {
            return Err(Row::FewRecords);
        }
        Ok(())
    }
}

// ---- the events

// Holds event q to the line rules, and takes it: the line and its paths are known then.
fn take(
    trace: Trace<'_>,
    halts: Halts,
    line: &mut Line,
    paths: &mut Paths,
    q: usize,
) -> Result<(), Refusal> {
    line.check(trace, halts, q)
        .map_err(|row| Refusal { row, position: q })?;
    paths.take(trace, q);
    line.take(trace.event(q));
    Ok(())
}

// The links at a clean trace are those after all events, at a race those after event t: "later events are not looked at".
fn clean(trace: Trace<'_>) -> Verdict {
    Verdict::Clean {
        links: links_after(trace, trace.len()),
    }
}

// "The first order buffer then holds .. s, t, .. The second holds the same with t, s."
fn race(trace: Trace<'_>, s: usize, t: usize, memory: &mut Memory) -> Verdict {
    races::order(&memory.paths, s, t, s, t, &mut memory.first);
    races::order(&memory.paths, s, t, t, s, &mut memory.second);
    Verdict::Race {
        s,
        t,
        links: links_after(trace, t.wrapping_add(1)),
    }
}

// "Events are taken in position order. Each is first held to the line rules, .. then to the race test. .. The first failure decides".
fn judge_events(trace: Trace<'_>, halts: Halts, memory: &mut Memory) -> Result<Verdict, Refusal> {
    let mut line = Line::new();
    for t in 0..trace.len() {
        take(trace, halts, &mut line, &mut memory.paths, t)?;
        if let Some(s) = races::partner(trace, &memory.paths, t) {
            return Ok(race(trace, s, t, memory));
        }
    }
    Ok(clean(trace))
}

// Whether the events keep the line rules with this row 12. The paths among those before the first that does not are known then.
pub fn check(trace: Trace<'_>, halts: Halts, memory: &mut Memory) -> Result<(), Refusal> {
    let mut line = Line::new();
    for q in 0..trace.len() {
        take(trace, halts, &mut line, &mut memory.paths, q)?;
    }
    Ok(())
}

// The position of the first event that breaks a rule with this row 12, or how many there are where none does.
pub fn first_break(trace: Trace<'_>, halts: Halts, memory: &mut Memory) -> usize {
    match check(trace, halts, memory) {
        Ok(()) => trace.len(),
        Err(refusal) => refusal.position,
    }
}

// ---- the calls

// What the judge with this row 12 must answer to slices of these sizes; the trace's are of theirs. After a race the two orders stand in the memory.
pub fn judge(
    trace: Trace<'_>,
    sizes: Sizes,
    halts: Halts,
    memory: &mut Memory,
) -> Result<Verdict, Refusal> {
    sizes.check_orders()?;
    judge_events(trace, halts, memory)
}

// What the judge with cards must answer where so many records are lent: a check more, and else as the judge.
pub fn judge_cards(
    trace: Trace<'_>,
    sizes: Sizes,
    records: usize,
    memory: &mut Memory,
) -> Result<Verdict, Refusal> {
    sizes.check_records(records)?;
    judge_events(trace, Halts::Named, memory)
}

// How many cells of the workspace a call on n events must leave 0, by the number of its refusal, if it is one: "After refusals 1 to 4, and any later one tested
// before the first event is looked at, the workspace is unchanged. After every other answer the first 12,288 cells plus one per event are 0, and the rest is
// unchanged."
pub fn cleared(refused: Option<usize>, n: usize) -> usize {
    match refused {
        Some(1..=4 | 16) => 0,
        _ => n.wrapping_add(WORKSPACE),
    }
}

// What the ordering call must answer: whether p reaches q, of a trace that keeps the line rules. It has no order buffers.
pub fn ordering(
    trace: Trace<'_>,
    sizes: Sizes,
    p: usize,
    q: usize,
    memory: &mut Memory,
) -> Result<bool, Refusal> {
    sizes.check()?;
    check(trace, Halts::Named, memory)?;
    if sizes.kinds <= p || sizes.kinds <= q {
        return Err(Row::UnknownPosition.into());
    }
    Ok(memory.paths.reaches(p, q))
}
