// One call of the reader in dirty slices of three lengths: its answer, every cell that it was lent and some behind them are held to what the slow reader says.
ghost use Rattle.std.specs.Prelude.{◌≤◌};

use crate::rows::Row;
use crate::slow_reader::read;
use crate::slow_trace::SlowTrace;
use crate::want::{Answer, Cells, events_of, lent, wanted};
use crate::wrong::{Part, Wrong};
use plan_reader::translate;
use trace::{Event, Refusal};

// The room of the slices, if they have any, a salt for the dirt, and the wrong rule that the slow reader goes by, if any.
#[derive(Clone, Copy)]
pub struct Call {
    pub room: Option<Cells>,
    pub salt: usize,
    pub plant: Option<Wrong>,
}

// The answer, or a cell, is not as it must be.
#[derive(Clone, Copy, PartialEq, Eq)]
pub struct Mismatch;

// Cells behind those that are lent, which must stay as they are.
const SPARE: usize = 4;

// ---- cells

fn dirt(i: usize, salt: usize) -> u16 {
    (((i % 65536) * 40503 + salt % 65536) % 65536) as u16
}

// What stands in cell i of the slices before a call.
fn dirty_event(i: usize, salt: usize) -> Event {
    Event {
        kind: (dirt(i, salt) % 256) as u8,
        task: dirt(i, salt.wrapping_add(77)),
        operand: dirt(i, salt.wrapping_add(777)),
    }
}

// An event with one of its three numbers changed.
fn with_fault(event: Event, part: Part) -> Event {
    match part {
        Part::Kind => Event {
            kind: event.kind.wrapping_add(1),
            ..event
        },
        Part::Task => Event {
            task: event.task.wrapping_add(1),
            ..event
        },
        Part::Operand => Event {
            operand: event.operand.wrapping_add(1),
            ..event
        },
    }
}

// What the slices must hold: so many events, and behind them the dirt of the salt.
#[derive(Clone, Copy)]
struct Expected {
    events: usize,
    salt: usize,
    plant: Option<Wrong>,
}

impl Expected {
    fn right_event(self, trace: &SlowTrace, i: usize) -> Event {
        let dirty = dirty_event(i, self.salt);
        if self.events <= i {
            return dirty;
        }
        trace.event_at(i).unwrap_or(dirty)
    }

    fn event(self, trace: &SlowTrace, i: usize) -> Event {
        let event = self.right_event(trace, i);
        match self.plant {
            Some(Wrong::First(part)) if i == 0 => with_fault(event, part),
            Some(Wrong::Behind(part)) if i == self.events => with_fault(event, part),
            _ => event,
        }
    }
}

// ---- calls

// Whether the reader, lent some of N cells, answers so and leaves the first n cells as they must be.
fn held_in<const N: usize>(
    text: &[u8],
    lent: Cells,
    n: usize,
    expected: Expected,
    want: Answer,
    trace: &SlowTrace,
) -> bool
    requires { N ≤ 32800 }
{
    let mut kinds = [0u8; N];
    let mut tasks = [0u16; N];
    let mut operands = [0u16; N];
    for i in 0..n.min(N) {
        let event = dirty_event(i, expected.salt);
        kinds[i] = event.kind;
        tasks[i] = event.task;
        operands[i] = event.operand;
    }
    let said = translate(
        text,
        &mut kinds[..lent.kinds.min(N)],
        &mut tasks[..lent.tasks.min(N)],
        &mut operands[..lent.operands.min(N)],
    );
    let holds = (0..n.min(N)).all(|i| {
        let event = Event {
            kind: kinds[i],
            task: tasks[i],
            operand: operands[i],
        };
        event == expected.event(trace, i)
    });
    holds && said == want
}

fn held(text: &[u8], lent: Cells, call: Call, want: Answer, trace: &SlowTrace) -> bool {
    let expected = Expected {
        events: want.unwrap_or(0),
        salt: call.salt,
        plant: call.plant,
    };
    let n = lent.most().wrapping_add(SPARE);
    // Few cells are quickly made.
    if n <= 64 {
        return held_in::<64>(text, lent, n, expected, want, trace);
    }
    held_in::<32800>(text, lent, n, expected, want, trace)
}

// What the reader answers to a text where the slow one reads another.
pub fn compare_two(
    text: &[u8],
    other: &[u8],
    call: Call,
    trace: &mut SlowTrace,
) -> Result<Answer, Mismatch> {
    let reading = read(other, call.plant);
    let lent = lent(events_of(reading), call.room);
    let want = wanted(other, reading, lent, trace, call.plant);
    if held(text, lent, call, want, trace) {
        return Ok(want);
    }
    Err(Mismatch)
}

pub fn compare(text: &[u8], call: Call, trace: &mut SlowTrace) -> Result<Answer, Mismatch> {
    compare_two(text, text, call, trace)
}

// ---- counts

// How many plans were accepted, how many met rows 17, 18 and 19, how many traces are clean and how many race, and of how many pairs of leaves the first reaches
// the second, and of how many it does not.
#[derive(Clone, Copy)]
pub struct Tally {
    pub accepted: usize,
    pub stray: usize,
    pub deep: usize,
    pub large: usize,
    pub clean: usize,
    pub races: usize,
    pub reach: usize,
    pub apart: usize,
}

impl Tally {
    pub fn new() -> Tally {
        Tally {
            accepted: 0,
            stray: 0,
            deep: 0,
            large: 0,
            clean: 0,
            races: 0,
            reach: 0,
            apart: 0,
        }
    }

    fn refused(&mut self, refusal: Refusal) {
        if refusal.number == Row::NoPlan as usize {
            self.stray = self.stray.wrapping_add(1);
        }
        if refusal.number == Row::DeepPlan as usize {
            self.deep = self.deep.wrapping_add(1);
        }
        if refusal.number == Row::LargePlan as usize {
            self.large = self.large.wrapping_add(1);
        }
    }

    // Counts an answer, and says whether it is one.
    pub fn agreed(&mut self, answer: Result<Answer, Mismatch>) -> bool {
        match answer {
            Ok(Ok(_)) => self.accepted = self.accepted.wrapping_add(1),
            Ok(Err(refusal)) => self.refused(refusal),
            Err(Mismatch) => return false,
        }
        true
    }
}
