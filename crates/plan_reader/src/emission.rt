// The second pass: the events of a plan, written to three slices. The text is known to be a plan's, and the slices to have room. It is a loop with a stack of its own:
// with a call for each operator, which hands on the slices, the reader took twice as long.
ghost use Rattle.std.specs.Prelude.{◌≡◌, ◌+◌, ◌≤◌, ◌<◌, drop, length, set};
ghost use Rattle.trace.specs.Slices.{slices, store_all, Room};
ghost use Rattle.trace.specs.Trace.{TASKS};
ghost use Rattle.plan.specs.Events.{kind_of};
ghost use Rattle.plan_reader.specs.Machine.{adds, opening_frame, opened, turned, closed, events_in, step_of, state_of};
ghost use Rattle.plan_reader.specs.Machine.{Stands, Goes, After, AfterLeaf, Ready, Emitted};

use crate::reading::{LAST_LOCATION, LEVELS};
use cells::store_event;
use plan::{Access, Letter, Operator};
use trace::{Event, FORK, HALT, JOIN, READ, SUM, WRITE};

// An operator that is open: the task that runs it, and the one that P forked for it. As many as may be open stand in an array: the judge takes no memory of its own.
#[derive(Clone, Copy)]
pub struct Frame {
    pub actor: u16,
    pub child: Option<u16>,
}

// How far the writing has come: the next byte, how many operators are open, the number of the next task, and the task that runs.
#[derive(Clone, Copy)]
pub struct Writer {
    pub at: usize,
    pub depth: usize,
    pub next: u16,
    pub actor: u16,
}

// One move along the text: the event that it writes, if any, and the writer after it.
#[derive(Clone, Copy)]
pub struct Move {
    pub event: Option<Event>,
    pub after: Writer,
}

// `From` would need a definition of its own for this one call.
fn kind_of(access: Access) -> u8
    ensures { result ≡ kind_of access }
{
    match access {
        Access::Read => READ,
        Access::Write => WRITE,
        Access::Sum => SUM,
    }
}

impl Writer {
    // A leaf, behind its letter, is one event.
    fn leaf(self, text: &[u8], access: Access) -> Move
        ensures { AfterLeaf access text.now self result }
    {
        let Some(location) = numbers::number_at(text, self.at, LAST_LOCATION) else {
            return Move {
                event: None,
                after: self,
            };
        };
        let event = Event {
            kind: kind_of(access),
            task: self.actor,
            operand: location.value,
        };
        Move {
            event: Some(event),
            after: Writer {
                at: location.end,
                ..self
            },
        }
    }

    // Before the operands of an operator: "P forks a task for G1".
    fn enter(self, operator: Operator, stack: &mut [Frame]) -> Move
        requires low { self.depth < length stack.old }
        requires few { self.next + adds operator ≤ TASKS }
        ensures frames { stack.new ≡ set stack.old self.depth (opening_frame operator self) }
        ensures moves { result ≡ opened operator self }
    {
        let deeper = Writer {
            depth: self.depth + 1,
            ..self
        };
        match operator {
            Operator::Series => {
                stack[self.depth] = Frame {
                    actor: self.actor,
                    child: None,
                };
                Move {
                    event: None,
                    after: deeper,
                }
            }
            Operator::Parallel => {
                stack[self.depth] = Frame {
                    actor: self.actor,
                    child: Some(self.next),
                };
                let fork = Event {
                    kind: FORK,
                    task: self.actor,
                    operand: self.next,
                };
                Move {
                    event: Some(fork),
                    after: Writer {
                        next: self.next + 1,
                        actor: self.next,
                        ..deeper
                    },
                }
            }
        }
    }

    // Between the operands: the task that P forked halts, and its parent "goes on with G2". The halt names the parent, "the task that resumes".
    fn turn(self, frame: Frame) -> Move
        ensures { result ≡ turned self frame }
    {
        let halt = frame.child.map(|child| Event {
            kind: HALT,
            task: child,
            operand: frame.actor,
        });
        Move {
            event: halt,
            after: Writer {
                actor: frame.actor,
                ..self
            },
        }
    }

    // After the operands: P "then joins".
    fn close(self, frame: Frame) -> Move
        requires { 0 < self.depth }
        ensures { result ≡ closed self frame }
    {
        let join = frame.child.map(|child| Event {
            kind: JOIN,
            task: frame.actor,
            operand: child,
        });
        Move {
            event: join,
            after: Writer {
                depth: self.depth - 1,
                ..self
            },
        }
    }

    // One step along the text.
    fn step(self, text: &[u8], stack: &mut [Frame]) -> Move
        requires stands { Stands self text.now stack.old }
        requires goes { Goes (step_of (drop self.at text.now) (state_of self stack.old)) }
        ensures depth { length stack.new ≡ LEVELS }
        ensures moves { After (step_of (drop self.at text.now) (state_of self stack.old)) text.now self result stack.new }
    {
        let byte = text[self.at];
        let past = Writer {
            at: self.at + 1,
            ..self
        };
        let letter = plan::letter_of(byte);
        match letter {
            Some(Letter::Leaf(access)) => past.leaf(text, access),
            Some(Letter::Joint(operator)) => {
                let inside = Writer {
                    at: self.at + 2,
                    ..self
                };
                inside.enter(operator, stack)
            }
            None => {
                let frame = stack[self.depth - 1];
                if byte == b',' {
                    past.turn(frame)
                } else {
                    past.close(frame)
                }
            }
        }
    }
}

// Stores the event, if there is one, as event `count`. The answer is the number of events then.
fn store(
    written: Option<Event>,
    count: usize,
    kinds: &mut [u8],
    tasks: &mut [u16],
    operands: &mut [u16],
) -> usize
    requires { Room (slices kinds.old tasks.old operands.old) (count + length (events_in written)) }
    ensures count { result ≡ count + length (events_in written) }
    ensures events { slices kinds.new tasks.new operands.new
        ≡ store_all (slices kinds.old tasks.old operands.old) count (events_in written) }
{
    let Some(event) = written else {
        return count;
    };
    store_event(kinds, tasks, operands, count, event);
    count + 1
}

// The events of the plan, which task 0 runs.
pub fn emit(text: &[u8], kinds: &mut [u8], tasks: &mut [u16], operands: &mut [u16])
    requires { Ready text.now (slices kinds.old tasks.old operands.old) }
    ensures { Emitted text.now (slices kinds.old tasks.old operands.old)
        (slices kinds.new tasks.new operands.new) }
{
    let mut stack = [Frame {
        actor: 0,
        child: None,
    }; LEVELS];
    let mut writer = Writer {
        at: 0,
        depth: 0,
        next: 1,
        actor: 0,
    };
    let mut count = 0;
    while writer.at < text.len() {
        let step = writer.step(text, &mut stack);
        count = store(step.event, count, kinds, tasks, operands);
        writer = step.after;
    }
}
