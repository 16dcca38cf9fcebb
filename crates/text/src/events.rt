// The events of one line, with the halts that it implies, and the stack of tasks. The three lent arrays are no struct: each function would have to promise that
// the struct holds the same three.
ghost use Rattle.std.specs.Prelude.{◌≡◌, ◌-◌, ◌≤◌, ◌<◌, [], ◌∷◌, length};
ghost use Rattle.trace.specs.Line.{resumed};
ghost use Rattle.trace.specs.Slices.{slices, store_all};
ghost use Rattle.form.specs.Events.{kind_of, implied, halts, pushed};
ghost use Rattle.form.specs.Decided.{MAX_TEXT_EVENTS};
ghost use Rattle.text.specs.Answers.{tasks_of, tasks_on, STACK_CELLS, StackAfter, HaltsFit, added, added_of};

use crate::limits::{MAX_TEXT_EVENTS, STACK_CELLS};
use form::{Line, Operation};
use trace::{Event, FORK, HALT, JOIN, READ, WRITE};

// `From` would need a definition of its own for this one call.
fn kind_of(operation: Operation) -> u8
    ensures { result ≡ kind_of operation }
{
    match operation {
        Operation::Read => READ,
        Operation::Write => WRITE,
        Operation::Fork => FORK,
        Operation::Join => JOIN,
    }
}

// The stack of tasks: the first `depth` cells, the last one on top. It is no Vec: the judge takes no memory of its own.
#[derive(Drop)]
pub struct Stack {
    tasks: [u16; STACK_CELLS],
    depth: usize,
}

impl Stack {
    // "task 0 at the bottom"
    pub fn new() -> Stack
        ensures { (tasks_on result ≡ 0 ∷ []) × (result.depth ≡ 1) }
    {
        Stack {
            tasks: [0; STACK_CELLS],
            depth: 1,
        }
    }

    // The depth that a line of `task` leaves: the tasks above its highest place are gone.
    fn unwind(&self, task: u16) -> usize
        requires { self.now.depth ≤ STACK_CELLS }
        ensures { result ≡ self.now.depth - implied task (tasks_on self.now) }
    {
        for place in (0..self.depth).rev() {
            if self.tasks[place] == task {
                return place + 1;
            }
        }
        self.depth
    }

    // The operand of the halt of the task at `place`: "the task that resumes", which is the one below; 0 where there is none.
    fn halt_operand(&self, place: usize) -> u16
        requires { place ≤ STACK_CELLS }
        ensures { result ≡ resumed (tasks_of self.now.tasks place) }
    {
        if place == 0 { 0 } else { self.tasks[place - 1] }
    }

    // What a line's own event leaves over the first `base` tasks: a fork pushes its operand.
    fn push(&mut self, base: usize, operation: Operation, operand: u16)
        requires { base < STACK_CELLS }
        ensures { tasks_on self.new ≡ pushed operation operand (tasks_of self.old.tasks base) }
    {
        self.depth = base;
        if let Operation::Fork = operation {
            self.tasks[base] = operand;
            self.depth += 1;
        }
    }
}

// Halts for the tasks above depth `base`, top first, from event `from` on.
fn halt_above(
    stack: &Stack,
    base: usize,
    kinds: &mut [u8; MAX_TEXT_EVENTS],
    tasks: &mut [u16; MAX_TEXT_EVENTS],
    operands: &mut [u16; MAX_TEXT_EVENTS],
    from: usize,
)
    requires { HaltsFit base stack.now.depth from }
    ensures { slices kinds.new tasks.new operands.new
        ≡ store_all (slices kinds.old tasks.old operands.old) from
        (halts (stack.now.depth - base) (tasks_on stack.now)) }
{
    let mut at = from;
    for place in (base..stack.depth).rev() {
        let operand = stack.halt_operand(place);
        let event = Event {
            kind: HALT,
            task: stack.tasks[place],
            operand,
        };
        cells::store_event(kinds, tasks, operands, at, event);
        at += 1;
    }
}

// The events of a line that was read, where `count` events came before it: how many there are then, or none where they are too many.
pub fn add_line(
    line: Line,
    stack: &mut Stack,
    kinds: &mut [u8; MAX_TEXT_EVENTS],
    tasks: &mut [u16; MAX_TEXT_EVENTS],
    operands: &mut [u16; MAX_TEXT_EVENTS],
    count: usize,
) -> Option<usize>
    requires { StackAfter count stack.old }
    ensures { added_of result stack.new (slices kinds.new tasks.new operands.new)
        ≡ added line (tasks_on stack.old) count (slices kinds.old tasks.old operands.old) }
{
    let base = stack.unwind(line.task);
    let own = count + (stack.depth - base);
    if MAX_TEXT_EVENTS <= own {
        return None;
    }
    halt_above(stack, base, kinds, tasks, operands, count);
    let event = Event {
        kind: kind_of(line.operation),
        task: line.task,
        operand: line.operand,
    };
    cells::store_event(kinds, tasks, operands, own, event);
    stack.push(base, line.operation, line.operand);
    Some(own + 1)
}
