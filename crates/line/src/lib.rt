// The rules over the line of tasks: the two stacks that the line is, in the cells of one lent workspace, and one event's rows.
// The definitions in `specs/` say what each function leaves in the cells; the laws in `proofs/` tie these cells to the run of a trace.
#![tactic(auto)]

ghost use Rattle.std.specs.Prelude.{◌≡◌, ◌+◌, ◌-◌, ◌≤◌, ◌<◌, length};
ghost use Rattle.trace.specs.Trace.{TASKS, WORKSPACE_CELLS};
ghost use Rattle.line.specs.Rules.{Fork, Join, Halt, rule_of};
ghost use Rattle.line.specs.Cells.{depths, running_in, nearest_in, resumed_in, started_in, forked_in, halted_in};
ghost use Rattle.line.specs.Steps.{after_in, Movable, rowed, location_row, fork_in, join_in, halt_in, act_in, event_in};
ghost use Rattle.line.specs.Held.{Sound};

use trace::{Event, FORK, HALT, JOIN, Row, SUM};

// 1 where the task's number has been used: the one table that is read before it is written.
const USED: usize = 0;

const USED_CELLS: usize = 1024;

// The tasks left of the running one, the nearest last.
const LEFT: usize = 7168;

// The active tasks, the running one last.
const ACTIVE: usize = 8192;

// How many tasks are active, and how many have halted and are not joined yet. The tasks stand in lent cells, so that these hold the line is a clause.
#[derive(Clone, Copy)]
pub struct Line {
    pub active: usize,
    pub left: usize,
}

impl Line {
    pub const TASKS: u16 = trace::TASKS;

    pub const LOCATIONS: u16 = trace::LOCATIONS;

    // The starting line: task 0 alone, used, and running.
    pub fn start(ws: &mut [u16]) -> Self
        requires { WORKSPACE_CELLS ≤ length ws.old }
        ensures { (result ≡ depths 1 0) × (ws.new ≡ started_in ws.old) }
    {
        cells::clear(ws, USED_CELLS);
        cells::put(ws, USED, 0, 1);
        cells::put(ws, ACTIVE, 0, 0);
        Line { active: 1, left: 0 }
    }

    // The running task.
    fn running(self, ws: &[u16]) -> u16
        requires sound { Sound ws.now self }
        requires active_nonzero { 0 < self.active }
        ensures { result ≡ running_in ws.now self }
    {
        ws[ACTIVE + self.active - 1]
    }

    // The task at the left of the running one.
    fn nearest(self, ws: &[u16]) -> u16
        requires sound { Sound ws.now self }
        requires left_nonzero { 0 < self.left }
        ensures { result ≡ nearest_in ws.now self }
    {
        ws[LEFT + self.left - 1]
    }

    // The task that resumes where the running one halts: the one below it; where none is, as below task 0, it is 0.
    pub fn resumes(self, ws: &[u16]) -> u16
        requires { Sound ws.now self }
        ensures { result ≡ resumed_in ws.now self }
    {
        if self.active < 2 {
            return 0;
        }
        ws[ACTIVE + self.active - 2]
    }

    // A fork: the child runs, and its parent stays below it.
    fn fork(self, ws: &mut [u16], child: u16)
        requires sound { Sound ws.old self }
        requires child_bound { child < TASKS }
        ensures { ws.new ≡ forked_in ws.old self child }
    {
        ws[ACTIVE + self.active] = child;
        cells::put(ws, USED, child, 1);
    }

    // A halt: the running task is now the nearest left of the one that resumes.
    fn halt(self, ws: &mut [u16])
        requires sound { Sound ws.old self }
        requires active_nonzero { 0 < self.active }
        ensures { ws.new ≡ halted_in ws.old self }
    {
        let x = self.running(ws);
        ws[LEFT + self.left] = x;
    }

    // Row 8.
    fn admit_location(location: u16) -> Result<(), Row>
        ensures { result ≡ location_row location }
    {
        if Line::LOCATIONS <= location {
            return Err(Row::UnknownLocation);
        }
        Ok(())
    }

    // Rows 9 and 10.
    fn admit_fork(self, ws: &mut [u16], child: u16) -> Result<(), Row>
        requires { Sound ws.old self }
        ensures { rowed (after_in self Fork) result ws.new ≡ fork_in ws.old self child }
    {
        if Line::TASKS <= child {
            return Err(Row::UnknownTask);
        }
        if cells::cell(ws, USED, child) != 0 {
            return Err(Row::UsedTask);
        }
        self.fork(ws, child);
        Ok(())
    }

    // Row 11. A join stores nothing: the joined task is the nearest, and `after` takes it away.
    fn admit_join(self, ws: &[u16], task: u16) -> Result<(), Row>
        requires { Sound ws.now self }
        ensures { rowed (after_in self Join) result ws.now ≡ join_in ws.now self task }
    {
        if self.left == 0 {
            return Err(Row::NotLeft);
        }
        if self.nearest(ws) != task {
            return Err(Row::NotLeft);
        }
        Ok(())
    }

    // Row 12: the operand "names the task that resumes".
    fn admit_halt(self, ws: &mut [u16], operand: u16) -> Result<(), Row>
        requires sound { Sound ws.old self }
        requires active_nonzero { 0 < self.active }
        ensures { rowed (after_in self Halt) result ws.new ≡ halt_in ws.old self operand }
    {
        let parent = self.resumes(ws);
        if operand != parent {
            return Err(Row::NotResumed);
        }
        self.halt(ws);
        Ok(())
    }

    // The one row for the event's kind: there is none from 6 on, and the others are accesses. The match calls the rule's
    // function itself and does not name the accesses, whose numbers do not stand together: with them, or by way of an enum of the rules, which is matched again,
    // it compiles to a jump table, and random traces take a seventh longer.
    fn admit_by_kind(self, ws: &mut [u16], kind: u8, operand: u16) -> Result<(), Row>
        requires sound { Sound ws.old self }
        requires active_nonzero { 0 < self.active }
        ensures { rowed (after_in self (rule_of kind)) result ws.new ≡ act_in ws.old self (rule_of kind) operand }
    {
        match kind {
            FORK => self.admit_fork(ws, operand),
            JOIN => self.admit_join(ws, operand),
            HALT => self.admit_halt(ws, operand),
            6..=255 => Err(Row::UnknownKind),
            _ => Line::admit_location(operand),
        }
    }

    // One event: rows 5, 6 and 7, then the one row for its kind. Where none is met, the line goes on to `after`. It is not handed back: a line that came back
    // through memory, field by field, would be waited for at every event.
    pub fn admit(self, ws: &mut [u16], event: Event) -> Result<(), Row>
        requires { Sound ws.old self }
        ensures { rowed (after_in self (rule_of event.kind)) result ws.new ≡ event_in ws.old self event.kind event.task event.operand }
    {
        if SUM < event.kind {
            return Err(Row::UnknownKind);
        }
        if self.active == 0 {
            return Err(Row::Ended);
        }
        if event.task != self.running(ws) {
            return Err(Row::NotRunning);
        }
        self.admit_by_kind(ws, event.kind, event.operand)
    }

    // The line after an event of this kind that met no row. It is computed, since no processor can predict where the moves are: by a match over the kind
    // the ordering call takes a sixtieth longer on random traces, and the same time where the moves follow a pattern.
    pub fn after(self, kind: u8) -> Line
        requires { Movable self kind }
        ensures { result ≡ after_in self (rule_of kind) }
    {
        let halted = usize::from(kind == HALT);
        Line {
            active: self.active + usize::from(kind == FORK) - halted,
            left: self.left + halted - usize::from(kind == JOIN),
        }
    }
}
