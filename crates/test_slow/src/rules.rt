// The line of tasks, by each task's left neighbour, and its rules. No two stacks here, as the fast judge has them.
use crate::events::{Event, Kind, Trace};
use crate::rows::Row;

// "a task, 0 to 1,023"
pub const TASKS: usize = 1024;

// "a location, 0 to 1,023"
const LOCATIONS: usize = 1024;

// What a halt's operand must be, which is the caller's to choose: as document 02's K6 has it, or as it was before, by document 01.
#[derive(Clone, Copy, PartialEq, Eq)]
pub enum Halts {
    Named,
    Zero,
}

// Who stands immediately left of each task, if anybody does, and who forked it; and who runs, until task 0 has halted.
#[derive(Drop)]
pub struct Line {
    left: [Option<usize>; TASKS],
    parent: [Option<usize>; TASKS],
    running: Option<usize>,
}

// "Fork: the child's number has never been used, 0 included."
fn check_fork(trace: Trace<'_>, child: usize, q: usize) -> Result<(), Row> {
    if TASKS <= child {
        return Err(Row::UnknownTask);
    }
    let earlier = trace.latest(q, |event| event.is(Kind::Fork) && event.operand == child);
    if child == 0 || earlier.is_some() {
        return Err(Row::UsedTask);
    }
    Ok(())
}

// "For read and write the operand is a location, 0 to 1,023." "a sum; its operand is a location under refusal 8."
fn check_location(location: usize) -> Result<(), Row> {
    if LOCATIONS <= location {
        return Err(Row::UnknownLocation);
    }
    Ok(())
}

impl Line {
    // "At the start the line holds task 0 alone, and it runs."
    pub fn new() -> Line {
        Line {
            left: [None; TASKS],
            parent: [None; TASKS],
            running: Some(0),
        }
    }

    fn left(&self, task: usize) -> Option<usize> {
        self.left[task % TASKS]
    }

    fn parent(&self, task: usize) -> Option<usize> {
        self.parent[task % TASKS]
    }

    // "Join: the operand is the task immediately left of the actor."
    fn check_join(&self, event: Event) -> Result<(), Row> {
        if self.left(event.task) != Some(event.operand) {
            return Err(Row::NotLeft);
        }
        Ok(())
    }

    // "A halt's operand now names the task that resumes; for task 0's own halt it is 0." "Refusal 12 is met when the operand differs from that." Before that
    // change: "For halt it is 0."
    fn check_halt(&self, event: Event, halts: Halts) -> Result<(), Row> {
        let right = match halts {
            Halts::Named => self.parent(event.task).unwrap_or(0),
            Halts::Zero => 0,
        };
        if event.operand != right {
            return Err(Row::NotResumed);
        }
        Ok(())
    }

    // Whether event q keeps the line rules: "5, 6, 7 and the one row for its kind". "Refusal 5 now begins at kind 6".
    pub fn check(&self, trace: Trace<'_>, halts: Halts, q: usize) -> Result<(), Row> {
        let event = trace.event(q);
        let kind = event.kind.map_err(|_| Row::UnknownKind)?;
        let running = self.running.ok_or(Row::Ended)?;
        if running != event.task {
            return Err(Row::NotRunning);
        }
        match kind {
            Kind::Read | Kind::Write | Kind::Sum => check_location(event.operand),
            Kind::Fork => check_fork(trace, event.operand, q),
            Kind::Join => self.check_join(event),
            Kind::Halt => self.check_halt(event, halts),
        }
    }

    // "A fork puts the child immediately left of its parent. The parent pauses and the child runs."
    fn fork(&mut self, parent: usize, child: usize) {
        self.left[child % TASKS] = self.left(parent);
        self.left[parent % TASKS] = Some(child);
        self.parent[child % TASKS] = Some(parent);
        self.running = Some(child);
    }

    // "Join: the operand .. leaves the line."
    fn join(&mut self, joiner: usize, joined: usize) {
        self.left[joiner % TASKS] = self.left(joined);
    }

    // The line after an event that keeps the rules. "Halt: the task stops and stays in the line. Its paused parent runs again."
    pub fn take(&mut self, event: Event) {
        match event.kind {
            Ok(Kind::Fork) => self.fork(event.task, event.operand),
            Ok(Kind::Join) => self.join(event.task, event.operand),
            Ok(Kind::Halt) => self.running = self.parent(event.task),
            _ => {}
        }
    }
}
