// Traces grown event by event, which keep the line rules. The running and paused tasks stand on one stack and the halted ones on another, so the slow
// judge's line is not shared.
use crate::draws::{below, next};
use crate::events::{Event, Kind, put_event};
use crate::shapes::Shape;
use test_cells::{get, put};

// Tasks, the first ones lowest. It is no Vec: a push can fail, and each caller would hand that on.
#[derive(Clone, Copy)]
struct Stack {
    tasks: [usize; 1024],
    depth: usize,
}

impl Stack {
    fn new() -> Stack {
        Stack {
            tasks: [0; 1024],
            depth: 0,
        }
    }

    fn push(&mut self, task: usize) {
        put(&mut self.tasks, self.depth, task);
        self.depth = self.depth.wrapping_add(1);
    }

    fn pop(&mut self) {
        self.depth = self.depth.wrapping_sub(1);
    }

    // The task that so many stand on.
    fn under(&self, above: usize) -> usize {
        get(&self.tasks, self.depth.wrapping_sub(above).wrapping_sub(1))
    }
}

// The tasks' numbers in the order in which they are forked, and how many of them are used; the tasks that run or are paused, and those that have halted and are
// unjoined; whether all of these are being joined; the last event; and the draws' state.
#[derive(Clone, Copy)]
struct Growth<'a> {
    names: &'a [u16],
    shape: Shape,
    used: usize,
    active: Stack,
    halted: Stack,
    joining: bool,
    last: Event,
    seed: usize,
}

// The kind of an access at random: of 16 so many are writes and so many sums.
pub fn kind_of(writes: usize, sums: usize, seed: usize) -> Kind {
    let r = below(seed, 16);
    if r < writes {
        return Kind::Write;
    }
    if r < writes.wrapping_add(sums) {
        return Kind::Sum;
    }
    Kind::Read
}

impl<'a> Growth<'a> {
    // Task 0 runs alone.
    fn new(names: &'a [u16], shape: Shape, seed: usize) -> Growth<'a> {
        let mut active = Stack::new();
        active.push(0);
        Growth {
            names,
            shape,
            used: 1,
            active,
            halted: Stack::new(),
            joining: false,
            last: Event::new(0, Kind::Read, 0),
            seed,
        }
    }

    // The kind of the next event: a read stands for any access.
    fn choice(&self) -> Kind {
        if self.joining {
            return Kind::Join;
        }
        let r = below(self.seed, 16);
        let (kind, can) = if r < self.shape.forks {
            (Kind::Fork, self.used < 1024)
        } else if r < self.shape.halts {
            (Kind::Halt, 1 < self.active.depth)
        } else {
            (Kind::Join, r < self.shape.joins && 0 < self.halted.depth)
        };
        if can { kind } else { Kind::Read }
    }

    // An access at random.
    fn wild(&self, task: usize, seed: usize) -> Event {
        let kind = kind_of(self.shape.writes, self.shape.sums, seed);
        let place = below(next(seed), self.shape.locations);
        Event::new(task, kind, 1023usize.wrapping_sub(place))
    }

    // What all tasks do to location 0, in any order: they read it, or where there are sums they add to it.
    fn shared_kind(&self) -> Kind {
        if self.shape.sums == 0 {
            Kind::Read
        } else {
            Kind::Sum
        }
    }

    // An access that races with none: the location has the number of the task, or of the one that the task has just joined. Location 0 is shared by all, and
    // task 0 has any access to it while it is alone.
    fn careful(&self, task: usize, seed: usize) -> Event {
        let kind = kind_of(self.shape.writes, self.shape.sums, next(seed));
        let shared = self.shared_kind();
        if self.last.is(Kind::Join) {
            return Event::new(task, kind, self.last.operand);
        }
        if task == 0 {
            let alone = self.halted.depth == 0;
            return Event::new(task, if alone { kind } else { shared }, 0);
        }
        if below(seed, 3) == 0 {
            return Event::new(task, shared, 0);
        }
        Event::new(task, kind, task)
    }

    fn access(&self, task: usize) -> Event {
        let a = next(self.seed);
        let b = next(a);
        match self.shape.care {
            Some(care) if below(a, care) != 0 => self.careful(task, b),
            _ => self.wild(task, b),
        }
    }

    // The next event of the running task. Where it halts, the task below it on the stack resumes.
    fn event(&self) -> Event {
        let task = self.active.under(0);
        match self.choice() {
            Kind::Fork => Event::new(task, Kind::Fork, get(self.names, self.used)),
            Kind::Join => Event::new(task, Kind::Join, self.halted.under(0)),
            Kind::Halt => Event::new(task, Kind::Halt, self.active.under(1)),
            _ => self.access(task),
        }
    }

    fn fork(&mut self, child: usize) {
        self.active.push(child);
        self.used = self.used.wrapping_add(1);
    }

    fn join(&mut self) {
        self.halted.pop();
        if self.halted.depth == 0 {
            self.joining = false;
        }
    }

    fn halt(&mut self, task: usize) {
        self.active.pop();
        self.halted.push(task);
        self.joining = self.shape.hold <= self.halted.depth;
    }

    // Takes the next event.
    fn step(&mut self) -> Event {
        let event = self.event();
        match event.kind {
            Ok(Kind::Fork) => self.fork(event.operand),
            Ok(Kind::Join) => self.join(),
            Ok(Kind::Halt) => self.halt(event.task),
            _ => {}
        }
        self.last = event;
        self.seed = next(self.seed);
        event
    }

    // In some traces task 0 halts last.
    fn ends(&self) -> bool {
        self.active.depth == 1 && self.shape.count < test_slow::EVENTS && below(self.seed, 3) == 0
    }
}

// Grows a trace of a shape, of as many events as it asks for. Task 0 does not halt among them. Answers the number of events.
pub fn grown(events: &mut [u16], names: &[u16], shape: Shape, seed: usize) -> usize {
    let mut growth = Growth::new(names, shape, seed);
    for p in 0..shape.count {
        put_event(events, p, growth.step());
    }
    if !growth.ends() {
        return shape.count;
    }
    put_event(events, shape.count, Event::new(0, Kind::Halt, 0));
    shape.count.wrapping_add(1)
}
