// The slow conversion: document 02's K6 taken at its word, on the slow judge's rules with row 12 as it was, with no part of the fast one. It can go wrong ways, on
// purpose: the comparison must notice each of them.
use test_calls::buffers::SPARE;
use test_calls::{Case, Reply};
use test_cells::{get, put};
use test_slow::Sizes;
use test_slow::events::{Event, Kind, Trace};
use test_slow::rules::Halts;

// ---- ways

#[derive(Clone, Copy, PartialEq, Eq)]
pub enum Way {
    Right,
    // A halt is given 0, the bottom of the stack; the parent of the task that resumes; itself.
    Bottom,
    Grandparent,
    Itself,
    // A join is set too; a write is.
    Joins,
    Writes,
    // The event that breaks a rule is set too; all halts behind it are; a trace that breaks a rule is left as it is.
    Breaking,
    Behind,
    Alone,
    // A race stops it; row 12 is read as it is now.
    Races,
    Named,
}

impl Way {
    pub const WRONG: [Way; 10] = [
        Way::Bottom,
        Way::Grandparent,
        Way::Itself,
        Way::Joins,
        Way::Writes,
        Way::Breaking,
        Way::Behind,
        Way::Alone,
        Way::Races,
        Way::Named,
    ];

    // "row 12 read as it was before this change"
    pub fn halts(self) -> Halts {
        match self {
            Way::Named => Halts::Named,
            _ => Halts::Zero,
        }
    }

    fn sets(self, event: Event) -> bool {
        event.is(Kind::Halt)
            || (event.is(Kind::Join) && self == Way::Joins)
            || (event.is(Kind::Write) && self == Way::Writes)
    }

    // Where the conversion stops, if "the first event that breaks a rule" is at `broken`, or there are so many and none does, and the judge said this. By rows 1 to 3
    // it sets nothing.
    pub fn stop(self, broken: usize, sizes: Sizes, verdict: Reply) -> usize {
        match self {
            _ if sizes.check().is_err() => 0,
            Way::Races if verdict.case == Case::Race => verdict.b,
            Way::Alone if broken < sizes.kinds => 0,
            Way::Behind => sizes.kinds,
            Way::Breaking => broken.wrapping_add(1),
            _ => broken,
        }
    }
}

// ---- operands

// The task that forked a task: that of the fork before p that names it. Task 0 has none, and then it is 0.
fn parent(trace: Trace<'_>, task: usize, p: usize) -> usize {
    let fork = trace.latest(p, |event| event.is(Kind::Fork) && event.operand == task);
    fork.map_or(0, |f| trace.event(f).task)
}

// "the task that resumes; for task 0's own halt it is 0."
fn resumed(trace: Trace<'_>, way: Way, p: usize) -> usize {
    let task = trace.event(p).task;
    let right = parent(trace, task, p);
    match way {
        Way::Grandparent => parent(trace, right, p),
        Way::Itself => task,
        Way::Bottom => 0,
        _ => right,
    }
}

// "sets the operand of each halt before the first event that breaks a rule .., and changes nothing else"
fn operand_of(trace: Trace<'_>, stop: usize, way: Way, p: usize) -> usize {
    if p < stop && way.sets(trace.event(p)) {
        return resumed(trace, way, p);
    }
    get(trace.operands, p)
}

// The most operands that are lent, with those behind them.
const ROOM: usize = 32808;

// The operands that the conversion must leave, and some behind those that are lent; and how many it changes.
#[derive(Clone, Copy)]
pub struct Wanted {
    operands: [u16; ROOM],
    lent: usize,
    pub changed: usize,
}

impl Wanted {
    // Where it sets none from this position on.
    pub fn new(trace: Trace<'_>, lent: usize, stop: usize, way: Way) -> Wanted {
        let lent = lent.wrapping_add(SPARE).min(ROOM);
        let mut operands = [0; ROOM];
        let mut changed: usize = 0;
        for p in 0..lent {
            let operand = operand_of(trace, stop, way, p);
            put(&mut operands, p, operand);
            changed = changed.wrapping_add((operand != get(trace.operands, p)).into());
        }
        Wanted {
            operands,
            lent,
            changed,
        }
    }

    pub fn operands(&self) -> &[u16] {
        &self.operands[..self.lent.min(ROOM)]
    }
}
