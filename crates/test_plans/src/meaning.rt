// What the trace of a plan means: the judge and the ordering call are held to the operators where leaves meet, which brackets tell.
use crate::compare::Tally;
use crate::letters::{byte_at, is_leaf};
use crate::slow_trace::{SlowTrace, location_of};
use crate::spans::{around, closed_between};
use crate::wrong::Wrong;
use plan_reader::translate;
use trace::{Trace, Verdict};

// The most events that are looked at: each pair of positions is asked for.
const MOST: usize = 128;

// The cells of the workspace for so many.
const WORKSPACE: usize = 12500;

// A plan's text, with the places of its events, and the wrong rule, if any.
#[derive(Clone, Copy)]
struct Plan<'a> {
    text: &'a [u8],
    trace: &'a SlowTrace,
    plant: Option<Wrong>,
}

// Two positions.
#[derive(Clone, Copy, PartialEq, Eq)]
struct Pair {
    s: usize,
    t: usize,
}

// A write conflicts with every access of its location, a sum with every one but a sum.
fn conflict(x: u8, y: u8) -> bool {
    x == b'w' || y == b'w' || (x == b's') != (y == b's')
}

impl<'a> Plan<'a> {
    // The place in the text of the leaf that event p comes from, if it comes from one.
    fn leaf(self, p: usize) -> Option<usize> {
        let place = self.trace.place_of(p);
        if is_leaf(byte_at(self.text, place)) {
            Some(place)
        } else {
            None
        }
    }

    // The letter of "the operator where they meet", of two leaves by their places in the text.
    fn meeting(self, one: usize, other: usize) -> u8 {
        let closed = closed_between(self.text, one, other);
        byte_at(self.text, around(self.text, one, closed))
    }

    // "Of two leaves, the first reaches the second exactly if the operator where they meet is S and the first is in its left operand."
    fn reaches(self, first: usize, second: usize) -> bool {
        match self.plant {
            Some(Wrong::Exchanged) => second < first && self.meeting(second, first) == b'S',
            Some(Wrong::Ordered) => first < second,
            _ => first < second && self.meeting(first, second) == b'S',
        }
    }

    // Whether the events s and t, of which s is the earlier, race.
    fn races(self, s: usize, t: usize) -> bool {
        let (Some(one), Some(other)) = (self.leaf(s), self.leaf(t)) else {
            return false;
        };
        let kinds = conflict(byte_at(self.text, one), byte_at(self.text, other));
        if !kinds || location_of(self.text, one) != location_of(self.text, other) {
            return false;
        }
        let spoiled = self.plant == Some(Wrong::Parallels);
        self.meeting(one, other) == if spoiled { b'S' } else { b'P' }
    }

    // The first pair by t, and then by s.
    fn first_race(self, n: usize) -> Option<Pair> {
        for t in 0..n {
            for s in 0..t {
                if self.races(s, t) {
                    return Some(Pair { s, t });
                }
            }
        }
        None
    }
}

// ---- the judge

// Whether the judge finds this race, or none.
fn judges(trace: Trace, want: Option<Pair>) -> bool {
    let mut ws = [1u16; WORKSPACE];
    let mut first = [1u16; MOST];
    let mut second = [1u16; MOST];
    let judged = judge::judge(
        trace.kinds,
        trace.tasks,
        trace.operands,
        &mut ws,
        &mut first,
        &mut second,
    );
    match judged {
        Ok(Verdict::Clean { .. }) => want == None,
        Ok(Verdict::Race { s, t, .. }) => want == Some(Pair { s, t }),
        Err(_) => false,
    }
}

// ---- the ordering call

// Whether the ordering call says so of two events.
fn orders(trace: Trace, p: usize, q: usize, want: bool) -> bool {
    let mut ws = [1u16; WORKSPACE];
    ordering::ordering(trace.kinds, trace.tasks, trace.operands, &mut ws, p, q) == Ok(want)
}

// Only two leaves are asked for.
fn pair_agrees(plan: Plan, trace: Trace, p: usize, q: usize, tally: &mut Tally) -> bool {
    let (Some(first), Some(second)) = (plan.leaf(p), plan.leaf(q)) else {
        return true;
    };
    if p == q {
        return true;
    }
    let want = plan.reaches(first, second);
    if want {
        tally.reach = tally.reach.wrapping_add(1);
    } else {
        tally.apart = tally.apart.wrapping_add(1);
    }
    orders(trace, p, q, want)
}

fn pairs_agree(plan: Plan, trace: Trace, n: usize, tally: &mut Tally) -> bool {
    let mut all = true;
    for p in 0..n {
        for q in 0..n {
            all &= pair_agrees(plan, trace, p, q, tally);
        }
    }
    all
}

// ---- both

fn trace_agrees(plan: Plan, trace: Trace, n: usize, tally: &mut Tally) -> bool {
    let want = plan.first_race(n);
    if want == None {
        tally.clean = tally.clean.wrapping_add(1);
    } else {
        tally.races = tally.races.wrapping_add(1);
    }
    let pairs = pairs_agree(plan, trace, n, tally);
    judges(trace, want) && pairs
}

// Whether the trace of a plan means what the plan says. The slow reader has laid out the places of its events.
pub fn agrees(text: &[u8], trace: &SlowTrace, tally: &mut Tally, plant: Option<Wrong>) -> bool {
    let mut kinds = [0u8; MOST];
    let mut tasks = [0u16; MOST];
    let mut operands = [0u16; MOST];
    let n = translate(text, &mut kinds, &mut tasks, &mut operands)
        .unwrap_or(0)
        .min(MOST);
    let written = Trace {
        kinds: &kinds[..n],
        tasks: &tasks[..n],
        operands: &operands[..n],
    };
    trace_agrees(Plan { text, trace, plant }, written, n, tally)
}
