// Races, and the two orders that a race leaves.
use crate::events::{Event, Kind, Trace};
use crate::paths::Paths;

// ".. at least one is a write."
fn one_writes(x: Event, y: Event) -> bool {
    x.is(Kind::Write) || y.is(Kind::Write)
}

// "A sum conflicts with a read and with a write of that location, and never with another sum": one is a sum, and the other is not.
fn one_sums(x: Event, y: Event) -> bool {
    x.is(Kind::Sum) != y.is(Kind::Sum)
}

// "Two accesses conflict if they have one location and .."
pub fn conflict(x: Event, y: Event) -> bool {
    x.is_access() && y.is_access() && x.operand == y.operand && (one_writes(x, y) || one_sums(x, y))
}

// The smallest position before t that event t races with. Arcs run forward, so t does not reach an earlier event.
pub fn partner(trace: Trace<'_>, paths: &Paths, t: usize) -> Option<usize> {
    let event = trace.event(t);
    (0..t).find(|s| conflict(trace.event(*s), event) && !paths.reaches(*s, t))
}

// "let D be the events other than s and t that reach s or t": whether p is in D, s or t, or another event.
#[derive(Clone, Copy, PartialEq, Eq)]
enum Part {
    D,
    Pair,
    Other,
}

fn part_of(paths: &Paths, s: usize, t: usize, p: usize) -> Part {
    if p == s || p == t {
        return Part::Pair;
    }
    if paths.reaches(p, s) || paths.reaches(p, t) {
        return Part::D;
    }
    Part::Other
}

// "D in position order, then s, t, then all other positions up to t in position order", with a, b for s, t.
pub fn order(paths: &Paths, s: usize, t: usize, a: usize, b: usize, cells: &mut [u16]) {
    let d = (0..t).filter(|p| part_of(paths, s, t, *p) == Part::D);
    let others = (0..t).filter(|p| part_of(paths, s, t, *p) == Part::Other);
    for (cell, p) in cells.iter_mut().zip(d.chain([a, b]).chain(others)) {
        *cell = (p % 65536) as u16;
    }
}
