// The slow list of close pairs: document 02's K7 taken at its word, on the conflicts and the paths of the slow judge. It can go wrong ways, on purpose: a comparison
// with the fast one must notice each of them.
use crate::events::{Event, Kind, Trace};
use crate::paths::Paths;
use crate::races::conflict;
use crate::{Memory, ROOM};
use test_cells::put;

// ---- ways

#[derive(Clone, Copy, PartialEq, Eq)]
pub enum Way {
    Right,
    // At most 255 apart; 257; any number.
    Narrow,
    Broad,
    Far,
    // Two reads conflict; two sums do; a sum and a later read do not; a path between two makes no difference.
    Reads,
    Sums,
    SumRead,
    Ordered,
    // In order of s and then of t; s and t are exchanged.
    ByEarlier,
    Exchanged,
    // Of each access the first partner alone; of the first access that races the partners alone; their number is one too small.
    FirstPartners,
    FirstAccess,
    Fewer,
    // A trace that breaks a rule has the pairs before that listed; row 20 comes before the rules.
    BeforeBreak,
    Early,
    // Row 20 asks the earlier slice alone; the later one alone; a cell more than the pairs. With row 20 the slices hold as many pairs as they can.
    EarlierAlone,
    LaterAlone,
    OneMore,
    Written,
}

impl Way {
    pub const WRONG: [Way; 18] = [
        Way::Narrow,
        Way::Broad,
        Way::Far,
        Way::Reads,
        Way::Sums,
        Way::SumRead,
        Way::Ordered,
        Way::ByEarlier,
        Way::Exchanged,
        Way::FirstPartners,
        Way::FirstAccess,
        Way::Fewer,
        Way::BeforeBreak,
        Way::Early,
        Way::EarlierAlone,
        Way::LaterAlone,
        Way::OneMore,
        Way::Written,
    ];
}

// ---- pairs

#[derive(Clone, Copy)]
struct Pair {
    s: usize,
    t: usize,
}

// The pair of two events, the earlier one first.
fn pair_of(x: usize, y: usize) -> Pair {
    Pair {
        s: x.min(y),
        t: x.max(y),
    }
}

// "with t − s at most 256"
fn is_close(pair: Pair, way: Way) -> bool {
    let apart = pair.t.abs_diff(pair.s);
    match way {
        Way::Narrow => apart <= 255,
        Way::Broad => apart <= 257,
        Way::Far => true,
        _ => apart <= 256,
    }
}

// Whether two accesses to one location are taken to conflict, or not to, against the sentences.
fn is_wrong(x: Event, y: Event, way: Way) -> bool {
    match way {
        Way::Reads => x.is(Kind::Read) && y.is(Kind::Read),
        Way::Sums => x.is(Kind::Sum) && y.is(Kind::Sum),
        Way::SumRead => x.is(Kind::Sum) && y.is(Kind::Read),
        _ => false,
    }
}

fn conflicts(x: Event, y: Event, way: Way) -> bool {
    let wrong = x.operand == y.operand && is_wrong(x, y, way);
    conflict(x, y) != wrong
}

// "They race if they conflict and neither reaches the other."
fn is_pair(trace: Trace<'_>, paths: &Paths, pair: Pair, way: Way) -> bool {
    if !is_close(pair, way) || !conflicts(trace.event(pair.s), trace.event(pair.t), way) {
        return false;
    }
    let path = paths.reaches(pair.s, pair.t) || paths.reaches(pair.t, pair.s);
    !path || way == Way::Ordered
}

// ---- the list

// Whether one more is listed, where there are so many pairs, and so many before those of this event.
fn is_wanted(before: usize, count: usize, way: Way) -> bool {
    match way {
        Way::FirstPartners => count == before,
        Way::FirstAccess => before == 0,
        _ => true,
    }
}

fn turned(pair: Pair, way: Way) -> Pair {
    match way {
        Way::Exchanged => Pair {
            s: pair.t,
            t: pair.s,
        },
        _ => pair,
    }
}

impl Memory {
    // Puts a pair behind so many. One that finds no room is counted alone. Answers how many there are then.
    fn put_pair(&mut self, pair: Pair, count: usize) -> usize {
        put(&mut self.first, count, pair.s);
        put(&mut self.second, count, pair.t);
        count.wrapping_add(1)
    }

    // Puts the pairs of event x and each from `from` on up to `to`, behind so many. Answers how many there are then.
    fn put_pairs_of(
        &mut self,
        trace: Trace<'_>,
        x: usize,
        from: usize,
        to: usize,
        before: usize,
        way: Way,
    ) -> usize {
        let mut count = before;
        for y in from..to {
            let pair = pair_of(x, y);
            if is_pair(trace, &self.paths, pair, way) && is_wanted(before, count, way) {
                count = self.put_pair(turned(pair, way), count);
            }
        }
        count
    }

    // "list all racing pairs s, t .., each pair once", "in order of t and then of s": of the first n events, among which the paths are known, each with those before it.
    // The wrong way round, with those behind it. Answers how many.
    pub fn put_pairs(&mut self, trace: Trace<'_>, n: usize, way: Way) -> usize {
        let mut count = 0;
        for x in 0..n {
            count = match way {
                Way::ByEarlier => self.put_pairs_of(trace, x, x + 1, n, count, way),
                _ => self.put_pairs_of(trace, x, 0, x, count, way),
            };
        }
        count
    }
}
