// Cards by counting: document 02's K1 and K3 taken at their word, over all events for each location.
use crate::events::{Kind, Trace};

// "for each location, the number of reads, the number of writes, and the first and last position that touched it"; "Cards of K1 gain a count of sums."
#[derive(Clone, Copy, PartialEq, Eq)]
pub struct Card {
    pub reads: usize,
    pub writes: usize,
    pub sums: usize,
    pub first: usize,
    pub last: usize,
}

// "65,535 for both where none did"
const NOWHERE: usize = 65535;

// Whether event p is an access of location l.
fn touches(trace: Trace<'_>, l: usize, p: usize) -> bool {
    let event = trace.event(p);
    event.is_access() && event.operand == l
}

fn count(trace: Trace<'_>, kind: Kind, l: usize) -> usize {
    (0..trace.len())
        .filter(|p| touches(trace, l, *p) && trace.event(*p).is(kind))
        .count()
}

// What the card of the location l must hold after a clean verdict on these events.
pub fn card_of(trace: Trace<'_>, l: usize) -> Card {
    let first = (0..trace.len()).find(|p| touches(trace, l, *p));
    let last = (0..trace.len()).rev().find(|p| touches(trace, l, *p));
    Card {
        reads: count(trace, Kind::Read, l),
        writes: count(trace, Kind::Write, l),
        sums: count(trace, Kind::Sum, l),
        first: first.unwrap_or(NOWHERE),
        last: last.unwrap_or(NOWHERE),
    }
}
