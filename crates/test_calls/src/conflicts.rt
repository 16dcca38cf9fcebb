// Each pair of kinds of access, in each way in which two accesses can stand to each other, and behind each third kind: which of them race, and which reach the
// other, is told by hand.
use crate::chains::Laid;
use crate::large::put_one;
use crate::table::read_rows;
use crate::{Case, Reply};
use test_cells::get;
use test_samples::events::Kind;

const CELLS: usize = 3;

// Of each pair: the kind of the earlier access, that of the later one, and what comes of them where they have one location and neither reaches the other.
// Answers how many pairs there are, as read_rows does.
pub fn read_pairs(cells: &mut [u16]) -> Option<usize> {
    read_rows(
        "
read read CLEAN
read write RACE
read sum RACE
write read RACE
write write RACE
write sum RACE
sum read RACE
sum write RACE
sum sum CLEAN
",
        cells,
        CELLS,
    )
}

#[derive(Clone, Copy)]
struct Pair {
    one: Kind,
    other: Kind,
    races: bool,
}

// The kind of an access by what stands in a cell.
fn kind_of(cell: usize) -> Kind {
    match cell {
        0 => Kind::Read,
        1 => Kind::Write,
        _ => Kind::Sum,
    }
}

fn pair_at(cells: &[u16], row: usize) -> Pair {
    let at = (row % 65536) * CELLS;
    Pair {
        one: kind_of(get(cells, at)),
        other: kind_of(get(cells, at.wrapping_add(1))),
        races: Case::of(get(cells, at.wrapping_add(2))) == Some(Case::Race),
    }
}

// ---- what comes of a pair

fn clean(events: usize, links: usize) -> Laid {
    Laid {
        events,
        want: Reply::clean(links),
    }
}

// Of an unordered pair: event s and the last, at t.
fn unordered(s: usize, t: usize, pair: Pair) -> Laid {
    Laid {
        events: t.wrapping_add(1),
        want: if pair.races {
            Reply::race(s, t, 0)
        } else {
            Reply::clean(0)
        },
    }
}

// ---- the ways

fn in_one_task(events: &mut [u16], pair: Pair) -> Laid {
    put_one(events, 0, 0, pair.one, 5);
    put_one(events, 1, 0, pair.other, 5);
    clean(2, 0)
}

// The parent has the one before it forks the child that has the other.
fn by_fork(events: &mut [u16], pair: Pair) -> Laid {
    put_one(events, 0, 0, pair.one, 5);
    put_one(events, 1, 0, Kind::Fork, 1);
    put_one(events, 2, 1, pair.other, 5);
    clean(3, 0)
}

// In the ways below task 1 has the one, and halts.
fn lay_child(events: &mut [u16], pair: Pair) {
    put_one(events, 0, 0, Kind::Fork, 1);
    put_one(events, 1, 1, pair.one, 5);
    put_one(events, 2, 1, Kind::Halt, 0);
}

fn by_join(events: &mut [u16], pair: Pair) -> Laid {
    lay_child(events, pair);
    put_one(events, 3, 0, Kind::Join, 1);
    put_one(events, 4, 0, pair.other, 5);
    clean(5, 1)
}

// The joiner is not the parent.
fn by_sibling_join(events: &mut [u16], pair: Pair) -> Laid {
    lay_child(events, pair);
    put_one(events, 3, 0, Kind::Fork, 2);
    put_one(events, 4, 2, Kind::Join, 1);
    put_one(events, 5, 2, pair.other, 5);
    clean(6, 1)
}

fn child_and_parent(events: &mut [u16], pair: Pair) -> Laid {
    lay_child(events, pair);
    put_one(events, 3, 0, pair.other, 5);
    unordered(1, 3, pair)
}

fn two_children(events: &mut [u16], pair: Pair) -> Laid {
    lay_child(events, pair);
    put_one(events, 3, 0, Kind::Fork, 2);
    put_one(events, 4, 2, pair.other, 5);
    unordered(1, 4, pair)
}

fn two_locations(events: &mut [u16], pair: Pair) -> Laid {
    lay_child(events, pair);
    put_one(events, 3, 0, pair.other, 6);
    clean(4, 0)
}

// Behind a sum of another location: from the first sum on a judge may go another way.
fn behind_a_sum(events: &mut [u16], pair: Pair) -> Laid {
    put_one(events, 0, 0, Kind::Fork, 1);
    put_one(events, 1, 1, Kind::Sum, 6);
    put_one(events, 2, 1, pair.one, 5);
    put_one(events, 3, 1, Kind::Halt, 0);
    put_one(events, 4, 0, pair.other, 5);
    unordered(2, 4, pair)
}

// What the earlier access's task did before it: an access of another kind to the same location, in `before` with the later one. The first that conflicts is
// named.
fn behind_another(events: &mut [u16], before: Pair, pair: Pair) -> Laid {
    put_one(events, 0, 0, Kind::Fork, 1);
    put_one(events, 1, 1, before.one, 5);
    put_one(events, 2, 1, pair.one, 5);
    put_one(events, 3, 1, Kind::Halt, 0);
    put_one(events, 4, 0, pair.other, 5);
    if before.races {
        return unordered(1, 4, before);
    }
    unordered(2, 4, pair)
}

// Those with no other access of the location, in which the one reaches the other and then in which it does not; and one for each kind that there can be before.
#[derive(Clone, Copy, PartialEq, Eq)]
enum Way {
    InOneTask,
    ByFork,
    ByJoin,
    BySiblingJoin,
    ChildAndParent,
    TwoChildren,
    TwoLocations,
    BehindASum,
    BehindARead,
    BehindAWrite,
    BehindAnotherSum,
}

const WAYS: [Way; 11] = [
    Way::InOneTask,
    Way::ByFork,
    Way::ByJoin,
    Way::BySiblingJoin,
    Way::ChildAndParent,
    Way::TwoChildren,
    Way::TwoLocations,
    Way::BehindASum,
    Way::BehindARead,
    Way::BehindAWrite,
    Way::BehindAnotherSum,
];

fn way_of(i: usize) -> Way {
    WAYS[i % 11]
}

// How many traces so many pairs make.
pub fn traces(pairs: usize) -> usize {
    (pairs % 65536) * 11
}

// Lays out one of the traces. The table has three rows for each kind of the earlier access, one for each of the later: so `before` has the kind of the way and
// the later access of the pair.
pub fn lay_pair(events: &mut [u16], cells: &[u16], i: usize) -> Laid {
    let row = i / 11;
    let pair = pair_at(cells, row);
    match way_of(i) {
        Way::InOneTask => in_one_task(events, pair),
        Way::ByFork => by_fork(events, pair),
        Way::ByJoin => by_join(events, pair),
        Way::BySiblingJoin => by_sibling_join(events, pair),
        Way::ChildAndParent => child_and_parent(events, pair),
        Way::TwoChildren => two_children(events, pair),
        Way::TwoLocations => two_locations(events, pair),
        Way::BehindASum => behind_a_sum(events, pair),
        Way::BehindARead => behind_another(events, pair_at(cells, row % 3), pair),
        Way::BehindAWrite => behind_another(events, pair_at(cells, 3 + row % 3), pair),
        Way::BehindAnotherSum => behind_another(events, pair_at(cells, 6 + row % 3), pair),
    }
}

// Where the earlier access of the pair stands. The later one is the last event.
pub fn earlier_at(i: usize) -> usize {
    match way_of(i) {
        Way::InOneTask | Way::ByFork => 0,
        Way::BehindASum | Way::BehindARead | Way::BehindAWrite | Way::BehindAnotherSum => 2,
        _ => 1,
    }
}

// Whether it reaches the later one.
pub fn reach(i: usize) -> bool {
    matches!(
        way_of(i),
        Way::InOneTask | Way::ByFork | Way::ByJoin | Way::BySiblingJoin
    )
}
