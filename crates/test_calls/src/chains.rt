// Runs for the links of document 02's K2, each with their number, drawn by hand: short ones, in which a wrong table of joins gives another number, as a table
// like that of document 01's runs; and ones whose chains are as long as they get.
use crate::Reply;
use crate::large::put_one;
use crate::table::read_table;
use test_samples::events::Kind;
use test_samples::make_tree;

// In the comments a tree stands in parentheses: its top, then what hangs under that. (0 1 (2 3)) is 0 with 1 and 2 under it, and 3 under 2: 2 links from 3 to
// the top. Answers how many cells the table has, as read_table does.
pub fn read_runs(cells: &mut [u16]) -> Option<usize> {
    read_table(
        "
# the joiner is in the smaller tree: 0 joins (1 2), which makes (1 2 0). 2 if the joiner's top always stayed
6 0 CLEAN 0 0 1: 0 fork 1, 1 fork 2, 2 halt 1, 1 join 2, 1 halt 0, 0 join 1
# the joined is no top: 0 joins 1 of (2 3 1), which makes (2 3 1 0). 2 if 0 hung under 1
9 0 CLEAN 0 0 1: 0 fork 1, 1 fork 2, 2 fork 3, 3 halt 2, 2 join 3, 2 halt 1, 1 join 2, 1 halt 0, 0 join 1
# the same, and the joiner's tree is the larger: (0 1 2 3) joins 4 of (5 6 4), which makes (0 1 2 3 (5 6 4)). 1 if 4 alone hung under 0
18 0 CLEAN 0 0 2: 0 fork 1, 1 halt 0, 0 join 1, 0 fork 2, 2 halt 0, 0 join 2, 0 fork 3, 3 halt 0, 0 join 3,
    0 fork 4, 4 fork 5, 5 fork 6, 6 halt 5, 5 join 6, 5 halt 4, 4 join 5, 4 halt 0, 0 join 4
# equal size, the joiner is its top: (0 1 (2 3)) joins (4 5 6 7), which makes (0 1 (2 3) (4 5 6 7)). 3 if the joined's top stayed
21 0 CLEAN 0 0 2: 0 fork 1, 1 halt 0, 0 join 1, 0 fork 2, 2 fork 3, 3 halt 2, 2 join 3, 2 halt 0, 0 join 2,
    0 fork 4, 4 fork 5, 5 halt 4, 4 join 5, 4 fork 6, 6 halt 4, 4 join 6, 4 fork 7, 7 halt 4, 4 join 7, 4 halt 0, 0 join 4
# the other way round: (0 1 2 3) joins (4 5 (6 7)), which makes (0 1 2 3 (4 5 (6 7))). 2 if the joined's top stayed
21 0 CLEAN 0 0 3: 0 fork 1, 1 halt 0, 0 join 1, 0 fork 2, 2 halt 0, 0 join 2, 0 fork 3, 3 halt 0, 0 join 3,
    0 fork 4, 4 fork 5, 5 halt 4, 4 join 5, 4 fork 6, 6 fork 7, 7 halt 6, 6 join 7, 6 halt 4, 4 join 6, 4 halt 0, 0 join 4
# equal size, the joiner's top is another task: 0 of (1 2 0 3) joins (4 5 (6 7)), which makes (1 2 0 3 (4 5 (6 7))). 4 if 0 stayed, 2 if 4 did
21 0 CLEAN 0 0 3: 0 fork 1, 1 fork 2, 2 halt 1, 1 join 2, 1 halt 0, 0 join 1, 0 fork 3, 3 halt 0, 0 join 3,
    0 fork 4, 4 fork 5, 5 halt 4, 4 join 5, 4 fork 6, 6 fork 7, 7 halt 6, 6 join 7, 6 halt 4, 4 join 6, 4 halt 0, 0 join 4
# the other way round: 0 of (1 2 (3 4) 0) joins (5 6 7 8 9), which makes (1 2 (3 4) 0 (5 6 7 8 9)). 3 if 0 or 5 stayed
27 0 CLEAN 0 0 2: 0 fork 1, 1 fork 2, 2 halt 1, 1 join 2, 1 fork 3, 3 fork 4, 4 halt 3, 3 join 4, 3 halt 1, 1 join 3, 1 halt 0, 0 join 1,
    0 fork 5, 5 fork 6, 6 halt 5, 5 join 6, 5 fork 7, 7 halt 5, 5 join 7, 5 fork 8, 8 halt 5, 5 join 8, 5 fork 9, 9 halt 5, 5 join 9, 5 halt 0,
    0 join 5
# by number of tasks and not by depth: (0 1 2 3 4) joins (5 6 (7 8)), which makes (0 1 2 3 4 (5 6 (7 8))). 2 by depth
24 0 CLEAN 0 0 3: 0 fork 1, 1 halt 0, 0 join 1, 0 fork 2, 2 halt 0, 0 join 2, 0 fork 3, 3 halt 0, 0 join 3, 0 fork 4, 4 halt 0, 0 join 4,
    0 fork 5, 5 fork 6, 6 halt 5, 5 join 6, 5 fork 7, 7 fork 8, 8 halt 7, 7 join 8, 7 halt 5, 5 join 7, 5 halt 0, 0 join 5
# the same, and the joiner's tree is the smaller: (0 1 (2 3)) joins (4 5 6 7 8), which makes (4 5 6 7 8 (0 1 (2 3))). 2 by depth
24 0 CLEAN 0 0 3: 0 fork 1, 1 halt 0, 0 join 1, 0 fork 2, 2 fork 3, 3 halt 2, 2 join 3, 2 halt 0, 0 join 2,
    0 fork 4, 4 fork 5, 5 halt 4, 4 join 5, 4 fork 6, 6 halt 4, 4 join 6, 4 fork 7, 7 halt 4, 4 join 7, 4 fork 8, 8 halt 4, 4 join 8, 4 halt 0,
    0 join 4
# No link changes otherwise: (0 1) joins (2 3 4), then (5 6 7 8 9 10), then 11: 1, 0, 2, 5 are a chain. 2 if a search drew 0 up to its top
33 0 CLEAN 0 0 3: 0 fork 1, 1 halt 0, 0 join 1, 0 fork 2, 2 fork 3, 3 halt 2, 2 join 3, 2 fork 4, 4 halt 2, 2 join 4, 2 halt 0, 0 join 2,
    0 fork 5, 5 fork 6, 6 halt 5, 5 join 6, 5 fork 7, 7 halt 5, 5 join 7, 5 fork 8, 8 halt 5, 5 join 8, 5 fork 9, 9 halt 5, 5 join 9,
    5 fork 10, 10 halt 5, 5 join 10, 5 halt 0, 0 join 5, 0 fork 11, 11 halt 0, 0 join 11
# any task, also one that is not of the running task's tree: 2 joins 3, 0 joins nobody
7 0 CLEAN 0 0 1: 0 fork 1, 1 halt 0, 0 fork 2, 2 fork 3, 3 halt 2, 2 join 3, 2 halt 0
# a race with an early partner: at t it is (2 3 (4 5) 0). 0 at s
16 0 RACE 1 15 2: 0 fork 1, 1 write 5, 1 halt 0, 0 fork 2, 2 fork 3, 3 halt 2, 2 join 3, 2 fork 4, 4 fork 5, 5 halt 4, 4 join 5, 4 halt 2,
    2 join 4, 2 halt 0, 0 join 2, 0 write 5
# the same with a refusal
16 0 REFUSED 8 15 0: 0 fork 1, 1 write 5, 1 halt 0, 0 fork 2, 2 fork 3, 3 halt 2, 2 join 3, 2 fork 4, 4 fork 5, 5 halt 4, 4 join 5, 4 halt 2,
    2 join 4, 2 halt 0, 0 join 2, 0 write 1024
# joins after t are not looked at: at t it is (0 2). 2 at the end, (0 2 (3 4))
13 0 RACE 1 6 1: 0 fork 1, 1 write 5, 1 halt 0, 0 fork 2, 2 halt 0, 0 join 2, 0 write 5,
    0 fork 3, 3 fork 4, 4 halt 3, 3 join 4, 3 halt 0, 0 join 3
",
        cells,
    )
}

// A trace that is laid out: how many events it has, and what the judge must answer.
#[derive(Clone, Copy)]
pub struct Laid {
    pub events: usize,
    pub want: Reply,
}

// Task 1,023 writes location 0 and is not joined; then comes the tree of 512 tasks, which makes 9 links. Answers the number of events.
fn lay_write_and_tree(events: &mut [u16]) -> usize {
    put_one(events, 0, 0, Kind::Fork, 1023);
    put_one(events, 1, 1023, Kind::Write, 0);
    put_one(events, 2, 1023, Kind::Halt, 0);
    make_tree(events, 512, 3)
}

// The traces whose chains are as long as they get, or nearly.
#[derive(Clone, Copy)]
pub enum Long {
    // Two to the power of so many tasks.
    Tree(u8),
    // At the end task 0 reads location 0. There are 0 links at s, and 9 at t.
    Race,
    // At the end an event breaks a rule: "with a refusal, 0".
    Refusal,
    // Task 256 writes location 0, once the 255 before it are joined. The joins after t, by which there are 9 links, are not looked at.
    EarlyRace,
}

impl Long {
    pub const ALL: [Long; 6] = [
        Long::Tree(8),
        Long::Tree(9),
        Long::Tree(10),
        Long::Race,
        Long::Refusal,
        Long::EarlyRace,
    ];

    pub fn lay(self, events: &mut [u16]) -> Laid {
        match self {
            Long::Tree(exponent) => lay_tree(events, exponent),
            Long::Race => lay_race(events),
            Long::Refusal => lay_refusal(events),
            Long::EarlyRace => lay_early_race(events),
        }
    }
}

fn lay_tree(events: &mut [u16], exponent: u8) -> Laid {
    Laid {
        events: make_tree(events, 1 << (exponent % 64), 0),
        want: Reply::clean(exponent.into()),
    }
}

fn lay_race(events: &mut [u16]) -> Laid {
    let t = lay_write_and_tree(events);
    put_one(events, t, 0, Kind::Read, 0);
    Laid {
        events: t.wrapping_add(1),
        want: Reply::race(1, t, 9),
    }
}

fn lay_refusal(events: &mut [u16]) -> Laid {
    let p = lay_write_and_tree(events);
    put_one(events, p, 0, Kind::Write, 1024);
    Laid {
        events: p.wrapping_add(1),
        want: Reply::refused(8, p),
    }
}

fn lay_early_race(events: &mut [u16]) -> Laid {
    let n = lay_write_and_tree(events);
    put_one(events, 1024, 256, Kind::Write, 0);
    Laid {
        events: n,
        want: Reply::race(1, 1024, 8),
    }
}
