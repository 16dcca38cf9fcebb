// The shapes that traces at random have.
use crate::draws::{below, next};

#[derive(Clone, Copy)]
pub struct Shape {
    // How many events.
    pub count: usize,
    // Of 16 events so many are forks, then up to this one halts, then up to this one joins; the others are accesses.
    pub forks: usize,
    pub halts: usize,
    pub joins: usize,
    // Once so many halted tasks stand in the line, all are joined.
    pub hold: usize,
    // Accesses go to so many locations; of 16 so many are writes and so many sums.
    pub locations: usize,
    pub writes: usize,
    pub sums: usize,
    // Accesses race with none, but for one in so many. None: accesses at random.
    pub care: Option<usize>,
}

// ---- the ways in which tasks nest: what else a shape has is drawn for each

// Deep nesting.
const DEEP: Shape = Shape {
    count: 0,
    forks: 6,
    halts: 8,
    joins: 10,
    hold: 2000,
    locations: 0,
    writes: 4,
    sums: 0,
    care: None,
};

// Shallow nesting: once 12 halted tasks stand in the line, the running task joins them all, most of which it did not fork.
const WIDE: Shape = Shape {
    forks: 4,
    halts: 9,
    joins: 9,
    hold: 12,
    writes: 5,
    ..DEEP
};

// As many joins as forks and halts: often by a task that is not the parent.
const PIPELINE: Shape = Shape {
    forks: 4,
    halts: 8,
    joins: 12,
    writes: 6,
    ..DEEP
};

// Few tasks and many accesses.
const BUSY: Shape = Shape {
    forks: 1,
    halts: 2,
    joins: 3,
    hold: 6,
    writes: 5,
    ..DEEP
};

// Most traces are short, and one in 64 has as many events as the slow judge takes.
fn count_of(seed: usize) -> usize {
    match below(seed, 64) {
        0 => test_slow::EVENTS,
        1..=7 => 600,
        8..=31 => 150,
        _ => below(next(seed), 60).wrapping_add(1),
    }
}

fn locations_of(seed: usize) -> usize {
    match below(seed, 4) {
        0 => 1,
        1 => 4,
        2 => 40,
        _ => 1024,
    }
}

fn care_of(seed: usize) -> Option<usize> {
    match below(seed, 8) {
        0..=3 => None,
        4 => Some(20),
        5 => Some(200),
        _ => Some(1000000),
    }
}

fn nesting_of(seed: usize) -> Shape {
    match below(seed, 4) {
        0 => DEEP,
        1 => WIDE,
        2 => PIPELINE,
        _ => BUSY,
    }
}

// Half of the traces have no sums, a quarter has all three kinds of access. In the others many sums go unordered before one is held against a read, or
// against a write.
fn with_sums(shape: Shape, seed: usize) -> Shape {
    let (writes, sums) = match below(seed, 8) {
        0..=3 => (shape.writes, 0),
        4 | 5 => (shape.writes, 5),
        6 => (0, 15),
        _ => (1, 15),
    };
    Shape {
        writes,
        sums,
        ..shape
    }
}

pub fn shape_of(seed: usize) -> Shape {
    let a = next(seed);
    let b = next(a);
    let c = next(b);
    let shape = Shape {
        count: count_of(seed),
        locations: locations_of(a),
        care: care_of(b),
        ..nesting_of(c)
    };
    with_sums(shape, next(c))
}
