// Calls drawn at random, from a seed.
use crate::{Call, asking, roomy};
use test_samples::draws::{below, next};
use test_slow::Sizes;

// Just enough cells in each slice.
fn tight(n: usize) -> Sizes {
    Sizes {
        kinds: n,
        tasks: n,
        operands: n,
        ws: n.wrapping_add(12288),
        first: n,
        second: n,
    }
}

// Most traces have room enough; some have a slice too short or too long.
pub fn sizes_of(n: usize, seed: usize) -> Sizes {
    let mut sizes = tight(n);
    match below(seed, 100) {
        0 => sizes.kinds = n.wrapping_add(1),
        1 => sizes.tasks = n.wrapping_add(1),
        2 => sizes.operands = n.wrapping_add(1),
        3 => sizes.ws = n.wrapping_add(12287),
        4 => sizes.ws = below(next(seed), n.wrapping_add(12288)),
        5 => sizes.first = n.wrapping_sub(1),
        6 => sizes.second = n.wrapping_sub(1),
        7 => {}
        _ => sizes = roomy(n),
    }
    sizes
}

// Asks about two positions, at times just past the end or far, mostly the smaller one first.
pub fn asking_of(sizes: Sizes, seed: usize) -> Call {
    let a = next(seed);
    let b = next(a);
    let n = sizes.kinds.wrapping_add(1);
    let p = below(seed, n);
    let q = below(a, n);
    match below(b, 40) {
        0 => asking(sizes, b, q, seed),
        1 => asking(sizes, p, b, seed),
        2..=5 => asking(sizes, p, q, seed),
        _ => asking(sizes, p.min(q), p.max(q), seed),
    }
}
