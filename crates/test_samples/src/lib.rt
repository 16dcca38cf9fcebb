// Traces at random, from a seed. Most keep the line rules; some are then damaged at one place.
#![tactic(auto)]

mod damage;
pub mod draws;
pub mod events;
mod growth;
mod shapes;
mod tree;

use draws::{below, next, stream};
use shapes::shape_of;

// A number with no divisor in common with 1,023 = 3 * 11 * 31.
fn stride(seed: usize) -> usize {
    match seed % 8 {
        0 => 1,
        1 => 2,
        2 => 5,
        3 => 7,
        4 => 13,
        5 => 64,
        6 => 512,
        _ => 1022,
    }
}

// The tasks' numbers: 0, then 1 to 1,023 in an order of its own for each seed.
fn names_of(seed: usize) -> [u16; 1024] {
    let mut names = [0; 1024];
    let mut name = below(seed, 1023);
    for cell in names.iter_mut().skip(1) {
        *cell = (name % 1023) as u16 + 1;
        name = (name % 1023).wrapping_add(stride(seed));
    }
    names
}

// The tree of so many tasks, each with the number of its place, from some number of events on. Answers the number of events.
pub fn make_tree(events: &mut [u16], tasks: usize, from: usize) -> usize {
    tree::sprout_all(events, &names_of(0), tasks, from)
}

fn tree_or_grown(events: &mut [u16], seed: usize) -> usize {
    let names = names_of(seed);
    if below(seed, 40) == 0 {
        return tree::tree(events, &names, stream(seed, 3));
    }
    growth::grown(events, &names, shape_of(stream(seed, 1)), stream(seed, 2))
}

// Makes the trace of a seed, of no more events than the slow judge takes. One trace in three is damaged. Answers the number of events.
pub fn make(events: &mut [u16], seed: usize) -> usize {
    let n = tree_or_grown(events, seed);
    let damage = stream(seed, 4);
    if below(damage, 3) == 0 {
        damage::spoil(events, n, next(damage));
    }
    n
}
