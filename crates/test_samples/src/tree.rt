// A tree of tasks whose joins make the longest chains of links in a table of joins.
use crate::draws::{below, seed_of};
use crate::events::{Event, Kind, put_event};
use test_cells::get;

// The place of the task that forks the one at a place: that without its lowest bit.
fn parent(child: usize) -> usize {
    child & child.wrapping_sub(1)
}

// A task halts, and its parent, which resumes, joins it.
fn give_back(events: &mut [u16], names: &[u16], child: usize, n: usize) {
    let name = get(names, child);
    let resumes = get(names, parent(child));
    put_event(events, n, Event::new(name, Kind::Halt, resumes));
    put_event(
        events,
        n.wrapping_add(1),
        Event::new(resumes, Kind::Join, name),
    );
}

// Every task whose tasks below it are all done is given back. Answers the number of events.
fn fold(events: &mut [u16], names: &[u16], task: usize, from: usize) -> usize {
    let mut n = from;
    let mut child = task;
    for _ in 0..task.trailing_ones() {
        give_back(events, names, child, n);
        n = n.wrapping_add(2);
        child = parent(child);
    }
    n
}

// A task is forked, and writes its own location.
fn sprout(events: &mut [u16], names: &[u16], task: usize, n: usize) -> usize {
    let name = get(names, task);
    let forks = get(names, parent(task));
    put_event(events, n, Event::new(forks, Kind::Fork, name));
    put_event(
        events,
        n.wrapping_add(1),
        Event::new(name, Kind::Write, name),
    );
    fold(events, names, task, n.wrapping_add(2))
}

// The events of the tree, from some number of events on. A power of two of tasks makes a chain of as many links as its exponent: each join is of trees of one
// size. Answers the number of events.
pub fn sprout_all(events: &mut [u16], names: &[u16], tasks: usize, from: usize) -> usize {
    let mut n = from;
    for task in 1..tasks {
        n = sprout(events, names, task, n);
    }
    n
}

// 2 to 1,024 tasks. Then task 0 reads locations of the tree's tasks, up to 100 times. Answers the number of events.
pub fn tree(events: &mut [u16], names: &[u16], seed: usize) -> usize {
    let tasks = 1usize << (1 + below(seed, 10) % 10);
    let n = sprout_all(events, names, tasks, 0);
    let end = n.wrapping_add(100).min(test_slow::EVENTS);
    for p in n..end {
        let location = get(names, below(seed_of(p), tasks));
        put_event(events, p, Event::new(0, Kind::Read, location));
    }
    n.max(end)
}
