// The table of joins and its links: document 02's K2 taken at its word. Nothing is kept but the links: the size of a tree is counted, task by task, at each
// join.
use crate::events::{Kind, Trace};
use crate::rules::TASKS;
use std::array;

// The top of a task's tree, and how many links a walk up to it follows.
#[derive(Clone, Copy)]
struct Chain {
    top: usize,
    links: usize,
}

// The task that each task hangs under, and itself where it is a top.
#[derive(Drop)]
struct Table {
    above: [usize; TASKS],
}

impl Table {
    // "each task starts as a tree of one"
    fn new() -> Table {
        Table {
            above: array::from_fn(|task| task),
        }
    }

    // Up to the task that hangs under itself. No chain has as many links as there are tasks: by that bound the loop is seen to end.
    fn walk(&self, task: usize) -> Chain {
        let mut top = task;
        for links in 0..TASKS {
            let above = self.above[top % TASKS];
            if above == top {
                return Chain { top, links };
            }
            top = above;
        }
        Chain { top, links: TASKS }
    }

    // The size of the tree of a top, "by number of tasks": of those from which a walk ends there.
    fn size(&self, top: usize) -> usize {
        (0..TASKS)
            .filter(|task| self.walk(*task).top == top)
            .count()
    }

    // "A join hangs the top of the smaller tree, by number of tasks, under the top of the larger; at equal size the joiner's top stays on top. No link changes
    // otherwise."
    fn join(&mut self, joiner: usize, joined: usize) {
        let one = self.walk(joiner).top;
        let other = self.walk(joined).top;
        if self.size(one) < self.size(other) {
            self.above[one % TASKS] = other;
        } else {
            self.above[other % TASKS] = one;
        }
    }

    // "the largest such number that any task has"
    fn most_links(&self) -> usize {
        (0..TASKS)
            .map(|task| self.walk(task).links)
            .max()
            .unwrap_or(0)
    }
}

// The table after the first n events.
fn table_after(trace: Trace<'_>, n: usize) -> Table {
    let mut table = Table::new();
    for q in 0..n {
        let event = trace.event(q);
        if event.is(Kind::Join) {
            table.join(event.task, event.operand);
        }
    }
    table
}

// ".. after the last event looked at", where these are the first n, and keep the rules.
pub fn links_after(trace: Trace<'_>, n: usize) -> usize {
    table_after(trace, n).most_links()
}
