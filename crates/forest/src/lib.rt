// The table of joins (document 02, K2) in the first three tables of a workspace: a forest of the tasks, the search for a task's top, the join of two trees, and
// the most links that a search follows.
// The tables are no struct, since the callers' one lent workspace holds the list of the stops too, which is read between two joins.
// The definitions in `specs/` say what a forest is and what each function leaves; the laws in `proofs/` say what that means for the table.
#![tactic(auto)]

ghost use Rattle.std.specs.Prelude.{◌≡◌, ◌≤◌, ◌<◌, length, MatchOption};
ghost use Rattle.std.proofs.Math.Option.{none, some};
ghost use Rattle.trace.specs.Trace.{TASKS};
ghost use Rattle.trace.specs.Search.{largest_below};
ghost use Rattle.trace.specs.Joins.{links_of, MAX_LINKS};
ghost use Rattle.forest.specs.Tables.{Found};
ghost use Rattle.forest.specs.Forest.{parents, ForestIn, Hangable, hung_in, Unitable, united_in, Joinable, Joined};

// Table 0, the links: 0 where a task is a top, else its parent + 1.
const LINK: usize = 0;

// Table 1, the sizes: the number of tasks of a top's tree less one, so that cleared cells are trees of one task.
const SIZE: usize = 1024;

// Table 2, the heights: the most links that lead to a top.
const HEIGHT: usize = 2048;

// The cells of all three.
pub const FOREST_CELLS: usize = 3072;

// The top of a task's tree, and the number of links between the two.
#[derive(Clone, Copy)]
pub struct Top {
    pub task: u16,
    pub links: u16,
}

// The parent of a task; a top has none, and its link is 0.
fn parent_of(ws: &[u16], task: u16) -> Option<u16>
    requires { task < length ws.now }
    ensures { MatchOption result (parents ws.now task ≡ none) (λ p. parents ws.now task ≡ some p) }
{
    cells::cell(ws, LINK, task).checked_sub(1)
}

// Follows the links from a task to its top. The loop tests the link and nothing else: that it ends, and that 10 links are the most, is in the proof.
pub fn find(ws: &[u16], task: u16) -> Top
    requires forest_in { ForestIn ws.now }
    requires task_bound { task < TASKS }
    ensures { Found (parents ws.now) task result.task result.links }
{
    let mut at = task;
    let mut links: u16 = 0;
    while let Some(parent) = parent_of(ws, at) {
        at = parent;
        links += 1;
    }
    Top { task: at, links }
}

// Hangs the top x under the top y, whose tree then has the tasks of both: one link more leads from those of x.
#[tactic(auto, unfolding(crate::specs::Forest::hung_in))]
fn hang(ws: &mut [u16], x: u16, y: u16)
    requires { Hangable ws.old x y }
    ensures { ws.new ≡ hung_in ws.old x y }
{
    let sum = cells::cell(ws, SIZE, x) + cells::cell(ws, SIZE, y) + 1;
    let height = (cells::cell(ws, HEIGHT, x) + 1).max(cells::cell(ws, HEIGHT, y));
    cells::put(ws, LINK, x, y + 1);
    cells::put(ws, SIZE, y, sum);
    cells::put(ws, HEIGHT, y, height);
}

// Makes one tree of those of a, the joiner's top, and b, the joined task's. The top of the smaller tree goes under the top of the larger, so that
// links stay few; at equal size a stays.
#[tactic(auto, using(crate::proofs::Cells::hangable))]
fn union(ws: &mut [u16], a: u16, b: u16)
    requires { Unitable ws.old a b }
    ensures { ws.new ≡ united_in ws.old a b }
{
    if cells::cell(ws, SIZE, a) < cells::cell(ws, SIZE, b) {
        hang(ws, a, b);
        return;
    }
    hang(ws, b, a);
}

// Task x joins task v.
pub fn join(ws: &mut [u16], x: u16, v: u16)
    requires { Joinable ws.old x v }
    ensures { Joined ws.old x v ws.new }
{
    let joiner = find(ws, x);
    let joined = find(ws, v);
    union(ws, joiner.task, joined.task);
}

// The most links between a task and its top: the largest height. So no search is needed for it.
pub fn most_links(ws: &[u16]) -> u16
    requires { ForestIn ws.now }
    ensures { (result ≡ largest_below TASKS (links_of (parents ws.now))) × (result ≤ MAX_LINKS) }
{
    let mut most: u16 = 0;
    for height in &ws[HEIGHT..FOREST_CELLS] {
        most = most.max(*height);
    }
    most
}
