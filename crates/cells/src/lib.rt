// Cells of the one workspace that callers lend, where all tables, lists and stacks of the judge stand, since it takes no memory of its own: twelve tables of
// 1,024 cells, then one cell for each event. Table k starts at cell k * 1,024. And the one writer of events, to three lent slices.
#![tactic(auto)]

ghost use Rattle.std.specs.Prelude.{◌≡◌, ◌+◌, ◌≤◌, ◌<◌, length, get_or, set};
ghost use Rattle.trace.specs.Slices.{slices, store, Room};
ghost use Rattle.trace.specs.Held.{held_event};
ghost use Rattle.cells.specs.Cells.{zeroed, NUMBER, number_in};

use trace::Event;

// The cell of event 0, past the tables. From here on each event's number stands, once the events have numbers.
pub const NUMBER: usize = 12288;

// Sets the first n cells to 0: callers lend cells with any content, and get them back cleared.
pub fn clear(ws: &mut [u16], n: usize)
    requires { n ≤ length ws.old }
    ensures { ws.new ≡ zeroed n ws.old }
{
    ws[..n].fill(0);
}

// Cell i of the table that starts at base. Its callers then need no cast and no index of their own.
pub fn cell(ws: &[u16], base: usize, i: u16) -> u16
    requires { base + i < length ws.now }
    ensures { result ≡ get_or ws.now (base + i) 0 }
{
    ws[base + i as usize]
}

// Stores v in cell i of the table that starts at base.
pub fn put(ws: &mut [u16], base: usize, i: u16, v: u16)
    requires { base + i < length ws.old }
    ensures { ws.new ≡ set ws.old (base + i) v }
{
    ws[base + i as usize] = v;
}

// The number of event p.
pub fn number(ws: &[u16], p: usize) -> u16
    requires { NUMBER + p < length ws.now }
    ensures { result ≡ number_in ws.now p }
{
    ws[NUMBER + p]
}

// Event `at` of a trace.
#[tactic(auto, unfolding(trace::specs::Slices::store))]
pub fn store_event(
    kinds: &mut [u8],
    tasks: &mut [u16],
    operands: &mut [u16],
    at: usize,
    event: Event,
)
    requires { Room (slices kinds.old tasks.old operands.old) (at + 1) }
    ensures { slices kinds.new tasks.new operands.new
        ≡ store (slices kinds.old tasks.old operands.old) at (held_event event) }
{
    kinds[at] = event.kind;
    tasks[at] = event.task;
    operands[at] = event.operand;
}
