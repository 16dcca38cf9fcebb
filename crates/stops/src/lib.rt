// The events that must be held to the line rules. An access to a location below 1,024 by the task of the event before it, an access too, keeps the rules where
// that one did, and does not change the line: it is passed over. Every other event is a stop. The stops are found ahead of the rules, in two passes with no
// branch that depends on an event, so that none can be mispredicted.
#![tactic(auto)]

ghost use Rattle.std.specs.Prelude.{◌≡◌, ◌+◌, ◌≤◌, ◌<◌, length};
ghost use Rattle.trace.specs.Trace.{MAX_EVENTS};
ghost use Rattle.trace.specs.Held.{held_trace};
ghost use Rattle.trace.proofs.Sizes.{SizedTrace};
ghost use Rattle.cells.specs.Cells.{Filled, NUMBER, number_in};
ghost use Rattle.stops.specs.Stops.{is_stop, mark_of, stop_mark, Marks, is_marked, Collected};

use cells::NUMBER;
use trace::{LOCATIONS, Trace};

// 1 where event p, which is not the first, is a stop, else 0; it is told whether p and the event before it are accesses. Each `&` asks both its sides: `&&`
// would branch. It is no bool, since `gather` adds it up.
fn stop_at(accesses: bool, trace: Trace, p: usize) -> u16
    requires { (0 < p) × (p < length trace.tasks.now) × (p < length trace.operands.now) }
    ensures { result ≡ stop_mark accesses trace.entry.tasks.now trace.entry.operands.now p }
{
    let quiet = accesses & (trace.tasks[p] == trace.tasks[p - 1]) & (trace.operands[p] < LOCATIONS);
    u16::from(!quiet)
}

// Marks each event by 1 where it is a stop, else by 0, in the cell where its number will stand. Whether an event is an access is asked once and kept for the
// next one.
fn mark(trace: Trace, ws: &mut [u16])
    requires { SizedTrace trace ws.old }
    ensures { Filled NUMBER (length trace.entry.kinds.now) (mark_of (is_stop (held_trace trace.entry))) ws.old ws.new }
{
    if trace.kinds.is_empty() {
        return;
    }
    ws[NUMBER] = 1;
    let mut previous = kinds::is_access(trace.kinds[0]);
    for p in 1..trace.kinds.len() {
        let access = kinds::is_access(trace.kinds[p]);
        ws[NUMBER + p] = stop_at(previous & access, trace, p);
        previous = access;
    }
}

// Puts the positions of the events that are marked by 1 in place of the first marks, and says how many they are. Each position is stored, and the next one
// in its place where it is that of no stop.
#[tactic(auto, using(crate::proofs::Collecting::collected_below))]
fn gather(ws: &mut [u16], n: usize) -> usize
    requires n_bound { (n ≤ MAX_EVENTS) × (NUMBER + n ≤ length ws.old) }
    requires marks { Marks n ws.old }
    ensures { Collected (is_marked ws.old) n ws.old ws.new result }
{
    let mut count: usize = 0;
    for p in 0..n {
        let stop = ws[NUMBER + p];
        ws[NUMBER + count] = p as u16;
        count += stop as usize;
    }
    count
}

// Puts the positions of the stops in the cells from NUMBER on, and says how many they are.
pub fn collect(trace: Trace, ws: &mut [u16]) -> usize
    requires { SizedTrace trace ws.old }
    ensures { Collected (is_stop (held_trace trace.entry)) (length trace.entry.kinds.now) ws.old ws.new result }
{
    mark(trace, ws);
    gather(ws, trace.kinds.len())
}

// The position of stop k.
pub fn position(ws: &[u16], k: usize) -> usize
    requires { NUMBER + k < length ws.now }
    ensures { result ≡ number_in ws.now k }
{
    cells::number(ws, k) as usize
}
