// How long the chains of the table of joins get (document 02, K2). No answer rests on the table, so it is made where its number is reported: over the joins of
// the events that were looked at.
#![tactic(auto)]

ghost use Rattle.std.specs.Prelude.{◌≤◌, suc, length};
ghost use Rattle.trace.specs.Held.{held_trace, HasEvent};
ghost use Rattle.trace.specs.Line.{halt_operand};
ghost use Rattle.trace.specs.Demands.{KeepsRules};
ghost use Rattle.trace.proofs.Sizes.{SizedTrace};
ghost use Rattle.stops.specs.Stops.{StopsIn};
ghost use Rattle.chains.specs.Tables.{JoinsAt, Taken, LinksSay};

use forest::FOREST_CELLS;
use trace::{JOIN, Trace};

// Event i, if it is a join.
fn take(trace: Trace, ws: &mut [u16], i: usize)
    requires i_in_bounds { HasEvent trace i }
    requires keeps_rules { KeepsRules halt_operand (held_trace trace) (suc i) }
    requires joins_at { JoinsAt (held_trace trace) i ws.old }
    ensures { Taken (held_trace trace.entry) (suc i) ws.old ws.new }
{
    let event = trace.event(i);
    if event.kind == JOIN {
        forest::join(ws, event.task, event.operand);
    }
}

// The table of joins after so many events. Every join is a stop, so only the stops are asked.
fn build(trace: Trace, ws: &mut [u16], stops: usize, events: usize)
    requires sized { SizedTrace trace ws.old }
    requires stops_in { StopsIn (held_trace trace) (length trace.kinds.now) ws.old stops }
    requires events_in_bounds { (events ≤ length trace.kinds.now) × KeepsRules halt_operand (held_trace trace) events }
    ensures { Taken (held_trace trace.entry) events ws.old ws.new }
{
    cells::clear(ws, FOREST_CELLS);
    for k in 0..stops {
        let i = stops::position(ws, k);
        if events <= i {
            return;
        }
        take(trace, ws, i);
    }
}

// The largest number of links between a task and its top, in the table of joins after so many events.
pub fn longest(trace: Trace, ws: &mut [u16], stops: usize, events: usize) -> usize
    requires sized { SizedTrace trace ws.old }
    requires stops_in { StopsIn (held_trace trace) (length trace.kinds.now) ws.old stops }
    requires events_in_bounds { (events ≤ length trace.kinds.now) × KeepsRules halt_operand (held_trace trace) events }
    ensures { LinksSay (held_trace trace.entry) events ws.old ws.new result }
{
    build(trace, ws, stops, events);
    forest::most_links(ws) as usize
}
