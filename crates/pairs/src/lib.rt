// Every close pair: the pairs of accesses s, t that race and are at most 256 events apart, written to two lent slices in order of t and then of s. What the call
// answers and leaves is defined in `specs/`. Most accesses race with no earlier one, and the tables of `scan` say so. Of the others, the events that may be a
// partner are held against them by location, kind and number: first to be counted, then to be written.
#![tactic(auto)]

ghost use Rattle.std.specs.Prelude.{◌≡◌, true, ◌+◌, ◌-◌, ◌≤◌, ◌<◌, length, get_or, replicate};
ghost use Rattle.std.proofs.lemmas.List.Edits.{sets};
ghost use Rattle.trace.specs.Trace.{is_access, LOCATIONS, WORKSPACE_CELLS};
ghost use Rattle.trace.specs.Answers.{reply};
ghost use Rattle.trace.specs.Held.{held_trace};
ghost use Rattle.trace.specs.Orders.{chosen};
ghost use Rattle.trace.proofs.Sizes.{SizedTrace};
ghost use Rattle.cells.specs.Cells.{Filled, NUMBER};
ghost use Rattle.pairs.specs.Pairs.{CLOSE, slices, too_short, pairs_gives, pairs_outcome};
ghost use Rattle.pairs.specs.Demands.{PairsDemand1, PairsCallDemand};
ghost use Rattle.pairs.specs.Close.{AccessAt, conflicts_in, partner_in, Readable, Marked, is_marked, Writable, SEEN, Visitable, Taken, VisitSays};
ghost use Rattle.pairs.specs.Close.{Fits, Ready, Begun, racing, PassSays, Listable, ListSays, GatherSays};

use sizes::WORKSPACE_CELLS;
use trace::{LOCATIONS, READ, Refusal, Row, SUM, Trace, WRITE};

// "with t − s at most 256"
const CLOSE: usize = 256;

// For each location a position from which on no access of it stands before the event at hand.
const SEEN: usize = 2048;

// What earlier events are held against: an access's location and number, and which kinds conflict with its own.
#[derive(Clone, Copy)]
struct Access {
    location: u16,
    number: u16,
    read: bool,
    write: bool,
    sum: bool,
}

// The access t.
#[tactic(auto, using(trace::proofs::EventKinds::each_access))]
fn access_at(trace: Trace, ws: &[u16], t: usize) -> Access
    requires t_in_bounds { (t < length trace.kinds.now) × (t < length trace.operands.now) × (NUMBER + t < length ws.now) }
    requires t_value { is_access (get_or trace.kinds.now t 0) ≡ true }
    ensures { AccessAt trace.entry.kinds.now trace.entry.operands.now ws.now t result }
{
    let kind = trace.kinds[t];
    Access {
        location: trace.operands[t],
        number: cells::number(ws, t),
        read: kinds::is_conflict(READ, kind),
        write: kinds::is_conflict(WRITE, kind),
        sum: kinds::is_conflict(SUM, kind),
    }
}

// Whether an event of this kind is an access and conflicts. `|` and `&` ask both their sides, since no processor can predict the kind.
#[tactic(auto, unfolding(crate::specs::Close::conflicts_in))]
fn conflicts(kind: u8, access: Access) -> bool
    ensures { result ≡ conflicts_in kind access }
{
    ((kind == READ) & access.read) | ((kind == WRITE) & access.write) | ((kind == SUM) & access.sum)
}

// Whether event s, which is earlier, races with the access: it conflicts, and has the larger number.
#[tactic(auto, unfolding(crate::specs::Close::partner_in))]
fn is_partner(trace: Trace, ws: &[u16], access: Access, s: usize) -> bool
    requires { Readable trace.kinds.now trace.operands.now ws.now (s + 1) }
    ensures { result ≡ partner_in trace.entry.kinds.now trace.entry.operands.now ws.now access s }
{
    (trace.operands[s] == access.location)
        & conflicts(trace.kinds[s], access)
        & (access.number < cells::number(ws, s))
}

// Marks the events from `from` up to `to`, 256 at most, that race with the access: 1 for each that does, 0 for each that does not. Says how many do. No branch
// depends on an event, so that the compiler takes many at a time.
fn mark_partners(
    trace: Trace,
    ws: &[u16],
    access: Access,
    from: usize,
    to: usize,
    marks: &mut [u16],
) -> u16
    requires { Readable trace.kinds.now trace.operands.now ws.now to × (to ≤ from + CLOSE) × (length marks.old ≡ CLOSE) }
    ensures { Marked trace.entry.kinds.now trace.entry.operands.now ws.now access from to marks.new result }
{
    let mut count: u16 = 0;
    for s in from..to {
        let mark = is_partner(trace, ws, access, s) as u16;
        marks[s - from] = mark;
        count += mark;
    }
    count
}

// Writes the marked events, those from `from` on, from cell `at` up to cell `end`: each event is stored, and the next one over it where it is not marked, which
// costs less than a branch.
fn write_earlier(marks: &[u16], from: usize, to: usize, earlier: &mut [u16], at: usize, end: usize)
    requires { Writable marks.now from to earlier.old at end }
    ensures { earlier.new ≡ sets earlier.old at (chosen (is_marked marks.now from) from to) }
{
    // A cell and an event that move apart: no iterator moves the one by the mark of the other with no branch.
    let mut i = at;
    let mut s = from;
    while i < end {
        earlier[i] = s as u16;
        i += marks[s - from] as usize;
        s += 1;
    }
}

// Writes t to the cells from `at` up to `end`.
fn write_later(t: u16, later: &mut [u16], at: usize, end: usize)
    requires { (at ≤ end) × (end ≤ length later.old) }
    ensures { later.new ≡ sets later.old at (replicate (end - at) t) }
{
    later[at..end].fill(t);
}

// Where the window of t begins.
fn window_start(t: usize) -> usize
    ensures { result ≡ t - CLOSE }
{
    t.saturating_sub(CLOSE)
}

// The partners of the access t, where `count` pairs come before its own: how many pairs there are then. They are written if asked for.
fn take_partners<const WRITTEN: bool>(
    trace: Trace,
    ws: &[u16],
    t: usize,
    earlier: &mut [u16],
    later: &mut [u16],
    count: usize,
) -> usize
    requires visitable { Visitable trace.kinds.now trace.operands.now ws.now WRITTEN (slices earlier.old later.old) count t }
    requires t_value { is_access (get_or trace.kinds.now t 0) ≡ true }
    ensures { Taken trace.entry.kinds.now trace.entry.operands.now ws.now WRITTEN
        (slices earlier.old later.old) (slices earlier.new later.new) count result t }
{
    let access = access_at(trace, ws, t);
    let from = window_start(t);
    let to = cells::cell(ws, SEEN, access.location) as usize;
    if to <= from {
        return count;
    }
    let mut marks = [0u16; CLOSE];
    let end = count + mark_partners(trace, ws, access, from, to, &mut marks) as usize;
    if WRITTEN {
        write_earlier(&marks, from, to, earlier, count, end);
        write_later(t as u16, later, count, end);
    }
    end
}

// Event t, where `count` pairs come before its own: how many pairs there are then.
fn visit<const WRITTEN: bool>(
    trace: Trace,
    ws: &mut [u16],
    t: usize,
    earlier: &mut [u16],
    later: &mut [u16],
    count: usize,
) -> usize
    requires { Visitable trace.kinds.now trace.operands.now ws.old WRITTEN (slices earlier.old later.old) count t }
    ensures { VisitSays trace.entry.kinds.now trace.entry.operands.now ws.old ws.new WRITTEN
        (slices earlier.old later.old) (slices earlier.new later.new) count result t }
{
    let kind = trace.kinds[t];
    if !kinds::is_access(kind) {
        return count;
    }
    let mut next = count;
    if scan::races(ws, kind, trace.operands[t], cells::number(ws, t)) {
        next = take_partners::<WRITTEN>(trace, ws, t, earlier, later, count);
    }
    cells::put(ws, SEEN, trace.operands[t], t as u16 + 1);
    next
}

// Of no location anything is known but that event t is not past.
fn forget(ws: &mut [u16], t: u16)
    requires { WORKSPACE_CELLS ≤ length ws.old }
    ensures { Filled SEEN LOCATIONS (λ l. t) ws.old ws.new }
{
    ws[SEEN..SEEN + LOCATIONS as usize].fill(t);
}

// Where a pass begins, at the first access that races: the tables of `scan` are as they are before it, and of no location anything is known but that it is not past.
fn begin(trace: Trace, ws: &mut [u16], from: usize) -> usize
    requires { Ready trace.kinds.now trace.operands.now ws.old from }
    ensures { Begun trace.entry.kinds.now trace.entry.operands.now ws.old ws.new result }
{
    let events = trace.kinds.len();
    let first = scan::first_race(trace, ws, from, events).unwrap_or(events);
    forget(ws, first as u16);
    first
}

// One pass over the trace, from the first access that races on: how many pairs there are. They are written if asked for. The two slices stay two parameters, here
// and below: of a struct of `&mut`s each function would promise besides that it holds the same two.
fn pass<const WRITTEN: bool>(
    trace: Trace,
    ws: &mut [u16],
    from: usize,
    earlier: &mut [u16],
    later: &mut [u16],
) -> usize
    requires ready { Ready trace.kinds.now trace.operands.now ws.old from }
    requires fits { Fits WRITTEN (length (racing trace.kinds.now trace.operands.now ws.old (length trace.kinds.now))) (slices earlier.old later.old) }
    ensures { PassSays trace.entry.kinds.now trace.entry.operands.now ws.old ws.new WRITTEN
        (slices earlier.old later.old) (slices earlier.new later.new) result }
{
    let first = begin(trace, ws, from);
    let mut count = 0;
    for t in first..trace.kinds.len() {
        count = visit::<WRITTEN>(trace, ws, t, earlier, later, count);
    }
    count
}

// Row 20: "either slice is shorter than the list".
#[tactic(auto, unfolding(crate::specs::Pairs::too_short))]
fn is_short(earlier: &[u16], later: &[u16], count: usize) -> bool
    ensures { result ≡ too_short (slices earlier.now later.now) count }
{
    earlier.len() < count || later.len() < count
}

// The list, where the events have their numbers: counted, and then written, if there is something to write.
fn write_list(
    trace: Trace,
    ws: &mut [u16],
    from: usize,
    earlier: &mut [u16],
    later: &mut [u16],
) -> Result<usize, Refusal>
    requires { Ready trace.kinds.now trace.operands.now ws.old from }
    ensures { ListSays trace.entry.kinds.now trace.entry.operands.now ws.old ws.new
        (slices earlier.old later.old) (slices earlier.new later.new) (reply result) }
{
    let count = pass::<false>(trace, ws, from, earlier, later);
    if count == 0 {
        return Ok(0);
    }
    if is_short(earlier, later, count) {
        return Err(Row::ShortList.at(0));
    }
    pass::<true>(trace, ws, from, earlier, later);
    Ok(count)
}

// The list of a trace that keeps the rules. Where no access races there is none, and no event needs its number.
fn list_races(
    trace: Trace,
    ws: &mut [u16],
    from: usize,
    earlier: &mut [u16],
    later: &mut [u16],
) -> Result<usize, Refusal>
    requires { Listable trace.kinds.now trace.operands.now ws.old from }
    ensures { ListSays trace.entry.kinds.now trace.entry.operands.now ws.old ws.new
        (slices earlier.old later.old) (slices earlier.new later.new) (reply result) }
{
    let events = trace.kinds.len();
    if scan::first_race(trace, ws, from, events).is_none() {
        return Ok(0);
    }
    ranks::spread(trace.kinds, ws, events);
    write_list(trace, ws, from, earlier, later)
}

// The call past the size checks.
fn gather(
    trace: Trace,
    ws: &mut [u16],
    earlier: &mut [u16],
    later: &mut [u16],
) -> Result<usize, Refusal>
    requires { SizedTrace trace ws.old }
    ensures { GatherSays (held_trace trace.entry) (length trace.entry.kinds.now) ws.old ws.new
        (slices earlier.old later.old) (slices earlier.new later.new) (reply result) }
{
    let ranked = ranks::rank(trace, ws);
    match ranked.broken {
        Some(row) => Err(row.at(ranked.events)),
        None => list_races(trace, ws, ranked.leading, earlier, later),
    }
}

// EVERY CLOSE PAIR: their number, or why none is written. The slices are what C lends.
pub fn list(
    kinds: &[u8],
    tasks: &[u16],
    operands: &[u16],
    ws: &mut [u16],
    earlier: &mut [u16],
    later: &mut [u16],
) -> Result<usize, Refusal>
    ensures outcome { pairs_gives result earlier.new later.new ws.new
        ≡ pairs_outcome kinds.now tasks.now operands.now ws.old
        (slices earlier.old later.old) }
    ensures demand1 { PairsDemand1 kinds.now tasks.now operands.now ws.old
        (slices earlier.old later.old) (reply result)
        (slices earlier.new later.new) ws.new }
    ensures pairs { PairsCallDemand kinds.now tasks.now operands.now ws.old
        (slices earlier.old later.old) (reply result)
        (slices earlier.new later.new) }
{
    sizes::check_sizes(kinds, tasks, operands, ws)?;
    let trace = Trace {
        kinds,
        tasks,
        operands,
    };
    let listed = gather(trace, ws, earlier, later);
    cells::clear(ws, WORKSPACE_CELLS + kinds.len());
    listed
}
