// The line rules over a whole trace, and for each event that keeps them a number: of two events the earlier reaches the later exactly if its number is no
// larger. The numbers are the places of the segments in their second order (crate `segments`), which is kept as a linked list while the rules run.
#![tactic(auto)]

ghost use Rattle.std.specs.Prelude.{◌≡◌, true, false, cond, ◌+◌, ◌≤◌, ◌<◌, suc, length, get_or};
ghost use Rattle.trace.specs.Trace.{is_kind, is_access, WORKSPACE_CELLS};
ghost use Rattle.trace.specs.Held.{held_trace};
ghost use Rattle.trace.proofs.Sizes.{SizedTrace};
ghost use Rattle.segments.specs.Segments.{moves};
ghost use Rattle.segments.proofs.SegmentCells.{link_in, rank_in};
ghost use Rattle.cells.specs.Cells.{NUMBER};
ghost use Rattle.line.specs.Rules.{rule_of};
ghost use Rattle.line.specs.Steps.{after_in, Movable};
ghost use Rattle.ranks.specs.Lists.{NEXT, SEGMENTS, source_in, own_in, Readable, pushed_in, opened_in, Openable, Listed};
ghost use Rattle.stops.specs.Stops.{StopsIn};
ghost use Rattle.ranks.specs.States.{SomeStops, Leading, Begun, ListSays};
ghost use Rattle.ranks.specs.States.{Named, kinds_only, own_number, Spread, SegmentsIn, RankSays};

use line::Line;
use trace::{FORK, HALT, JOIN, Row, Trace};

// The segments that ended in the fork of a paused task, the latest last.
const FORKS: usize = 4096;

// The segments that ended in the halt of a task that is not joined yet, the latest last.
const HALTS: usize = 5120;

// For each segment, in three tables, the one that stands next in the second order, 0 at the end; then its place.
const NEXT: usize = 9216;

// At most so many segments, one more than there can be.
const SEGMENTS: u16 = 3072;

// How many events the graph has, and the row that the next one meets, if one does.
#[derive(Clone, Copy)]
pub struct Kept {
    pub events: usize,
    pub broken: Option<Row>,
}

// The same; how many of these events, at the start, are accesses before any move, so that their number is 0; and how many stops the trace has.
#[derive(Clone, Copy)]
pub struct Ranked {
    pub events: usize,
    pub broken: Option<Row>,
    pub leading: usize,
    pub stops: usize,
}

// Segment x right after segment m.
fn link(ws: &mut [u16], m: u16, x: u16)
    requires { (NEXT + m < length ws.old) × (NEXT + x < length ws.old) }
    ensures { ws.new ≡ link_in NEXT m x ws.old }
{
    let after = cells::cell(ws, NEXT, m);
    cells::put(ws, NEXT, x, after);
    cells::put(ws, NEXT, m, x);
}

// The open segment after an event of this kind. It is computed, since no processor can predict where the moves are.
fn open_after(kind: u8, current: u16) -> u16
    requires { (current < SEGMENTS) × (is_kind kind ≡ true) }
    ensures { result ≡ cond (is_access kind) current (suc current) }
{
    current + kinds::is_move(kind) as u16
}

// The segment of an event of this kind.
fn own_segment(kind: u8, current: u16) -> u16
    requires { current < SEGMENTS }
    ensures { result ≡ own_in kind current }
{
    if kind != JOIN {
        return current;
    }
    current + 1
}

// The line before an event, and the segment that is open then.
#[derive(Clone, Copy)]
struct Front {
    line: Line,
    segment: u16,
}

impl Front {
    // The starting line, and a list of segment 0 alone.
    fn start(ws: &mut [u16]) -> Self
        requires { WORKSPACE_CELLS ≤ length ws.old }
        ensures begun { Begun ws.old ws.new result.line }
        ensures first { result.segment ≡ 0 }
    {
        let line = Line::start(ws);
        cells::put(ws, NEXT, 0, 0);
        Front { line, segment: 0 }
    }

    // The segment that a move puts the next one after.
    fn source(self, ws: &[u16], kind: u8) -> u16
        requires { Readable ws.now self.line kind }
        ensures { result ≡ source_in ws.now self.line kind self.segment }
    {
        if kind == JOIN {
            return ws[HALTS + self.line.left - 1];
        }
        if kind != HALT {
            return self.segment;
        }
        if 1 < self.line.active {
            return ws[FORKS + self.line.active - 2];
        }
        self.segment
    }

    // The open segment on the stack of its kind: a fork's or a halt's.
    fn push(self, ws: &mut [u16], kind: u8)
        requires { Readable ws.old self.line kind }
        ensures { ws.new ≡ pushed_in ws.old self.line kind self.segment }
    {
        if kind == FORK {
            ws[FORKS + self.line.active - 1] = self.segment;
            return;
        }
        if kind == HALT {
            ws[HALTS + self.line.left] = self.segment;
        }
    }

    // A move ends the open segment and opens the next.
    fn open_next(self, ws: &mut [u16], kind: u8)
        requires { Openable ws.old self.line kind self.segment }
        ensures { ws.new ≡ opened_in ws.old self.line kind self.segment }
    {
        let m = self.source(ws, kind);
        self.push(ws, kind);
        link(ws, m, self.segment + 1);
    }

    // The front after an event of this kind that met no row. A move ends the open segment, and the next one is put in the list.
    fn after(self, ws: &mut [u16], kind: u8) -> Self
        requires movable { Movable self.line kind }
        requires named { (self.segment < SEGMENTS) × (is_kind kind ≡ true) }
        requires openable { is_access kind ≡ false → Openable ws.old self.line kind self.segment }
        ensures cells_after { ws.new ≡ cond (is_access kind) ws.old (opened_in ws.old self.line kind self.segment) }
        ensures front_after { result ≡ record {
          line = after_in self.line (rule_of kind);
          segment = cond (is_access kind) self.segment (suc self.segment);
        } }
    {
        if kinds::is_move(kind) {
            self.open_next(ws, kind);
        }
        Front {
            line: self.line.after(kind),
            segment: open_after(kind, self.segment),
        }
    }
}

// The stops in position order, up to the first event that breaks a rule. The events between them are accesses that keep the rules where the stops do.
// `Line::admit` is called in the loop itself: by way of a method that hands its answer on, the compiled loop tests that twice at each stop, and the ordering
// call takes up to a twentieth longer.
fn list_segments(trace: Trace, ws: &mut [u16], count: usize) -> Kept
    requires sized { SizedTrace trace ws.old }
    requires stops_in { StopsIn (held_trace trace) (length trace.kinds.now) ws.old count }
    ensures { ListSays (held_trace trace.entry) (length trace.entry.kinds.now)
        ws.old ws.new result.events result.broken }
{
    let mut front = Front::start(ws);
    for k in 0..count {
        let i = stops::position(ws, k);
        let event = trace.event(i);
        if let Err(row) = front.line.admit(ws, event) {
            return Kept {
                events: i,
                broken: Some(row),
            };
        }
        front = front.after(ws, event.kind);
    }
    Kept {
        events: trace.kinds.len(),
        broken: None,
    }
}

// Each segment's place over its link.
fn number(ws: &mut [u16])
    requires { Listed ws.old }
    ensures { ws.new ≡ rank_in NEXT SEGMENTS 0 0 ws.old }
{
    let mut place: u16 = 0;
    let mut next = cells::cell(ws, NEXT, 0);
    cells::put(ws, NEXT, 0, 0);
    while next != 0 {
        let at = next;
        place += 1;
        next = cells::cell(ws, NEXT, at);
        cells::put(ws, NEXT, at, place);
    }
}

// The segment that is open before event p: as many moves as come before it. The loop only counts, so that the compiler takes many events at a time.
fn open_before(kinds: &[u8], p: usize) -> u16
    requires { (p ≤ length kinds.now) × Named kinds.now p × (moves (kinds_only kinds.now) p < SEGMENTS) }
    ensures { result ≡ moves (kinds_only kinds.now) p }
{
    let mut current: u16 = 0;
    for kind in &kinds[..p] {
        current = open_after(*kind, current);
    }
    current
}

// The number of event p: its segment's.
pub fn number_of(kinds: &[u8], ws: &[u16], p: usize) -> u16
    requires { SegmentsIn kinds.now (suc p) ws.now }
    ensures { result ≡ own_number kinds.now ws.now p }
{
    let current = open_before(kinds, p);
    cells::cell(ws, NEXT, own_segment(kinds[p], current))
}

// Each event's number in its own cell.
pub fn spread(kinds: &[u8], ws: &mut [u16], events: usize)
    requires segments_in { SegmentsIn kinds.now events ws.old }
    requires events_in_bounds { WORKSPACE_CELLS + events ≤ length ws.old }
    ensures { Spread kinds.now events ws.old ws.new }
{
    let mut current: u16 = 0;
    for p in 0..events {
        let own = own_segment(kinds[p], current);
        ws[cells::NUMBER + p] = cells::cell(ws, NEXT, own);
        current = open_after(kinds[p], current);
    }
}

// So many events at the start are accesses: those before the second stop, where event 0 is one. At most `events`.
fn leading(kinds: &[u8], ws: &[u16], count: usize, events: usize) -> usize
    requires some_stops { SomeStops kinds.now ws.now count }
    requires events_in_bounds { (events ≤ length kinds.now) × (NUMBER + length kinds.now ≤ length ws.now) }
    ensures { (result ≤ events) × Leading kinds.now result }
{
    if events == 0 {
        return 0;
    }
    if !kinds::is_access(kinds[0]) {
        return 0;
    }
    if count < 2 {
        return events;
    }
    let second = stops::position(ws, 1);
    if events < second {
        return events;
    }
    second
}

// The number of the open segment: of the next event, where it is an access.
pub fn open_number(ws: &[u16], current: u16) -> u16
    requires { (current < SEGMENTS) × (WORKSPACE_CELLS ≤ length ws.now) }
    ensures { result ≡ get_or ws.now (NEXT + current) 0 }
{
    cells::cell(ws, NEXT, current)
}

// The rules over the whole trace, and the number of each segment: its place in the second order. The list of the stops stands.
pub fn rank(trace: Trace, ws: &mut [u16]) -> Ranked
    requires { SizedTrace trace ws.old }
    ensures rank_says { RankSays trace.entry.kinds.now (held_trace trace.entry) (length trace.entry.kinds.now)
        ws.old ws.new result.events result.broken }
    ensures leading_le_events { (result.leading ≤ result.events) × Leading trace.entry.kinds.now result.leading }
    ensures stops_in { StopsIn (held_trace trace.entry) (length trace.entry.kinds.now) ws.new result.stops }
{
    let stops = stops::collect(trace, ws);
    let kept = list_segments(trace, ws, stops);
    let leading = leading(trace.kinds, ws, stops, kept.events);
    number(ws);
    Ranked {
        events: kept.events,
        broken: kept.broken,
        leading,
        stops,
    }
}
