// What a race at t leaves: its partner s, and two orders of the events up to t that differ only in the places of s and t. The events' numbers tell all
// paths: of two events the earlier reaches the later exactly if its number is no larger.
// The two buffers for them are no struct: each is stored to and copied from by itself.
#![tactic(auto)]

ghost use Rattle.std.specs.Prelude.{◌≡◌, true, ◌+◌, ◌-◌, ◌≤◌, ◌<◌, length, get_or, take};
ghost use Rattle.std.proofs.lemmas.List.Edits.{sets};
ghost use Rattle.trace.specs.Trace.{is_access, MAX_EVENTS};
ghost use Rattle.trace.specs.Orders.{chosen};
ghost use Rattle.cells.specs.Cells.{NUMBER};
ghost use Rattle.report.specs.Reports.{reach_in, kinds_conflict, partner_in, Partnered, FirstPartner};
ghost use Rattle.report.specs.Reports.{not_reach_in, of_d, others, order_in, Parted, Arranged, ReportedIn};

use trace::Trace;

// Whether an event of this kind is an access and conflicts with one of the kind `other`, where both have one location.
fn conflicts(kind: u8, other: u8) -> bool
    requires { is_access other ≡ true }
    ensures { result ≡ kinds_conflict kind other }
{
    if !kinds::is_access(kind) {
        return false;
    }
    kinds::is_conflict(kind, other)
}

// Whether event p, by its number, reaches the later event e.
fn reaches(ws: &[u16], p: usize, e: usize) -> bool
    requires { (NUMBER + p < length ws.now) × (NUMBER + e < length ws.now) }
    ensures { result ≡ reach_in ws.now e p }
{
    cells::number(ws, p) <= cells::number(ws, e)
}

// Whether event p conflicts with the access t and does not reach it. Most events have another location, so that is asked first.
fn is_partner(trace: Trace, ws: &[u16], p: usize, t: usize) -> bool
    requires p_lt_t { (p < t) × (t < length trace.kinds.now) × (t < length trace.operands.now) × (NUMBER + t < length ws.now) }
    requires t_value { is_access (get_or trace.kinds.now t 0) ≡ true }
    ensures { result ≡ partner_in trace.entry.kinds.now trace.entry.operands.now ws.now t p }
{
    if trace.operands[p] != trace.operands[t] {
        return false;
    }
    if !conflicts(trace.kinds[p], trace.kinds[t]) {
        return false;
    }
    !reaches(ws, p, t)
}

// The first event before t that conflicts with t and does not reach it.
fn partner(trace: Trace, ws: &[u16], t: usize) -> usize
    requires t_in_bounds { (t < length trace.kinds.now) × (t < length trace.operands.now) × (NUMBER + t < length ws.now) }
    requires partnered { Partnered trace.kinds.now trace.operands.now ws.now t }
    ensures { FirstPartner trace.entry.kinds.now trace.entry.operands.now ws.now t result }
{
    for s in 0..t {
        if is_partner(trace, ws, s, t) {
            return s;
        }
    }
    t
}

// Parts the events from `from` up to e: those that reach e go to `first` from cell `low` on, the others to `second` from cell `high` on. Says where the
// former end.
fn partition_range(
    ws: &[u16],
    first: &mut [u16],
    second: &mut [u16],
    from: usize,
    e: usize,
    low: usize,
    high: usize,
) -> usize
    requires from_le_e { (from ≤ e) × (NUMBER + e < length ws.now) × (e < MAX_EVENTS) }
    requires from_in_bounds { (low + (e - from) ≤ length first.old) × (high + (e - from) ≤ length second.old) }
    ensures { Parted first.old second.old first.new second.new low high (e - from)
        (chosen (reach_in ws.now e) from e) (chosen (not_reach_in ws.now e) from e) result }
{
    let mut i = low;
    let mut j = high;
    for p in from..e {
        if reaches(ws, p, e) {
            first[i] = p as u16;
            i += 1;
        } else {
            second[j] = p as u16;
            j += 1;
        }
    }
    i
}

// Parts the events before t but s: those of D go to `first`, the others to `second`. Says how many are of D.
fn partition(ws: &[u16], first: &mut [u16], second: &mut [u16], s: usize, t: usize) -> usize
    requires s_lt_t { (s < t) × (NUMBER + t < length ws.now) × (t < MAX_EVENTS) }
    requires t_in_bounds { (t < length first.old) × (t < length second.old) }
    ensures { Parted first.old second.old first.new second.new 0 0 (t - 1)
        (of_d ws.now s t) (others ws.now s t) result }
{
    let at = partition_range(ws, first, second, 0, s, 0, 0);
    partition_range(ws, first, second, s + 1, t, at, s - at)
}

// Copies the first n cells to the cells from `at` on. A loop: where the length is no constant, `copy_from_slice` is a call of memcpy, which the archive for C
// would then need.
fn copy(from: &[u16], to: &mut [u16], at: usize, n: usize)
    requires { (n ≤ length from.now) × (at + n ≤ length to.old) }
    ensures { to.new ≡ sets to.old at (take n from.now) }
{
    for i in 0..n {
        to[at + i] = from[i];
    }
}

// The first order: D, then s and t, then the others. These come by way of `second`. Says where s is.
fn arrange(ws: &[u16], first: &mut [u16], second: &mut [u16], s: usize, t: usize) -> usize
    requires s_lt_t { (s < t) × (NUMBER + t < length ws.now) × (t < MAX_EVENTS) }
    requires t_in_bounds { (t < length first.old) × (t < length second.old) }
    ensures { Arranged ws.now first.old second.old first.new second.new s t result }
{
    let at = partition(ws, first, second, s, t);
    first[at] = s as u16;
    first[at + 1] = t as u16;
    copy(second, first, at + 2, t - 1 - at);
    at
}

// Both orders: in the second s and t are the other way round.
fn orders(ws: &[u16], first: &mut [u16], second: &mut [u16], s: usize, t: usize)
    requires s_lt_t { (s < t) × (NUMBER + t < length ws.now) × (t < MAX_EVENTS) }
    requires t_in_bounds { (t < length first.old) × (t < length second.old) }
    ensures first_after { first.new ≡ order_in ws.now s t s t first.old }
    ensures second_after { second.new ≡ order_in ws.now s t t s second.old }
{
    let at = arrange(ws, first, second, s, t);
    copy(first, second, 0, t + 1);
    second[at] = t as u16;
    second[at + 1] = s as u16;
}

// The partner of t. Both orders are written.
pub fn report(trace: Trace, ws: &[u16], first: &mut [u16], second: &mut [u16], t: usize) -> usize
    requires t_in_bounds { (t < length trace.kinds.now) × (t < length trace.operands.now) × (NUMBER + t < length ws.now) × (t < MAX_EVENTS) }
    requires t_in_bounds_2 { (t < length first.old) × (t < length second.old) }
    requires partnered { Partnered trace.kinds.now trace.operands.now ws.now t }
    ensures { ReportedIn trace.entry.kinds.now trace.entry.operands.now ws.now
        first.old first.new second.old second.new result t }
{
    let s = partner(trace, ws, t);
    orders(ws, first, second, s, t);
    s
}
