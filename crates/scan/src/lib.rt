// The race test by numbers alone. Each event has the number of its segment, and of two accesses that conflict the later one races with the earlier exactly if
// its number is smaller. So the largest number of those that an access conflicts with decides. Two of these for each location serve all kinds: what conflicts
// with a write conflicts with a read or with a sum.
#![tactic(auto)]

ghost use Rattle.std.specs.Prelude.{◌≡◌, true, ◌≢◌, ◌≤◌, ◌<◌, IfSome, unwrap_or};
ghost use Rattle.trace.specs.Trace.{SUM, is_access};
ghost use Rattle.trace.specs.Race.{conflicting};
ghost use Rattle.cells.specs.Cells.{SameFrom};
ghost use Rattle.ranks.specs.States.{own_number};
ghost use Rattle.scan.specs.Numbered.{Numbered, FirstRace};
ghost use Rattle.scan.specs.Tables.{FOR_SUMS, TABLES, Tables, first_held, second_held, Testable, Keepable, Calm, stored_in, TestSays};
ghost use Rattle.scan.specs.Tables.{raised_in, RaceSays};

use trace::{FORK, READ, SUM, Trace, WRITE};

// For each location the largest number of an earlier write or sum, which a read is held against, and of an earlier read or write, which a sum is held against;
// 0 where there is none. A write is held against both.
const FOR_READS: usize = 0;

const FOR_SUMS: usize = 1024;

// The cells of both.
const TABLES: usize = 2048;

// kinds::is_conflict, with the first kind named in each case: so its entry of the table is looked up where this is compiled. Looked up in the loop it would
// cost a quarter of the judge's time.
#[tactic(auto, unfolding(trace::specs::Trace::is_access))]
fn is_conflict(kind: u8, other: u8) -> bool
    requires kind_value { is_access kind ≡ true }
    requires other_value { is_access other ≡ true }
    ensures { result ≡ conflicting kind other }
{
    match kind {
        READ => kinds::is_conflict(READ, other),
        WRITE => kinds::is_conflict(WRITE, other),
        _ => kinds::is_conflict(SUM, other),
    }
}

// The two tables that an access is held against: FOR_SUMS, where the reads are, if it conflicts with a read, and FOR_READS, where the sums are, if it conflicts
// with a sum. What conflicts with either conflicts with writes, which are in both. A read and a sum have one table twice, since no processor can predict the
// kind. The two that an access is kept in are found from the other end. One function for both would be told the other kind and the two tables: no plainer.
#[tactic(auto, unfolding(trace::specs::Trace::is_access))]
fn first_held(kind: u8) -> usize
    requires { is_access kind ≡ true }
    ensures { (result ≡ first_held kind) × (result ≤ FOR_SUMS) }
{
    if is_conflict(kind, READ) {
        return FOR_SUMS;
    }
    FOR_READS
}

#[tactic(auto, unfolding(trace::specs::Trace::is_access))]
fn second_held(kind: u8) -> usize
    requires { is_access kind ≡ true }
    ensures { (result ≡ second_held kind) × (result ≤ FOR_SUMS) }
{
    if is_conflict(kind, SUM) {
        return FOR_READS;
    }
    FOR_SUMS
}

// first_held of a read, which is kind 0, or of a write, kind 1. A product costs less than a choice.
#[tactic(auto, using(crate::proofs::Largest::quick_is, crate::proofs::Largest::quick_order), unfolding(trace::specs::Trace::is_access))]
fn quick_held(kind: u8) -> usize
    requires kind_value { is_access kind ≡ true }
    requires kind_nonzero { kind ≢ SUM }
    ensures { (result ≡ first_held kind) × (result ≤ FOR_SUMS) }
{
    let of_read = first_held(READ);
    let of_write = first_held(WRITE);
    of_read + (of_write - of_read) * kind as usize
}

// An access with number x that passed is one of those that later ones are held against: in two tables, or twice in one, which costs less than a branch.
#[tactic(auto, unfolding(crate::specs::Tables::stored_in))]
fn keep(ws: &mut [u16], first: usize, second: usize, location: u16, x: u16)
    requires { Keepable ws.old first second location }
    ensures { ws.new ≡ stored_in ws.old first second location x }
{
    let largest = x.max(cells::cell(ws, first, location));
    cells::put(ws, first, location, largest);
    cells::put(ws, second, location, largest);
}

// Whether an access with number x passes: no earlier one that it conflicts with has a larger number. If so, it is kept.
fn passes(ws: &mut [u16], kind: u8, location: u16, x: u16) -> bool
    requires { Testable ws.old kind location }
    ensures { TestSays ws.old ws.new kind location x result }
{
    let first = first_held(kind);
    let second = second_held(kind);
    let largest = cells::cell(ws, first, location).max(cells::cell(ws, second, location));
    if x < largest {
        return false;
    }
    keep(ws, FOR_SUMS - second, FOR_SUMS - first, location, x);
    true
}

// The same of a read or a write where no sum has been kept: its first table tells. To ask that one alone is what makes it quick.
fn quick_passes(ws: &mut [u16], kind: u8, location: u16, x: u16) -> bool
    requires testable { Testable ws.old kind location × (kind ≢ SUM) }
    requires calm { Calm ws.old }
    ensures { TestSays ws.old ws.new kind location x result }
{
    let table = quick_held(kind);
    if x < cells::cell(ws, table, location) {
        return false;
    }
    keep(ws, FOR_SUMS, FOR_SUMS - table, location, x);
    true
}

// It stores once, where `keep` stores one number twice.
#[tactic(auto, unfolding(crate::specs::Tables::raised_in))]
fn raise(ws: &mut [u16], table: usize, location: u16, x: u16)
    requires { Keepable ws.old table table location }
    ensures { ws.new ≡ raised_in ws.old table location x }
{
    let largest = x.max(cells::cell(ws, table, location));
    cells::put(ws, table, location, largest);
}

// Whether an access with number x races with an earlier one. It is kept either way: where it races, x need not be the largest in either of its tables.
pub fn races(ws: &mut [u16], kind: u8, location: u16, x: u16) -> bool
    requires { Testable ws.old kind location }
    ensures { RaceSays ws.old ws.new kind location x result }
{
    if passes(ws, kind, location, x) {
        return false;
    }
    raise(ws, FOR_SUMS - second_held(kind), location, x);
    raise(ws, FOR_SUMS - first_held(kind), location, x);
    true
}

// The position of the first access that races with an earlier one. Events before `from` have number 0: none of them races with an earlier one, and none has
// the larger number. Kinds below `quick` have one table to ask: reads and writes, up to the first sum.
pub fn first_race(trace: Trace, ws: &mut [u16], from: usize, events: usize) -> Option<usize>
    requires { Numbered trace.kinds.now trace.operands.now ws.old from events }
    ensures inside { IfSome result (λ t. t < events) }
    ensures first_race { FirstRace trace.entry.kinds.now trace.entry.operands.now (own_number trace.entry.kinds.now ws.old) events (unwrap_or result events) }
    ensures same_from { SameFrom TABLES ws.old ws.new }
    ensures tables { Tables trace.entry.kinds.now trace.entry.operands.now (own_number trace.entry.kinds.now ws.old) (unwrap_or result events) ws.new }
{
    cells::clear(ws, TABLES);
    let kinds = trace.kinds;
    let operands = trace.operands;
    let mut current: u16 = 0;
    let mut number: u16 = 0;
    let mut quick = FORK;
    let mut t = from;
    // No `for`: it costs the judge 8 to 19 % of its time.
    while t < events {
        let kind = kinds[t];
        if kind < quick {
            if !quick_passes(ws, kind, operands[t], number) {
                return Some(t);
            }
        } else if kinds::is_move(kind) {
            current += 1;
            number = ranks::open_number(ws, current);
        } else {
            if !passes(ws, kind, operands[t], number) {
                return Some(t);
            }
            quick = 0;
        }
        t += 1;
    }
    None
}
