// A card for each location, after a clean verdict: how often it was read, written and added to, and by which events first and last. The judge clears its workspace, so the
// cards are counted in its tables by a second pass; a pass during the judgement would not do, since every other answer leaves the lent records as they were.
// `capi` takes the records themselves. All branches are here, where the number of records stands for them.
#![tactic(auto)]

ghost use Rattle.std.specs.Prelude.{◌≡◌, ◌↔◌, true, ◌+◌, ◌<◌, ◌≤◌, length};
ghost use Rattle.trace.specs.Trace.{is_access, LOCATIONS, MAX_EVENTS};
ghost use Rattle.trace.specs.Line.{fails};
ghost use Rattle.told.specs.Codes.{judge_seen};
ghost use Rattle.cards.specs.Cards.{card_sizes, judged_with};
ghost use Rattle.cards.specs.Tally.{counts_of, TALLY_CELLS, earlier, touched_in, Touchable, Tallied, untasked, Tallyable, Counted};
ghost use Rattle.cards.specs.Tally.{position_in, card_in, due_after, Tables, wiped};

use trace::{Row, Trace};

// What is known of one location: a record in C's memory.
#[repr(C)]
#[derive(Clone, Copy)]
pub struct Card {
    pub reads: u16,
    pub writes: u16,
    pub sums: u16,
    pub first: u16,
    pub last: u16,
}

const LOCATIONS: usize = trace::LOCATIONS as usize;

// For each location one more than the first position that touched it, and than the last; 0 where there is none, since the cells are 16 bits that C lends.
const FIRST: usize = 0;

const LAST: usize = 1024;

// Behind them a table for each kind of access, with the number of those.
const READS: usize = 2048;

const WRITES: usize = 3072;

const SUMS: usize = 4096;

// The cells of all tables.
const TALLY_CELLS: usize = 5120;

// "65,535 for both where none did"
const NOWHERE: u16 = 65535;

// ---- the tally

// The table that an access is counted in.
#[tactic(auto, using(kinds::proofs::ByNumber::index_few))]
fn counts_of(kind: u8) -> usize
    requires { is_access kind ≡ true }
    ensures { (result ≡ counts_of kind) × (result + LOCATIONS ≤ TALLY_CELLS) }
{
    READS + LOCATIONS * kinds::index_of(kind)
}

// The cell of the first position after an access at `at`.
#[tactic(auto, unfolding(crate::specs::Tally::earlier))]
fn earlier(old: u16, at: u16) -> u16
    requires { at < MAX_EVENTS }
    ensures { result ≡ earlier old at }
{
    if old == 0 { at + 1 } else { old }
}

// Event `at` is an access of this kind to the location l.
fn touch(ws: &mut [u16], kind: u8, l: u16, at: u16)
    requires { Touchable ws.old kind l at }
    ensures { ws.new ≡ touched_in ws.old kind l at }
{
    let counts = counts_of(kind);
    cells::put(ws, counts, l, cells::cell(ws, counts, l) + 1);
    cells::put(ws, FIRST, l, earlier(cells::cell(ws, FIRST, l), at));
    cells::put(ws, LAST, l, at + 1);
}

// All events.
fn tally(kinds: &[u8], operands: &[u16], ws: &mut [u16])
    requires { Tallyable kinds.now operands.now ws.old }
    ensures { Tallied (untasked kinds.now operands.now) (length kinds.now) ws.old ws.new }
{
    for (i, kind) in kinds.iter().enumerate() {
        if kinds::is_access(*kind) {
            touch(ws, *kind, operands[i], i as u16);
        }
    }
}

// ---- the judge

// Whether row 16 is met: "a size check tested after 4".
fn has_few(trace: Trace, ws: &[u16], first: &[u16], second: &[u16], records: usize) -> bool
    ensures { (result ≡ true) ↔ (card_sizes trace.entry.kinds.now trace.entry.tasks.now trace.entry.operands.now
        ws.now first.now second.now records ≡ fails 16) }
{
    records < LOCATIONS
        && sizes::check_buffers(trace.kinds, trace.tasks, trace.operands, ws, first, second).is_ok()
}

// The judge for a caller who lends so many records: the code and the values that C is told. After clean the tables hold the cards.
pub fn judge_counted(
    kinds: &[u8],
    tasks: &[u16],
    operands: &[u16],
    ws: &mut [u16],
    first: &mut [u16],
    second: &mut [u16],
    records: usize,
    values: &mut [u64; 3],
) -> u64
    ensures { Counted kinds.now tasks.now operands.now records
        (judged_with kinds.now tasks.now operands.now ws.old first.old second.old records)
        (judge_seen result values.new ws.new first.new second.new) }
{
    let trace = Trace {
        kinds,
        tasks,
        operands,
    };
    if has_few(trace, ws, first, second, records) {
        *values = [Row::FewRecords.number() as u64, 0, 0];
        return told::REFUSED;
    }
    let code = told::judge(kinds, tasks, operands, ws, first, second, values);
    if code == told::CLEAN {
        tally(kinds, operands, ws);
    }
    code
}

// ---- the cards

// How many cards are due after a code, which is what C is told.
#[tactic(auto, unfolding(crate::specs::Tally::due_after))]
pub fn due(code: u64) -> usize
    ensures { result ≡ due_after code }
{
    if code == told::CLEAN { LOCATIONS } else { 0 }
}

// A position off its cell.
#[tactic(auto, unfolding(crate::specs::Tally::position_in))]
fn position_in(cell: u16) -> u16
    ensures { result ≡ position_in cell }
{
    cell.checked_sub(1).unwrap_or(NOWHERE)
}

// The card of a location, off the tables.
pub fn card_of(ws: &[u16], l: usize) -> Card
    requires { (l < LOCATIONS) × (TALLY_CELLS ≤ length ws.now) }
    ensures { result ≡ card_in ws.now l }
{
    Card {
        reads: ws[READS + l],
        writes: ws[WRITES + l],
        sums: ws[SUMS + l],
        first: position_in(ws[FIRST + l]),
        last: position_in(ws[LAST + l]),
    }
}

// Clears the tables where cards were due.
pub fn wipe(ws: &mut [u16], k: usize)
    requires { Tables ws.old k }
    ensures { ws.new ≡ wiped k ws.old }
{
    if k != 0 {
        cells::clear(ws, TALLY_CELLS);
    }
}
