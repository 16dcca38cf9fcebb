// What must come of a text in slices of some lengths.
use crate::rows::Row;
use crate::slow_reader::Reading;
use crate::slow_trace::SlowTrace;
use crate::wrong::Wrong;
use trace::Refusal;

// The number of events, or why the text is turned back.
pub type Answer = Result<usize, Refusal>;

// Three numbers of cells, one for each slice. As a room: how many more than needed, counted from 1; 0 is one too few.
#[derive(Clone, Copy)]
pub struct Cells {
    pub kinds: usize,
    pub tasks: usize,
    pub operands: usize,
}

impl Cells {
    pub fn new(kinds: usize, tasks: usize, operands: usize) -> Cells {
        Cells {
            kinds,
            tasks,
            operands,
        }
    }

    pub fn most(self) -> usize {
        self.kinds.max(self.tasks).max(self.operands)
    }
}

// No more cells than the arrays of the calls have.
const MOST_CELLS: usize = 32790;

fn lent_of(events: usize, room: usize) -> usize {
    events
        .saturating_add(room)
        .saturating_sub(1)
        .min(MOST_CELLS)
}

// "P forks a task for G1, goes on with G2, then joins": a fork, a halt and a join for each P.
pub fn events_of(reading: Reading) -> usize {
    reading.leaves.wrapping_add(reading.forks.wrapping_mul(3))
}

// The cells that are lent for so many events: none where there is no room.
pub fn lent(events: usize, room: Option<Cells>) -> Cells {
    let Some(room) = room else {
        return Cells::new(0, 0, 0);
    };
    Cells::new(
        lent_of(events, room.kinds),
        lent_of(events, room.tasks),
        lent_of(events, room.operands),
    )
}

// A limit that is missed by one where a plant says so.
fn limit(most: usize, plant: Option<Wrong>, wrong: Wrong) -> usize {
    if plant == Some(wrong) {
        most.wrapping_add(1)
    } else {
        most
    }
}

// "19, a lent slice is too short or the plan needs over 1,024 tasks or over 32,768 events": task 0 is one of them.
fn too_large(events: usize, forks: usize, lent: Cells, plant: Option<Wrong>) -> bool {
    limit(1024, plant, Wrong::Tasks) <= forks
        || limit(32768, plant, Wrong::Events) < events
        || limit(lent.kinds, plant, Wrong::KindsShort) < events
        || limit(lent.tasks, plant, Wrong::TasksShort) < events
        || limit(lent.operands, plant, Wrong::OperandsShort) < events
}

// "The position is the byte's; for 19 it is 0."
fn refused(refusal: Refusal, plant: Option<Wrong>) -> Answer {
    Err(Refusal {
        number: refusal.number,
        position: limit(refusal.position, plant, Wrong::Position),
    })
}

// What must come of a text that was read so. The trace of a plan that is accepted is laid out.
pub fn wanted(
    text: &[u8],
    reading: Reading,
    lent: Cells,
    trace: &mut SlowTrace,
    plant: Option<Wrong>,
) -> Answer {
    let large = too_large(events_of(reading), reading.forks, lent, plant);
    let early = large && plant == Some(Wrong::Early);
    match reading.refused {
        Some(refusal) if !early => refused(refusal, plant),
        _ if large => refused(Row::LargePlan.at(0), plant),
        _ => Ok(limit(trace.lay(text, plant), plant, Wrong::Count)),
    }
}
