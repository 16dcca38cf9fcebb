// What the code of all crates shares: the kinds and the limits of document 01, and what the calls answer. The definitions in `specs/` say which answer is
// right; the crates above give it.

#![tactic(auto)]

ghost use Rattle.std.specs.Prelude.{◌≡◌};
ghost use Rattle.trace.specs.Held.{HasEvent, event_at};
ghost use Rattle.trace.specs.Rows.{row_number, refusal_at, RefusedAtStart};

// "Kinds are 0 read, 1 write, 2 fork, 3 join, 4 halt." Document 02, K3: "Kind 5 becomes a sum". They are bytes and no enum: C lends any byte.
pub const READ: u8 = 0;

pub const WRITE: u8 = 1;

pub const FORK: u8 = 2;

pub const JOIN: u8 = 3;

pub const HALT: u8 = 4;

pub const SUM: u8 = 5;

// "a location, 0 to 1,023"
pub const LOCATIONS: u16 = 1024;

// "a task, 0 to 1,023"
pub const TASKS: u16 = 1024;

// "At most 32,768 events."
pub const MAX_EVENTS: usize = 32768;

#[derive(Clone, Copy, PartialEq, Eq)]
pub struct Event {
    pub kind: u8,
    pub task: u16,
    pub operand: u16,
}

// "A trace is three lent slices": "Entry p of each makes event p". That they are of one length is for the size checks to find.
// Entry points take the slices side by side, as C lends them.
#[derive(Clone, Copy)]
pub struct Trace<'a> {
    pub kinds: &'a [u8],
    pub tasks: &'a [u16],
    pub operands: &'a [u16],
}

impl<'a> Trace<'a> {
    pub fn event(self, p: usize) -> Event
        requires { HasEvent self p }
        ensures { result ≡ event_at self.entry p }
    {
        Event {
            kind: self.kinds[p],
            task: self.tasks[p],
            operand: self.operands[p],
        }
    }
}

// Why a trace, a text or a plan is turned back: the rows of document 01's table and of document 02's requests.
#[derive(Clone, Copy, PartialEq, Eq)]
pub enum Row {
    UnequalSlices = 1,
    ManyEvents,
    ShortWorkspace,
    ShortOrders,
    UnknownKind,
    Ended,
    NotRunning,
    UnknownLocation,
    UnknownTask,
    UsedTask,
    NotLeft,
    NotResumed,
    UnknownPosition,
    NoLine,
    LongText,
    FewRecords,
    NoPlan,
    DeepPlan,
    LargePlan,
    ShortList,
}

impl Row {
    pub fn number(self) -> usize
        ensures { result ≡ row_number self }
    {
        self as usize
    }

    // This row, met at a position.
    pub fn at(self, position: usize) -> Refusal
        ensures { result ≡ refusal_at self position }
    {
        Refusal {
            number: self.number(),
            position,
        }
    }
}

// A row's number, with the position that belongs to it.
#[derive(Clone, Copy, PartialEq, Eq)]
pub struct Refusal {
    pub number: usize,
    pub position: usize,
}

// "A refusal tied to no event, line or byte has position 0."
impl From<Row> for Refusal {
    ghost from_gives = { RefusedAtStart };

    fn from(row: Row) -> Refusal {
        row.at(0)
    }
}

// What the judge says of a whole trace that it does not turn back. The links are the largest number of them between a task and its top in the table of joins.
#[derive(Clone, Copy, PartialEq, Eq)]
pub enum Verdict {
    Clean { links: usize },
    // The positions of the pair.
    Race { s: usize, t: usize, links: usize },
}
