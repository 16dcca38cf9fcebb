// The calls of the judge and of the ordering call that the test program makes, and what must come of each. Nothing here calls the fast judge.
#![tactic(auto)]

pub mod buffers;
pub mod chains;
pub mod conflicts;
pub mod drawn;
pub mod known;
pub mod large;
pub mod lengths;
pub mod lines;
pub mod plants;
pub mod sums;
pub mod table;

use test_slow::events::Trace;
use test_slow::rules::Halts;
use test_slow::{Memory, Sizes};

// ---- answers

// What is answered: by the judge, by the ordering call, by the list of pairs, by the conversion, and by all of them.
#[derive(Clone, Copy, PartialEq, Eq)]
pub enum Case {
    Clean,
    Race,
    Yes,
    No,
    Listed,
    Converted,
    Refused,
    // Not yet known: the slow call is to say it. The links that stand with it are added to its own: so many too many are expected, on purpose.
    Slow,
}

impl Case {
    pub const ALL: [Case; 8] = [
        Case::Clean,
        Case::Race,
        Case::Yes,
        Case::No,
        Case::Listed,
        Case::Converted,
        Case::Refused,
        Case::Slow,
    ];

    // What stands in a table's cell as this number.
    pub fn of(number: usize) -> Option<Case> {
        Case::ALL.get(number).copied()
    }
}

// An answer, or what a table tells in the place of one, which may be wrong on purpose. The numbers are the positions of a race, the row and the position of a refusal,
// and how many pairs are listed; they and the links are 0 where the answer has none.
#[derive(Clone, Copy, PartialEq, Eq)]
pub struct Reply {
    pub case: Case,
    pub a: usize,
    pub b: usize,
    pub links: usize,
}

impl Reply {
    pub fn clean(links: usize) -> Reply {
        Reply {
            case: Case::Clean,
            a: 0,
            b: 0,
            links,
        }
    }

    pub fn race(s: usize, t: usize, links: usize) -> Reply {
        Reply {
            case: Case::Race,
            a: s,
            b: t,
            links,
        }
    }

    // "with a refusal, 0"
    pub fn refused(row: usize, position: usize) -> Reply {
        Reply {
            case: Case::Refused,
            a: row,
            b: position,
            links: 0,
        }
    }

    pub fn slow() -> Reply {
        Reply {
            case: Case::Slow,
            a: 0,
            b: 0,
            links: 0,
        }
    }

    // The number of the row by which this refuses, if it does.
    pub fn row(self) -> Option<usize> {
        (self.case == Case::Refused).then_some(self.a)
    }
}

impl From<trace::Verdict> for Reply {
    fn from(verdict: trace::Verdict) -> Reply {
        match verdict {
            trace::Verdict::Clean { links } => Reply::clean(links),
            trace::Verdict::Race { s, t, links } => Reply::race(s, t, links),
        }
    }
}

impl From<test_slow::Verdict> for Reply {
    fn from(verdict: test_slow::Verdict) -> Reply {
        match verdict {
            test_slow::Verdict::Clean { links } => Reply::clean(links),
            test_slow::Verdict::Race { s, t, links } => Reply::race(s, t, links),
        }
    }
}

// Of the ordering call.
impl From<bool> for Reply {
    fn from(reaches: bool) -> Reply {
        Reply {
            case: if reaches { Case::Yes } else { Case::No },
            a: 0,
            b: 0,
            links: 0,
        }
    }
}

impl From<trace::Refusal> for Reply {
    fn from(refusal: trace::Refusal) -> Reply {
        Reply::refused(refusal.number, refusal.position)
    }
}

impl From<test_slow::rows::Refusal> for Reply {
    fn from(refusal: test_slow::rows::Refusal) -> Reply {
        Reply::refused(refusal.number(), refusal.position)
    }
}

// What a call answers, fast or slow.
pub fn reply_of<A: Into<Reply>, R: Into<Reply>>(answer: Result<A, R>) -> Reply {
    match answer {
        Ok(answer) => answer.into(),
        Err(refusal) => refusal.into(),
    }
}

// The answer, or a cell, is not as it must be.
#[derive(Clone, Copy, PartialEq, Eq)]
pub struct Mismatch;

pub type Answer = Result<Reply, Mismatch>;

// The reply of a call if it is the wanted one and the cells are as wanted too.
pub fn reply_held(reply: Reply, want: Reply, cells: bool) -> Answer {
    if reply == want && cells {
        Ok(reply)
    } else {
        Err(Mismatch)
    }
}

// ---- calls

// What can be expected wrong: a cell of a buffer that a call is lent. Of the judge with cards also a field of a card, whose cell is the location; and how many cards
// are due. Of the conversion the operands.
#[derive(Clone, Copy, PartialEq, Eq)]
pub enum Buffer {
    Workspace = 1,
    First = 2,
    Second = 3,
    Reads = 4,
    Writes = 5,
    Sums = 6,
    Earliest = 7,
    Latest = 8,
    Due = 9,
    Operands = 10,
}

impl Buffer {
    // What stands in a table's cell as this number. None is 0.
    pub fn of(number: usize) -> Option<Buffer> {
        match number {
            1 => Some(Buffer::Workspace),
            2 => Some(Buffer::First),
            3 => Some(Buffer::Second),
            4 => Some(Buffer::Reads),
            5 => Some(Buffer::Writes),
            6 => Some(Buffer::Sums),
            7 => Some(Buffer::Earliest),
            8 => Some(Buffer::Latest),
            9 => Some(Buffer::Due),
            10 => Some(Buffer::Operands),
            _ => None,
        }
    }
}

// A cell of a buffer that is expected wrong, on purpose: the comparison must notice it.
#[derive(Clone, Copy, PartialEq, Eq)]
pub struct Plant {
    pub buffer: Buffer,
    pub cell: usize,
}

// A call: of the judge, or of the ordering call for two positions; how many cells it is lent; a salt for the dirt; and what must come of it, where that is told.
#[derive(Clone, Copy)]
pub struct Call {
    pub asked: Option<(usize, usize)>,
    pub sizes: Sizes,
    pub salt: usize,
    pub want: Reply,
    pub plant: Option<Plant>,
}

pub fn judging(sizes: Sizes, salt: usize) -> Call {
    Call {
        asked: None,
        sizes,
        salt,
        want: Reply::slow(),
        plant: None,
    }
}

pub fn asking(sizes: Sizes, p: usize, q: usize, salt: usize) -> Call {
    Call {
        asked: Some((p, q)),
        ..judging(sizes, salt)
    }
}

// The call with what must come of it told.
pub fn wanting(call: Call, want: Reply) -> Call {
    Call { want, ..call }
}

// The slices of a trace of n events, with buffers longer than they need be.
pub fn roomy(n: usize) -> Sizes {
    Sizes {
        kinds: n,
        tasks: n,
        operands: n,
        ws: n.wrapping_add(12300),
        first: n.wrapping_add(2),
        second: n.wrapping_add(3),
    }
}

// What must come of a call by the answer of the slow judge: that, but for the links that are planted.
pub fn wanted_of(reply: Reply, call: Call) -> Reply {
    Reply {
        links: reply.links.wrapping_add(call.want.links),
        ..reply
    }
}

// What must come of a call: what is told with it, or else what the slow one answers.
pub fn wanted(trace: Trace<'_>, call: Call, memory: &mut Memory) -> Reply {
    if call.want.case != Case::Slow {
        return call.want;
    }
    match call.asked {
        Some((p, q)) => reply_of(test_slow::ordering(trace, call.sizes, p, q, memory)),
        None => wanted_of(
            reply_of(test_slow::judge(trace, call.sizes, Halts::Named, memory)),
            call,
        ),
    }
}
