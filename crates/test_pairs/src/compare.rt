// One call for the pairs in dirty buffers: its answer and all cells that it was lent, and some behind them, are held to what the slow list says.
use crate::slow::{Found, cells_written, find, listed, reply_of};
use test_calls::buffers::{holds_both, holds_zeros, lend, soil};
use test_calls::{Answer, Call, Case, Reply, reply_held};
use test_samples::events::lay;
use test_slow::close::Way;
use test_slow::events::Trace;
use test_slow::{Memory, ROOM, Sizes};

// ---- what the slices for the pairs are lent

// How many cells a slice is lent, by the number of pairs. Where there is no pair, one too few is none too.
#[derive(Clone, Copy, PartialEq, Eq)]
pub enum Length {
    Nothing,
    OneTooFew,
    Exact,
    OneMore,
}

impl Length {
    fn of(number: usize) -> Length {
        match number {
            0 => Length::Nothing,
            1 => Length::OneTooFew,
            2 => Length::Exact,
            _ => Length::OneMore,
        }
    }

    fn cells(self, pairs: usize) -> usize {
        let cells = match self {
            Length::Nothing => 0,
            Length::OneTooFew => pairs.saturating_sub(1),
            Length::Exact => pairs,
            Length::OneMore => pairs.wrapping_add(1),
        };
        cells.min(ROOM)
    }
}

// The lengths of both, or those that the sizes of the call say.
#[derive(Clone, Copy, PartialEq, Eq)]
pub enum Lending {
    AsTold,
    By(Length, Length),
}

// Four lengths of the one and four of the other.
pub const LENDINGS: usize = 16;

impl Lending {
    pub const EXACT: Lending = Lending::By(Length::Exact, Length::Exact);

    // A cell too few for the later positions.
    pub const SHORT: Lending = Lending::By(Length::Exact, Length::OneTooFew);

    // What stands in a table as this number.
    pub fn of(number: usize) -> Lending {
        if number < LENDINGS {
            Lending::By(Length::of(number / 4), Length::of(number % 4))
        } else {
            Lending::AsTold
        }
    }

    fn sizes(self, pairs: usize, sizes: Sizes) -> Sizes {
        match self {
            Lending::AsTold => sizes,
            Lending::By(earlier, later) => Sizes {
                first: earlier.cells(pairs),
                second: later.cells(pairs),
                ..sizes
            },
        }
    }
}

// The call where this is found: with what it is lent, and with what must come of it, which is told with it or else what the slow list says.
fn made_of(call: Call, found: Found, lending: Lending, way: Way) -> Call {
    let sizes = lending.sizes(found.pairs, call.sizes);
    let want = match call.want.case {
        Case::Slow => reply_of(found, sizes, way),
        _ => call.want,
    };
    Call {
        sizes,
        want,
        ..call
    }
}

// ---- the call

// What the call itself answers, if it is what it should. So many cells of each slice must hold a pair.
fn list(trace: Trace<'_>, call: Call, written: usize, memory: &Memory) -> Answer {
    let mut ws = [0u16; 45100];
    let mut earlier = [0u16; 83310];
    let mut later = [0u16; 83310];
    soil(&mut ws, call.sizes.ws, call.salt);
    soil(&mut earlier, call.sizes.first, call.salt);
    soil(&mut later, call.sizes.second, call.salt);
    let reply = pairs::list(
        trace.kinds,
        trace.tasks,
        trace.operands,
        lend(&mut ws, call.sizes.ws),
        lend(&mut earlier, call.sizes.first),
        lend(&mut later, call.sizes.second),
    )
    .map_or_else(Reply::from, listed);
    let zeros = holds_zeros(&ws, call, call.want);
    let pairs = holds_both(&earlier, &later, call, written, memory);
    reply_held(reply, call.want, zeros & pairs)
}

// What the call itself answers on a trace of these events, if it is what the slow list says that goes this way. Behind them the slices hold reads of location 0 by
// task 0.
pub fn compare(
    events: &[u16],
    call: Call,
    lending: Lending,
    way: Way,
    memory: &mut Memory,
) -> Answer {
    let mut kinds = [0u8; 32800];
    let mut tasks = [0u16; 32800];
    let mut operands = [0u16; 32800];
    lay(events, &mut kinds, &mut tasks, &mut operands);
    let trace = Trace {
        kinds: &kinds[..call.sizes.kinds.min(32800)],
        tasks: &tasks[..call.sizes.tasks.min(32800)],
        operands: &operands[..call.sizes.operands.min(32800)],
    };
    let found = find(trace, call, way, memory);
    let made = made_of(call, found, lending, way);
    list(trace, made, cells_written(made, found.pairs, way), memory)
}
