// The ordering call: does event p reach event q? What it answers and leaves is defined in crate `trace`.
#![tactic(auto)]

ghost use Rattle.std.specs.Prelude.{◌≡◌, suc, length};
ghost use Rattle.trace.specs.Line.{passes};
ghost use Rattle.trace.specs.Outcome.{ordering_checked, ordering_outcome};
ghost use Rattle.trace.specs.Answers.{ordering_reply};
ghost use Rattle.trace.specs.Demands.{OrderingDemand1, OrderingCallDemand};
ghost use Rattle.trace.proofs.Sizes.{SizedTrace};
ghost use Rattle.trace.proofs.Tests.{Tests};
ghost use Rattle.ranks.specs.States.{SegmentsIn};
ghost use Rattle.ordering.specs.Asks.{ordering_gives, ReachesByNumber, AnswerSays};

use ranks::Ranked;
use sizes::WORKSPACE_CELLS;
use trace::{Refusal, Row, Trace};

// Whether event p stands no later than event q, and its number is no larger.
fn reaches(kinds: &[u8], ws: &[u16], p: usize, q: usize) -> bool
    requires { SegmentsIn kinds.now (suc p) ws.now × SegmentsIn kinds.now (suc q) ws.now }
    ensures { Tests result (ReachesByNumber kinds.now ws.now p q) }
{
    p <= q && ranks::number_of(kinds, ws, p) <= ranks::number_of(kinds, ws, q)
}

// The answer, from the rules and the numbers. Row 13 comes after the row that an event meets: where none does, the graph has all events of the trace.
fn answer(kinds: &[u8], ws: &[u16], ranked: Ranked, p: usize, q: usize) -> Result<bool, Refusal>
    requires { SegmentsIn kinds.now ranked.events ws.now }
    ensures { AnswerSays kinds.now p q ws.now ranked (ordering_reply result) }
{
    if let Some(row) = ranked.broken {
        return Err(row.at(ranked.events));
    }
    if p < ranked.events && q < ranked.events {
        return Ok(reaches(kinds, ws, p, q));
    }
    Err(Row::UnknownPosition.at(0))
}

// The ordering call past the size checks.
fn ask(trace: Trace, ws: &mut [u16], p: usize, q: usize) -> Result<bool, Refusal>
    requires { SizedTrace trace ws.old }
    ensures { ordering_gives result ws.new
        ≡ ordering_checked trace.entry.kinds.now trace.entry.tasks.now trace.entry.operands.now
        ws.old p q (passes (length trace.entry.kinds.now)) }
{
    let ranked = ranks::rank(trace, ws);
    let answer = answer(trace.kinds, ws, ranked, p, q);
    cells::clear(ws, WORKSPACE_CELLS + trace.kinds.len());
    answer
}

// THE ORDERING CALL: does event p reach event q?
pub fn ordering(
    kinds: &[u8],
    tasks: &[u16],
    operands: &[u16],
    ws: &mut [u16],
    p: usize,
    q: usize,
) -> Result<bool, Refusal>
    ensures outcome { ordering_gives result ws.new
        ≡ ordering_outcome kinds.now tasks.now operands.now ws.old p q }
    ensures demand1 { OrderingDemand1 kinds.now tasks.now operands.now
        ws.old (ordering_reply result) ws.new }
    ensures reach { OrderingCallDemand kinds.now tasks.now operands.now
        ws.old p q (ordering_reply result) }
{
    sizes::check_sizes(kinds, tasks, operands, ws)?;
    let trace = Trace {
        kinds,
        tasks,
        operands,
    };
    ask(trace, ws, p, q)
}
