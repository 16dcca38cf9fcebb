// The judge of a whole trace, in a workspace that the caller lends. It takes every length of every slice; what it answers and leaves is defined in crate
// `trace`, and the contract carries the owner's three demands and, in the clause *chains*, what K2 says of the number of links.
#![tactic(auto)]

ghost use Rattle.std.specs.Prelude.{◌≡◌, length};
ghost use Rattle.trace.specs.Held.{held_trace};
ghost use Rattle.trace.specs.Line.{passes};
ghost use Rattle.trace.specs.Outcome.{judge_checked, judge_outcome};
ghost use Rattle.trace.specs.Answers.{judge_reply, judge_links};
ghost use Rattle.trace.specs.Demands.{JudgeDemand1, JudgeDemand2, JudgeDemand3, JudgeLinks};
ghost use Rattle.trace.proofs.Sizes.{SizedTrace, Roomy};
ghost use Rattle.judge.specs.Entry.{judge_gives, Decided};

use sizes::WORKSPACE_CELLS;
use trace::{Refusal, Trace, Verdict};

// What decides past the size checks: the first access that races, else the first event that breaks a rule. Only the events before that one are ranked, so
// every race that is found comes before it. The links are those of the events looked at; the report alone wants the events' numbers in their cells.
fn decide(
    trace: Trace,
    ws: &mut [u16],
    first: &mut [u16],
    second: &mut [u16],
) -> Result<Verdict, Refusal>
    requires sized { SizedTrace trace ws.old }
    requires roomy { Roomy first.old second.old (length trace.kinds.now) }
    ensures { Decided (held_trace trace.entry) (length trace.entry.kinds.now) (judge_reply result) (judge_links result)
        ws.old ws.new first.old first.new second.old second.new }
{
    let ranked = ranks::rank(trace, ws);
    let racing = scan::first_race(trace, ws, ranked.leading, ranked.events);
    let passed = racing.unwrap_or(ranked.events);
    let links = chains::longest(trace, ws, ranked.stops, passed);
    if let Some(t) = racing {
        ranks::spread(trace.kinds, ws, ranked.events);
        let s = report::report(trace, ws, first, second, t);
        return Ok(Verdict::Race { s, t, links });
    }
    match ranked.broken {
        Some(row) => Err(row.at(ranked.events)),
        None => Ok(Verdict::Clean { links }),
    }
}

// The judge past the size checks.
fn examine(
    trace: Trace,
    ws: &mut [u16],
    first: &mut [u16],
    second: &mut [u16],
) -> Result<Verdict, Refusal>
    requires sized { SizedTrace trace ws.old }
    requires roomy { Roomy first.old second.old (length trace.kinds.now) }
    ensures second_after { judge_gives result ws.new first.new second.new
        ≡ judge_checked trace.entry.kinds.now trace.entry.tasks.now trace.entry.operands.now
        ws.old first.old second.old (passes (length trace.entry.kinds.now)) }
    ensures judge_links { JudgeLinks trace.entry.kinds.now trace.entry.tasks.now
        trace.entry.operands.now (judge_reply result) (judge_links result) }
{
    let answer = decide(trace, ws, first, second);
    cells::clear(ws, WORKSPACE_CELLS + trace.kinds.len());
    answer
}

// THE JUDGE of a whole trace.
pub fn judge(
    kinds: &[u8],
    tasks: &[u16],
    operands: &[u16],
    ws: &mut [u16],
    first: &mut [u16],
    second: &mut [u16],
) -> Result<Verdict, Refusal>
    ensures outcome { judge_gives result ws.new first.new second.new
        ≡ judge_outcome kinds.now tasks.now operands.now ws.old first.old second.old }
    ensures demand1 { JudgeDemand1 kinds.now tasks.now operands.now
        ws.old first.old second.old (judge_reply result) ws.new first.new second.new }
    ensures demand2 { JudgeDemand2 kinds.now tasks.now operands.now
        ws.old first.old second.old (judge_reply result) }
    ensures demand3 { JudgeDemand3 kinds.now tasks.now operands.now
        (judge_reply result) first.old second.old first.new second.new }
    ensures chains { JudgeLinks kinds.now tasks.now operands.now (judge_reply result) (judge_links result) }
{
    sizes::check_buffers(kinds, tasks, operands, ws, first, second)?;
    let trace = Trace {
        kinds,
        tasks,
        operands,
    };
    examine(trace, ws, first, second)
}
