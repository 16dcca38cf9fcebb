// Plans in series and parallel: from a plan's text to the trace that the judge takes. The text is checked and measured before anything is written.
#![tactic(auto)]

mod emission;
mod reading;

ghost use Rattle.std.specs.Prelude.{◌≡◌};
ghost use Rattle.trace.specs.Slices.{slices};
ghost use Rattle.trace.specs.Answers.{translated_of};
ghost use Rattle.plan.specs.Decided.{DecidedBy, TracesPlan};
ghost use Rattle.plan.specs.Tracing.{is_too_large, planned};

use crate::reading::Size;
use trace::{MAX_EVENTS, Refusal, Row, TASKS};

// Row 19: over 1,024 tasks, over 32,768 events, or a slice too short.
fn too_large(size: Size, kinds: usize, tasks: usize, operands: usize) -> bool
    ensures { result ≡ is_too_large size.events size.forks kinds tasks operands }
{
    let cells = kinds.min(tasks).min(operands);
    TASKS as usize <= size.forks || MAX_EVENTS.min(cells) < size.events
}

// The trace of a plan, and the number of its events. A refusal leaves the slices as they were.
pub fn translate(
    text: &[u8],
    kinds: &mut [u8],
    tasks: &mut [u16],
    operands: &mut [u16],
) -> Result<usize, Refusal>
    ensures outcome { translated_of result (slices kinds.new tasks.new operands.new)
        ≡ planned text.now (slices kinds.old tasks.old operands.old) }
    ensures grammar { DecidedBy text.now (slices kinds.old tasks.old operands.old)
        (translated_of result (slices kinds.new tasks.new operands.new)) }
    ensures trace { TracesPlan text.now (translated_of result (slices kinds.new tasks.new operands.new)) }
{
    let size = reading::measure(text)?;
    if too_large(size, kinds.len(), tasks.len(), operands.len()) {
        return Err(Row::LargePlan.into());
    }
    emission::emit(text, kinds, tasks, operands);
    Ok(size.events)
}
