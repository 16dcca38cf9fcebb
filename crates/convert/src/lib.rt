// The conversion of stored traces, whose halts have the operand 0: each gets the task that resumes as its operand. What it answers and leaves is defined in
// `specs/`.
#![tactic(auto)]

ghost use Rattle.std.specs.Prelude.{◌≡◌, length};
ghost use Rattle.trace.proofs.Sizes.{Sized};
ghost use Rattle.line.specs.Rules.{rule_of};
ghost use Rattle.line.specs.Steps.{after_in, rowed, event_in};
ghost use Rattle.line.specs.Held.{Sound};
ghost use Rattle.convert.specs.Conversion.{convert_gives, convert_outcome, conversion_reply};
ghost use Rattle.convert.specs.Demands.{ConvertDemand1, ConvertSets, SameVerdicts};
ghost use Rattle.convert.specs.States.{HaltsAreSet};

use line::Line;
use sizes::WORKSPACE_CELLS;
use trace::{Event, HALT, Refusal, Row};

// `Line::admit`, called in two places: where an event is known to be a halt, the compiler need not ask for its kind again. In one place the conversion takes an
// eighth longer, where it is compiled by itself.
fn admit(line: Line, ws: &mut [u16], event: Event) -> Result<(), Row>
    requires { Sound ws.old line }
    ensures { rowed (after_in line (rule_of event.kind)) result ws.new ≡ event_in ws.old line event.kind event.task event.operand }
{
    if event.kind == HALT {
        let halt = Event {
            kind: HALT,
            ..event
        };
        return line.admit(ws, halt);
    }
    line.admit(ws, event)
}

// Sets the halts up to the first event that breaks a rule. A halt is held to row 12 as it was, that its operand is 0, and then to the rules with the operand that
// it gets. The event that breaks a rule is left as it is.
fn set_halts(kinds: &[u8], tasks: &[u16], operands: &mut [u16], ws: &mut [u16])
    requires { Sized kinds.now tasks.now operands.old ws.old (length kinds.now) }
    ensures { HaltsAreSet kinds.now tasks.now operands.old ws.old operands.new ws.new }
{
    let mut line = Line::start(ws);
    for i in 0..kinds.len() {
        let kind = kinds[i];
        let mut operand = operands[i];
        if kind == HALT {
            if operand != 0 {
                return;
            }
            operand = line.resumes(ws);
        }
        let event = Event {
            kind,
            task: tasks[i],
            operand,
        };
        if admit(line, ws, event).is_err() {
            return;
        }
        operands[i] = operand;
        line = line.after(kind);
    }
}

// THE CONVERSION.
pub fn convert(
    kinds: &[u8],
    tasks: &[u16],
    operands: &mut [u16],
    ws: &mut [u16],
) -> Result<(), Refusal>
    ensures outcome { convert_gives result operands.new ws.new
        ≡ convert_outcome kinds.now tasks.now operands.old ws.old }
    ensures demand1 { ConvertDemand1 kinds.now tasks.now operands.old ws.old
        (conversion_reply result) operands.new ws.new }
    ensures halts { ConvertSets kinds.now tasks.now operands.old ws.old operands.new }
    ensures verdict { SameVerdicts kinds.now tasks.now operands.old ws.old operands.new }
{
    sizes::check_sizes(kinds, tasks, operands, ws)?;
    set_halts(kinds, tasks, operands, ws);
    cells::clear(ws, WORKSPACE_CELLS + kinds.len());
    Ok(())
}
