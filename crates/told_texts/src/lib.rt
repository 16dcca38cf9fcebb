// What a C caller is told of a text and of a plan: their translations to three lent slices return a code and store two values, and `specs/Codes.antt` says which.
// `capi` has them under their names in C.
#![tactic(auto)]

mod translation;

ghost use Rattle.std.specs.Prelude.{◌≡◌};
ghost use Rattle.trace.specs.Slices.{slices};
ghost use Rattle.plan.specs.Decided.{DecidedBy, TracesPlan};
ghost use Rattle.plan.specs.Tracing.{planned};
ghost use Rattle.told_texts.specs.Codes.{heard_trace, translation_call, translate_call, translate_seen, TranslateTells};

use told::telling::tell;

// What the translation of a text returns where a slice has too few cells for every text. The code is a number, since C reads it.
const SHORT: u64 = 3;

// Text to a trace.
pub fn translate(
    text: &[u8],
    kinds: &mut [u8],
    tasks: &mut [u16],
    operands: &mut [u16],
    values: &mut [u64; 2],
) -> u64
    ensures outcome { translate_seen result values.new (slices kinds.new tasks.new operands.new)
        ≡ translate_call text.now (slices kinds.old tasks.old operands.old) }
    ensures form { TranslateTells text.now (slices kinds.old tasks.old operands.old)
        (translate_seen result values.new (slices kinds.new tasks.new operands.new)) }
{
    if translation::is_short(kinds.len(), tasks.len(), operands.len()) {
        *values = [0, 0];
        return SHORT;
    }
    let answer = translation::translate(text, kinds, tasks, operands);
    tell(answer, values)
}

// A plan to a trace.
pub fn plan(
    text: &[u8],
    kinds: &mut [u8],
    tasks: &mut [u16],
    operands: &mut [u16],
    values: &mut [u64; 2],
) -> u64
    ensures outcome { translate_seen result values.new (slices kinds.new tasks.new operands.new)
        ≡ translation_call (planned text.now (slices kinds.old tasks.old operands.old)) }
    ensures grammar { DecidedBy text.now (slices kinds.old tasks.old operands.old)
        (heard_trace result values.new (slices kinds.new tasks.new operands.new)) }
    ensures trace { TracesPlan text.now
        (heard_trace result values.new (slices kinds.new tasks.new operands.new)) }
{
    let answer = plan_reader::translate(text, kinds, tasks, operands);
    tell(answer, values)
}
