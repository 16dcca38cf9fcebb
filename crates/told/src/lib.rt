// What a C caller is told: the judge of a whole trace, the ordering call, the conversion and the call for pairs return a code and store two values, the judge a
// third one, and `specs/Codes.antt` says which. `capi` has them under their names in C.
#![tactic(auto)]

pub mod telling;

ghost use Rattle.std.specs.Prelude.{◌≡◌};
ghost use Rattle.trace.specs.Outcome.{judge_outcome, ordering_outcome};
ghost use Rattle.trace.specs.Demands.{JudgeDemand1, JudgeDemand2, JudgeDemand3, JudgeLinks, OrderingDemand1, OrderingCallDemand};
ghost use Rattle.convert.specs.Conversion.{convert_outcome};
ghost use Rattle.convert.specs.Demands.{ConvertDemand1, ConvertSets, SameVerdicts};
ghost use Rattle.pairs.specs.Pairs.{slices, pairs_outcome};
ghost use Rattle.pairs.specs.Demands.{PairsDemand1, PairsCallDemand};
ghost use Rattle.told.specs.Codes.{heard, heard_links, judge_call, judge_seen};
ghost use Rattle.told.specs.Codes.{heard_ordering, ordering_call, ordering_seen};
ghost use Rattle.told.specs.Codes.{heard_conversion, convert_call, convert_seen};
ghost use Rattle.told.specs.Codes.{heard_count, pairs_call, pairs_seen};

use crate::telling::tell;

// The codes are numbers, and not cases of an enum, since C reads them. What the judge returns.
pub const CLEAN: u64 = 0;

const RACE: u64 = 1;

// What the ordering call returns.
const NO: u64 = 0;

const YES: u64 = 1;

// What the conversion returns.
const CONVERTED: u64 = 0;

// What a call returns that says how many there are, of pairs or of a trace's events.
const COUNTED: u64 = 0;

// What all return where the trace is turned back.
pub const REFUSED: u64 = 2;

// The judge of a whole trace.
pub fn judge(
    kinds: &[u8],
    tasks: &[u16],
    operands: &[u16],
    ws: &mut [u16],
    first: &mut [u16],
    second: &mut [u16],
    values: &mut [u64; 3],
) -> u64
    ensures outcome { judge_seen result values.new ws.new first.new second.new
        ≡ judge_call (judge_outcome kinds.now tasks.now operands.now
        ws.old first.old second.old) }
    ensures demand1 { JudgeDemand1 kinds.now tasks.now operands.now
        ws.old first.old second.old (heard result values.new)
        ws.new first.new second.new }
    ensures demand2 { JudgeDemand2 kinds.now tasks.now operands.now
        ws.old first.old second.old (heard result values.new) }
    ensures demand3 { JudgeDemand3 kinds.now tasks.now operands.now
        (heard result values.new) first.old second.old first.new second.new }
    ensures chains { JudgeLinks kinds.now tasks.now operands.now
        (heard result values.new) (heard_links values.new) }
{
    let answer = judge::judge(kinds, tasks, operands, ws, first, second);
    tell(answer, values)
}

// The ordering call: does event p reach event q?
pub fn ordering(
    kinds: &[u8],
    tasks: &[u16],
    operands: &[u16],
    ws: &mut [u16],
    p: usize,
    q: usize,
    values: &mut [u64; 2],
) -> u64
    ensures outcome { ordering_seen result values.new ws.new
        ≡ ordering_call (ordering_outcome kinds.now tasks.now operands.now ws.old p q) }
    ensures demand1 { OrderingDemand1 kinds.now tasks.now operands.now
        ws.old (heard_ordering result values.new) ws.new }
    ensures reach { OrderingCallDemand kinds.now tasks.now operands.now
        ws.old p q (heard_ordering result values.new) }
{
    let answer = ordering::ordering(kinds, tasks, operands, ws, p, q);
    tell(answer, values)
}

// The conversion of a stored trace.
pub fn convert(
    kinds: &[u8],
    tasks: &[u16],
    operands: &mut [u16],
    ws: &mut [u16],
    values: &mut [u64; 2],
) -> u64
    ensures outcome { convert_seen result values.new operands.new ws.new
        ≡ convert_call (convert_outcome kinds.now tasks.now operands.old ws.old) }
    ensures demand1 { ConvertDemand1 kinds.now tasks.now operands.old ws.old
        (heard_conversion result values.new) operands.new ws.new }
    ensures halts { ConvertSets kinds.now tasks.now operands.old ws.old operands.new }
    ensures verdict { SameVerdicts kinds.now tasks.now operands.old ws.old operands.new }
{
    let answer = convert::convert(kinds, tasks, operands, ws);
    tell(answer, values)
}

// Every close pair.
pub fn pairs(
    kinds: &[u8],
    tasks: &[u16],
    operands: &[u16],
    ws: &mut [u16],
    earlier: &mut [u16],
    later: &mut [u16],
    values: &mut [u64; 2],
) -> u64
    ensures outcome { pairs_seen result values.new earlier.new later.new ws.new
        ≡ pairs_call (pairs_outcome kinds.now tasks.now operands.now ws.old
        (slices earlier.old later.old)) }
    ensures demand1 { PairsDemand1 kinds.now tasks.now operands.now ws.old
        (slices earlier.old later.old) (heard_count result values.new)
        (slices earlier.new later.new) ws.new }
    ensures pairs { PairsCallDemand kinds.now tasks.now operands.now ws.old
        (slices earlier.old later.old) (heard_count result values.new)
        (slices earlier.new later.new) }
{
    let answer = pairs::list(kinds, tasks, operands, ws, earlier, later);
    tell(answer, values)
}
