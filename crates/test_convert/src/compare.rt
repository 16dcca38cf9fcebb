// One call of the conversion in dirty buffers: its answer and all cells that it was lent, and some behind them, are held to what the slow one says; a second call
// must leave the same; and what was clean or a race before it, by the slow judge with row 12 as it was, the judge must call the same.
use crate::slow::{Wanted, Way};
use test_calls::buffers::{holds_operands, holds_zeros, lend, soil};
use test_calls::{Answer, Call, Case, Reply, reply_held, reply_of};
use test_compare::judged;
use test_samples::events::lay;
use test_slow::events::Trace;
use test_slow::rows::Refusal;
use test_slow::rules::Halts;
use test_slow::{Memory, Sizes, first_break};

// ---- the slow ones

// What they say: the judge, with row 12 as it was; where the events break a rule, or how many they are; and what operands are wanted.
#[derive(Clone, Copy)]
pub struct Before {
    pub verdict: Reply,
    pub broken: usize,
    pub wanted: Wanted,
}

// Asks them. The judge's orders stay in the memory. Of more events than the slow judge takes the order buffers must be too short, so that it takes none.
fn ask_slow(trace: Trace<'_>, sizes: Sizes, way: Way, memory: &mut Memory) -> Before {
    let verdict = reply_of(test_slow::judge(trace, sizes, Halts::Zero, memory));
    let broken = first_break(trace, way.halts(), memory);
    let stop = way.stop(broken, sizes, verdict);
    Before {
        verdict,
        broken,
        wanted: Wanted::new(trace, sizes.operands, stop, way),
    }
}

// ---- the conversion

// What the tables tell as clean.
pub fn converted() -> Reply {
    Reply::clean(0)
}

// What is told with the call, or else: "Its only refusals are 1 to 3."
fn told(call: Call) -> Reply {
    match (call.want.case, call.sizes.check()) {
        (Case::Slow, Ok(())) => converted(),
        (Case::Slow, Err(row)) => Refusal::from(row).into(),
        _ => call.want,
    }
}

fn reply_of_conversion(answer: Result<(), trace::Refusal>) -> Reply {
    match answer {
        Ok(()) => converted(),
        Err(refusal) => refusal.into(),
    }
}

// The conversion's answer, if it and all cells are as they must be.
fn convert(
    kinds: &[u8],
    tasks: &[u16],
    operands: &mut [u16],
    call: Call,
    wanted: &[u16],
) -> Answer {
    let mut ws = [0u16; 45100];
    soil(&mut ws, call.sizes.ws, call.salt);
    let want = told(call);
    let lent = lend(&mut ws, call.sizes.ws);
    let reply = reply_of_conversion(convert::convert(kinds, tasks, operands, lent));
    let zeros = holds_zeros(&ws, call, want);
    let set = holds_operands(operands, call, wanted);
    reply_held(reply, want, zeros & set)
}

// The same, and a mismatch also where a second call differs or the judge: "What the judge calls clean or a race with the old row 12 .., it calls the same, with the
// same positions, after this conversion." It leaves the same orders then, and reports as many links. Of a refusal nothing is said.
fn convert_and_judge(
    kinds: &[u8],
    tasks: &[u16],
    operands: &mut [u16],
    call: Call,
    before: &Before,
    memory: &Memory,
) -> Answer {
    let wanted = before.wanted.operands();
    let once = convert(kinds, tasks, operands, call, wanted)?;
    let twice = convert(kinds, tasks, operands, call, wanted)?;
    let trace = Trace {
        kinds,
        tasks,
        operands,
    };
    let after = judged(trace, call, before.verdict, memory);
    let alike = after.is_ok() || before.verdict.case == Case::Refused;
    reply_held(once, twice, alike)
}

// ---- both

// What the conversion itself answers, if it is what it should, and what was before it.
#[derive(Clone, Copy)]
pub struct Compared {
    pub answer: Answer,
    pub before: Before,
}

// A trace of these events, held to the slow conversion that goes this way. Behind them the slices hold reads of location 0 by task 0.
pub fn compare(events: &[u16], call: Call, way: Way, memory: &mut Memory) -> Compared {
    let mut kinds = [0u8; 32800];
    let mut tasks = [0u16; 32800];
    let mut operands = [0u16; 32800];
    lay(events, &mut kinds, &mut tasks, &mut operands);
    let kinds = &kinds[..call.sizes.kinds.min(32800)];
    let tasks = &tasks[..call.sizes.tasks.min(32800)];
    let trace = Trace {
        kinds,
        tasks,
        operands: &operands,
    };
    let before = ask_slow(trace, call.sizes, way, memory);
    let lent = lend(&mut operands, call.sizes.operands);
    let answer = convert_and_judge(kinds, tasks, lent, call, &before, memory);
    let kept = holds_operands(&operands, call, before.wanted.operands());
    Compared {
        answer: answer.and_then(|reply| reply_held(reply, reply, kept)),
        before,
    }
}
