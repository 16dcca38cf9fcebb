// One call of the judge, or of the ordering call, in dirty buffers: its answer and all cells that it was lent, and some behind them, are held to what must
// come of it.
#![tactic(auto)]

use test_calls::buffers::{holds_orders, holds_zeros, lend, soil};
use test_calls::{Answer, Call, Reply, reply_held, reply_of, wanted};
use test_samples::events::lay;
use test_slow::Memory;
use test_slow::events::Trace;

// What the judge itself answers.
pub fn judged(trace: Trace<'_>, call: Call, want: Reply, memory: &Memory) -> Answer {
    let mut ws = [0u16; 45100];
    let mut first = [0u16; 32800];
    let mut second = [0u16; 32800];
    soil(&mut ws, call.sizes.ws, call.salt);
    soil(&mut first, call.sizes.first, call.salt);
    soil(&mut second, call.sizes.second, call.salt);
    let answer = judge::judge(
        trace.kinds,
        trace.tasks,
        trace.operands,
        lend(&mut ws, call.sizes.ws),
        lend(&mut first, call.sizes.first),
        lend(&mut second, call.sizes.second),
    );
    let zeros = holds_zeros(&ws, call, want);
    let orders = holds_orders(&first, &second, call, want, memory);
    reply_held(reply_of(answer), want, zeros & orders)
}

// What the ordering call itself answers for two positions.
fn ordered(trace: Trace<'_>, p: usize, q: usize, call: Call, want: Reply) -> Answer {
    let mut ws = [0u16; 45100];
    soil(&mut ws, call.sizes.ws, call.salt);
    let answer = ordering::ordering(
        trace.kinds,
        trace.tasks,
        trace.operands,
        lend(&mut ws, call.sizes.ws),
        p,
        q,
    );
    let zeros = holds_zeros(&ws, call, want);
    reply_held(reply_of(answer), want, zeros)
}

// What the call itself answers on a trace of these events, if it is what it should. Behind the events the slices hold reads of location 0 by task 0.
pub fn compare(events: &[u16], call: Call, memory: &mut Memory) -> Answer {
    let mut kinds = [0u8; 32800];
    let mut tasks = [0u16; 32800];
    let mut operands = [0u16; 32800];
    lay(events, &mut kinds, &mut tasks, &mut operands);
    let trace = Trace {
        kinds: &kinds[..call.sizes.kinds.min(32800)],
        tasks: &tasks[..call.sizes.tasks.min(32800)],
        operands: &operands[..call.sizes.operands.min(32800)],
    };
    let want = wanted(trace, call, memory);
    match call.asked {
        Some((p, q)) => ordered(trace, p, q, call, want),
        None => judged(trace, call, want, memory),
    }
}

// Whether the call does as it must.
pub fn agrees(events: &[u16], call: Call, memory: &mut Memory) -> bool {
    compare(events, call, memory).is_ok()
}
