// One call of the judge with cards in dirty buffers: its answer, its cards and all cells that it was lent, and some behind them, are held to what must come of
// it. The C function is a straight line of the four functions of `cards` that are called here and in `filled`, with a store for each card.
use crate::filled::{cards_filled, wipe};
use test_calls::buffers::{holds_orders, holds_zeros, lend, soil};
use test_calls::{Answer, Call, Case, Mismatch, Reply, reply_held, reply_of, wanted_of, wanting};
use test_samples::events::lay;
use test_slow::events::Trace;
use test_slow::{Memory, judge_cards};

// What a code and the three values tell, the third of which is the links with every code.
fn reply_of_code(code: u64, values: [u64; 3]) -> Answer {
    let case = match code {
        0 => Case::Clean,
        1 => Case::Race,
        2 => Case::Refused,
        _ => return Err(Mismatch),
    };
    Ok(Reply {
        case,
        a: values[0] as usize,
        b: values[1] as usize,
        links: values[2] as usize,
    })
}

// What the call tells, where the cards are as they must be.
fn counted(
    trace: Trace<'_>,
    ws: &mut [u16],
    first: &mut [u16],
    second: &mut [u16],
    call: Call,
    records: usize,
) -> Answer {
    let mut values = [65535u64; 3];
    let code = cards::judge_counted(
        trace.kinds,
        trace.tasks,
        trace.operands,
        ws,
        first,
        second,
        records,
        &mut values,
    );
    let due = cards::due(code);
    let filled = cards_filled(trace, ws, due, call);
    wipe(ws, due);
    if filled {
        reply_of_code(code, values)
    } else {
        Err(Mismatch)
    }
}

// The call's answer, if it is the wanted one and all cells are as they must be.
fn judged(trace: Trace<'_>, call: Call, records: usize, memory: &Memory) -> Answer {
    let mut ws = [0u16; 45100];
    let mut first = [0u16; 32800];
    let mut second = [0u16; 32800];
    soil(&mut ws, call.sizes.ws, call.salt);
    soil(&mut first, call.sizes.first, call.salt);
    soil(&mut second, call.sizes.second, call.salt);
    let reply = counted(
        trace,
        lend(&mut ws, call.sizes.ws),
        lend(&mut first, call.sizes.first),
        lend(&mut second, call.sizes.second),
        call,
        records,
    )?;
    let zeros = holds_zeros(&ws, call, call.want);
    let orders = holds_orders(&first, &second, call, call.want, memory);
    reply_held(reply, call.want, zeros & orders)
}

// What must come of the call: what is told with it, or else what the slow judge answers.
fn wanted(trace: Trace<'_>, call: Call, records: usize, memory: &mut Memory) -> Reply {
    match call.want.case {
        Case::Slow => wanted_of(
            reply_of(judge_cards(trace, call.sizes, records, memory)),
            call,
        ),
        _ => call.want,
    }
}

// What the judge with cards itself answers on this trace where so many records are lent, if it is what it should.
pub fn compared(trace: Trace<'_>, call: Call, records: usize, memory: &mut Memory) -> Answer {
    let want = wanted(trace, call, records, memory);
    judged(trace, wanting(call, want), records, memory)
}

// The same of a trace of these events. Behind them the slices hold reads of location 0 by task 0.
pub fn compare(events: &[u16], call: Call, records: usize, memory: &mut Memory) -> Answer {
    let mut kinds = [0u8; 32800];
    let mut tasks = [0u16; 32800];
    let mut operands = [0u16; 32800];
    lay(events, &mut kinds, &mut tasks, &mut operands);
    let trace = Trace {
        kinds: &kinds[..call.sizes.kinds.min(32800)],
        tasks: &tasks[..call.sizes.tasks.min(32800)],
        operands: &operands[..call.sizes.operands.min(32800)],
    };
    compared(trace, call, records, memory)
}
