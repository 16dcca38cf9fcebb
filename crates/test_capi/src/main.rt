// The C functions as a caller sees them, by the places of their parameters: contracts go by names, and would not tell two that are exchanged. Each call is
// written from `include/racejudge.h`, with kinds and codes in numbers, as a C program has them. The C and Rust tests call `racejudge_judge_cards`.
#![tactic(auto)]

ghost use Rattle.std.specs.Prelude.{◌<◌};

use std::io;
use test_outcome::{all_agree, with};

const CELLS: usize = 12295;

const SHORT_CELLS: usize = 12290;

// 0 fork 2, 2 halt, 0 join 2, then document 01's example: 0 fork 1, 1 write 5, 1 halt, 0 read 5. "race 1 3" is race 4 6 behind them, with 1 link, from 2 to 0;
// the orders end 4 6 5 and 6 4 5.
fn judge_agrees() -> bool {
    let kinds = [2u8, 4, 3, 2, 1, 4, 0];
    let tasks = [0u16, 2, 0, 0, 1, 1, 0];
    let operands = [2u16, 0, 2, 1, 5, 0, 5];
    let mut ws = [9u16; CELLS];
    let mut first = [9u16; 7];
    let mut second = [9u16; 7];
    let mut values = [9u64; 3];
    let code = capi::racejudge_judge(
        &kinds,
        &tasks,
        &operands,
        &mut ws,
        &mut first,
        &mut second,
        &mut values,
    );
    let told = code == 1 && values == [4, 6, 1];
    told && first == [0, 1, 2, 3, 4, 6, 5] && second == [0, 1, 2, 3, 6, 4, 5]
}

// What the ordering call returns for p and q of document 01's example.
fn order(p: usize, q: usize) -> u64 {
    let kinds = [2u8, 1, 4, 0];
    let tasks = [0u16, 1, 1, 0];
    let operands = [1u16, 5, 0, 5];
    let mut ws = [9u16; CELLS];
    let mut values = [9u64; 2];
    capi::racejudge_ordering(&kinds, &tasks, &operands, &mut ws, p, q, &mut values)
}

// The fork reaches the read, and not the other way round.
fn ordering_agrees() -> bool {
    order(0, 3) == 1 && order(3, 0) == 0
}

// 0 fork 1, 1 write 5, 1 fork 2; then a line of task 0, before which two halts are put in: 2 halt 1, 1 halt 0, 0 read 5.
fn translate_agrees() -> bool {
    let mut kinds = [9u8; 2048];
    let mut tasks = [9u16; 2048];
    let mut operands = [9u16; 2048];
    let mut values = [9u64; 2];
    let code = capi::racejudge_translate(
        b"T0|fork(T1)|10\nT1|w(V5)|20\nT1|fork(T2)|30\nT0|r(V5)|40\n",
        &mut kinds,
        &mut tasks,
        &mut operands,
        &mut values,
    );
    let told = code == 0 && values == [6, 0];
    let first = (kinds[0], tasks[0], operands[0]) == (2, 0, 1);
    let second = (kinds[1], tasks[1], operands[1]) == (1, 1, 5);
    let halt = (kinds[3], tasks[3], operands[3]) == (4, 2, 1);
    let last_halt = (kinds[4], tasks[4], operands[4]) == (4, 1, 0);
    told && first && second && halt && last_halt
}

// What the conversion of a stored trace tells, and leaves in the operands and the first cell of a workspace of N: 0 fork 1, 1 fork 2, 2 halt.
fn converted<const N: usize>() -> (u64, [u64; 2], [u16; 3], u16)
    requires { (0 < N) × (N < 65536) }
{
    let kinds = [2u8, 2, 4];
    let tasks = [0u16, 1, 2];
    let mut operands = [1u16, 2, 0];
    let mut ws = [9u16; N];
    let mut values = [9u64; 2];
    let code = capi::racejudge_convert(&kinds, &tasks, &mut operands, &mut ws, &mut values);
    (code, values, operands, ws[0])
}

// The halt gets 1.
fn convert_agrees() -> bool {
    converted::<CELLS>() == (0, [0, 0], [1, 2, 1], 0)
}

// In a workspace that is a cell too short: 3 at 0, and nothing is set.
fn short_convert_agrees() -> bool {
    converted::<SHORT_CELLS>() == (2, [3, 0], [1, 2, 0], 9)
}

// `P(r7,s9)`: 0 fork 1, 1 read 7, 1 halt, 0 sum 9, 0 join 1. Slices of three lengths, whose last cells stay.
fn plan_agrees() -> bool {
    let mut kinds = [9u8; 6];
    let mut tasks = [9u16; 7];
    let mut operands = [9u16; 5];
    let mut values = [9u64; 2];
    let code = capi::racejudge_plan(
        b"P(r7,s9)",
        &mut kinds,
        &mut tasks,
        &mut operands,
        &mut values,
    );
    let told = code == 0 && values == [5, 0];
    told && kinds == [2, 0, 4, 5, 3, 9]
        && tasks == [0, 1, 1, 0, 0, 9, 9]
        && operands == [1, 7, 0, 9, 1]
}

// `P(r7,` breaks off: 17 at 5.
fn broken_plan_agrees() -> bool {
    let mut kinds = [9u8; 6];
    let mut tasks = [9u16; 6];
    let mut operands = [9u16; 6];
    let mut values = [9u64; 2];
    let code = capi::racejudge_plan(b"P(r7,", &mut kinds, &mut tasks, &mut operands, &mut values);
    code == 2 && values == [17, 5] && kinds == [9; 6]
}

// What the call for pairs tells, and leaves in the first cell of the workspace, in a slice of three cells and in one of N: 0 fork 2, 2 write 5, 2 halt, 0 fork 1,
// 1 write 5, 1 halt, 0 read 5.
fn listed<const N: usize>() -> (u64, [u64; 2], u16, [u16; 3], [u16; N])
    requires { N < 65536 }
{
    let kinds = [2u8, 1, 4, 2, 1, 4, 0];
    let tasks = [0u16, 2, 2, 0, 1, 1, 0];
    let operands = [2u16, 5, 0, 1, 5, 0, 5];
    let mut ws = [9u16; CELLS];
    let mut earlier = [9u16; 3];
    let mut later = [9u16; N];
    let mut values = [9u64; 2];
    let code = capi::racejudge_pairs(
        &kinds,
        &tasks,
        &operands,
        &mut ws,
        &mut earlier,
        &mut later,
        &mut values,
    );
    (code, values, ws[0], earlier, later)
}

// The pairs 1 4, 1 6 and 4 6.
fn pairs_agree() -> bool {
    listed::<4>() == (0, [3, 0], 0, [1, 1, 4], [4, 6, 6, 9])
}

// A slice of two cells is too short: 20 at 0, and nothing is written.
fn short_pairs_agree() -> bool {
    listed::<2>() == (2, [20, 0], 0, [9, 9, 9], [9, 9])
}

fn main(rt: HostRuntime) -> io::Result<()> {
    let tries = [
        judge_agrees(),
        ordering_agrees(),
        translate_agrees(),
        plan_agrees(),
        broken_plan_agrees(),
        convert_agrees(),
        short_convert_agrees(),
        pairs_agree(),
        short_pairs_agree(),
    ];
    all_agree(
        &rt,
        "C functions by the places of their parameters: ",
        tries
            .iter()
            .fold(Ok(0), |before, agrees| with(before, *agrees)),
    )?;
    Ok(())
}
