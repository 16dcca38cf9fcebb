// The buffers that a call is lent: dirty before it, and afterwards held to what the call must leave, with some cells behind those that are lent.
use crate::{Buffer, Call, Case, Reply};
use test_slow::{Memory, ROOM};

// Cells behind those that are lent, which must stay as they are.
pub const SPARE: usize = 8;

// What a cell holds before a call: of four kinds of dirt by the salt, from flags to numbers of any size.
fn dirt(i: usize, salt: usize) -> u16 {
    let x = (i % 65536) * 40503 + salt % 65536;
    match salt % 4 {
        0 => (x % 2) as u16,
        1 => (x % 1025) as u16,
        2 => 65535,
        _ => (x % 65536) as u16,
    }
}

// So many cells of a buffer, or all where there are fewer.
pub fn lend(cells: &mut [u16], lent: usize) -> &mut [u16] {
    let n = lent.min(cells.len());
    &mut cells[..n]
}

// Fills the lent cells, and some behind them.
pub fn soil(cells: &mut [u16], lent: usize, salt: usize) {
    for (i, cell) in cells.iter_mut().take(lent.wrapping_add(SPARE)).enumerate() {
        *cell = dirt(i, salt);
    }
}

// How many cells of a buffer are lent.
fn lent(call: Call, buffer: Buffer) -> usize {
    match buffer {
        Buffer::Workspace => call.sizes.ws,
        Buffer::First => call.sizes.first,
        Buffer::Second => call.sizes.second,
        _ => call.sizes.operands,
    }
}

// Whether the lent cells of a buffer, and some behind them, are as expected: as they must be, but for one that may be expected wrong.
fn holds<F: Fn(usize) -> u16>(cells: &[u16], call: Call, buffer: Buffer, right: F) -> bool
    requires { F.IsAlwaysCallable right }
{
    let wrong = call.plant.filter(|plant| plant.buffer == buffer);
    cells
        .iter()
        .take(lent(call, buffer).wrapping_add(SPARE))
        .enumerate()
        .all(|(i, cell)| {
            let planted = wrong.is_some_and(|plant| plant.cell == i);
            *cell == right(i).wrapping_add(planted.into())
        })
}

// Whether the workspace is as the call must leave it.
pub fn holds_zeros(ws: &[u16], call: Call, want: Reply) -> bool {
    let zeros = test_slow::cleared(want.row(), call.sizes.kinds);
    holds(ws, call, Buffer::Workspace, |i| {
        if i < zeros { 0 } else { dirt(i, call.salt) }
    })
}

// Whether a buffer is as the call must leave it: with these cells first, and dirty behind them.
fn holds_cells(cells: &[u16], call: Call, buffer: Buffer, first: &[u16]) -> bool {
    holds(cells, call, buffer, |i| {
        first.get(i).copied().unwrap_or(dirt(i, call.salt))
    })
}

// Whether two buffers are as a call must leave them: their first n cells are those of the memory.
pub fn holds_both(first: &[u16], second: &[u16], call: Call, n: usize, memory: &Memory) -> bool {
    let n = n.min(ROOM);
    holds_cells(first, call, Buffer::First, &memory.first[..n])
        & holds_cells(second, call, Buffer::Second, &memory.second[..n])
}

// Whether the order buffers are as the judge must leave them: after a race at t each has its order in t + 1 cells.
pub fn holds_orders(
    first: &[u16],
    second: &[u16],
    call: Call,
    want: Reply,
    memory: &Memory,
) -> bool {
    let n = match want.case {
        Case::Race => want.b.wrapping_add(1),
        _ => 0,
    };
    holds_both(first, second, call, n, memory)
}

// Whether the operands are as the conversion must leave them: these, with some behind those that are lent.
pub fn holds_operands(operands: &[u16], call: Call, wanted: &[u16]) -> bool {
    holds_cells(operands, call, Buffer::Operands, wanted)
}
