// The size checks, rows 1 to 4: every call over a whole trace begins with `check_sizes`, or with `check_buffers` where it has order buffers.
#![tactic(auto)]

ghost use Rattle.std.specs.Prelude.{◌≡◌, length};
ghost use Rattle.trace.specs.Line.{passes};
ghost use Rattle.trace.specs.Outcome.{sizes, order_room};
ghost use Rattle.sizes.specs.Rows.{checked};

use trace::{MAX_EVENTS, Row};

// "at least 12,288 cells more than the trace has events"
pub const WORKSPACE_CELLS: usize = 12288;

// Rows 1 to 3.
pub fn check_sizes(kinds: &[u8], tasks: &[u16], operands: &[u16], ws: &[u16]) -> Result<(), Row>
    ensures { checked (length kinds.now) result ≡ sizes kinds.now tasks.now operands.now ws.now }
{
    let n = kinds.len();
    if tasks.len() != n {
        return Err(Row::UnequalSlices);
    }
    if operands.len() != n {
        return Err(Row::UnequalSlices);
    }
    if MAX_EVENTS < n {
        return Err(Row::ManyEvents);
    }
    if ws.len() < WORKSPACE_CELLS + n {
        return Err(Row::ShortWorkspace);
    }
    Ok(())
}

// Row 4, for a trace of n events.
fn check_orders(n: usize, first: &[u16], second: &[u16]) -> Result<(), Row>
    ensures { checked n result ≡ order_room first.now second.now (passes n) }
{
    if first.len() < n {
        return Err(Row::ShortOrders);
    }
    if second.len() < n {
        return Err(Row::ShortOrders);
    }
    Ok(())
}

// Rows 1 to 4.
pub fn check_buffers(
    kinds: &[u8],
    tasks: &[u16],
    operands: &[u16],
    ws: &[u16],
    first: &[u16],
    second: &[u16],
) -> Result<(), Row>
    ensures { checked (length kinds.now) result ≡ order_room first.now second.now
        (sizes kinds.now tasks.now operands.now ws.now) }
{
    check_sizes(kinds, tasks, operands, ws)?;
    check_orders(kinds.len(), first, second)
}
