// Events as three cells each: the task, the kind and the operand, as document 01 writes them: `0 fork 1`. So the tables of the tests, which are read as cells,
// hold events too.
use test_cells::{get, put};
pub use test_slow::events::{Event, Kind, UnknownKind};

// Where event p stands.
fn place(p: usize) -> usize {
    (p % 65536) * 3
}

pub fn event_at(events: &[u16], p: usize) -> Event {
    let at = place(p);
    let byte = get(events, at.wrapping_add(1)) % 256;
    Event {
        task: get(events, at),
        kind: Kind::try_from(byte as u8),
        operand: get(events, at.wrapping_add(2)),
    }
}

pub fn put_event(events: &mut [u16], p: usize, event: Event) {
    let at = place(p);
    put(events, at, event.task);
    put(events, at.wrapping_add(1), event.byte().into());
    put(events, at.wrapping_add(2), event.operand);
}

// Lays all the events out as a trace.
pub fn lay(events: &[u16], kinds: &mut [u8], tasks: &mut [u16], operands: &mut [u16]) {
    for p in 0..events.len() / 3 {
        let event = event_at(events, p);
        put(kinds, p, event.byte().into());
        put(tasks, p, event.task);
        put(operands, p, event.operand);
    }
}
