// Damage to one event of a trace, so that it meets a row of document 01's table.
use crate::draws::{below, next};
use crate::events::{Event, Kind, event_at, put_event};
use crate::growth::kind_of;
use test_slow::rows::Row;

// The rows that one event can be made to meet.
const ROWS: [Row; 8] = [
    Row::UnknownKind,
    Row::Ended,
    Row::NotRunning,
    Row::UnknownLocation,
    Row::UnknownTask,
    Row::UsedTask,
    Row::NotLeft,
    Row::NotResumed,
];

// The least number that is too large, or another up to the largest.
fn too_large(least: usize, largest: usize, seed: usize) -> usize {
    if below(seed, 3) == 0 {
        return least;
    }
    let more = largest.wrapping_sub(least).wrapping_add(1);
    least.wrapping_add(below(next(seed), more))
}

// What a halt names that is to name the task that resumes: task 0, which is at the bottom of the stack; itself; a task that has acted; or no task at all.
fn misnamed(task: usize, used: usize, seed: usize) -> usize {
    match below(seed, 4) {
        0 => 0,
        1 => task,
        2 => used,
        _ => too_large(1024, 65535, next(seed)),
    }
}

// The event with a kind that there is not.
fn unkind(event: Event, seed: usize) -> Event {
    let byte = too_large(6, 255, seed) % 256;
    Event {
        kind: Kind::try_from(byte as u8),
        ..event
    }
}

// The event as it meets the row, but for what it names by chance. `used` is the number of a task that has acted.
fn damaged(event: Event, row: Row, used: usize, seed: usize) -> Event {
    let task = event.task;
    match row {
        Row::UnknownKind => unkind(event, seed),
        Row::Ended => Event::new(0, Kind::Halt, 0),
        Row::NotRunning => Event {
            task: below(seed, 1100),
            ..event
        },
        Row::UnknownLocation => {
            let kind = kind_of(5, 6, seed);
            Event::new(task, kind, too_large(1024, 65535, next(seed)))
        }
        Row::UnknownTask => Event::new(task, Kind::Fork, too_large(1024, 65535, seed)),
        Row::UsedTask => Event::new(task, Kind::Fork, used),
        Row::NotLeft => Event::new(task, Kind::Join, below(seed, 1100)),
        _ => Event::new(task, Kind::Halt, misnamed(task, used, next(seed))),
    }
}

// Whether an event suits the damage: for row 6 one of task 0, which becomes its halt; for row 12 a halt that names another task than 0; for the others any.
fn suits(event: Event, row: Row) -> bool {
    match row {
        Row::Ended => event.task == 0,
        Row::NotResumed => event.is(Kind::Halt) && event.operand != 0,
        _ => true,
    }
}

// Makes event p meet the row, if the events before it fail in nothing: or the first from p on that suits it, if there is one.
fn spoil_at(events: &mut [u16], n: usize, p: usize, row: Row, seed: usize) {
    let at = (p..n)
        .find(|i| suits(event_at(events, *i), row))
        .unwrap_or(p);
    let used = event_at(events, below(seed, p.wrapping_add(1))).task;
    let event = event_at(events, at);
    put_event(events, at, damaged(event, row, used, seed));
}

// Damages one of n events, in half of the cases one of the first 20.
pub fn spoil(events: &mut [u16], n: usize, seed: usize) {
    let b = next(seed);
    let c = next(b);
    let most = if below(seed, 2) == 0 { n } else { n.min(20) };
    spoil_at(events, n, below(b, most), ROWS[below(c, 8)], next(c));
}
