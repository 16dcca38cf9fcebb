// Traces that have all 1,024 tasks in the line at once, of few enough events for the slow judge.
use crate::large::put_one;
use test_samples::events::Kind;

// Each task forks the next, and the last one writes location 6. All but task 0 halt, and task 0 reads the location: the events 1,023 and 2,047 race.
pub fn lay_nest(events: &mut [u16]) {
    for k in 0..1023 {
        put_one(events, k, k, Kind::Fork, k + 1);
        put_one(events, 1024 + k, 1023 - k, Kind::Halt, 1022 - k);
    }
    put_one(events, 1023, 1023, Kind::Write, 6);
    put_one(events, 2047, 0, Kind::Read, 6);
}

// Task 0 forks all others. Each has an access of this kind to location 6 and halts, and the next is forked. Then task 0 joins them, the last one first, and has
// an access to the location, of kind `last`.
pub fn lay_row(events: &mut [u16], kind: Kind, last: Kind) {
    for k in 1..1024 {
        put_one(events, 3 * k - 3, 0, Kind::Fork, k);
        put_one(events, 3 * k - 2, k, kind, 6);
        put_one(events, 3 * k - 1, k, Kind::Halt, 0);
        put_one(events, 4092 - k, 0, Kind::Join, k);
    }
    put_one(events, 4092, 0, last, 6);
}

// Puts the last two of these joins in the wrong order.
pub fn swap_joins(events: &mut [u16]) {
    put_one(events, 4090, 0, Kind::Join, 1);
    put_one(events, 4091, 0, Kind::Join, 2);
}

// Puts a read of the location by task 0 in place of the first of these joins.
pub fn read_early(events: &mut [u16]) {
    put_one(events, 3069, 0, Kind::Read, 6);
}
