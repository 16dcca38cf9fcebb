// The slow trace of a plan. Its events stand in the order of the text: a leaf is an access, the letter of P a fork, its comma the child's halt, and its
// closing bracket the join.
use crate::letters::{byte_at, extend};
use crate::spans::{around, comma_of};
use crate::wrong::Wrong;
use test_slow::events::Kind;
use trace::Event;

// The places of a P's letter and of its comma.
#[derive(Clone, Copy)]
struct Fork {
    letter: usize,
    comma: usize,
}

// An event, and the place of the byte that it comes from.
#[derive(Clone, Copy)]
pub struct Placed {
    pub event: Event,
    pub place: usize,
}

const FORKS: usize = 2048;

const EVENTS: usize = 32800;

#[derive(Drop)]
pub struct SlowTrace {
    forks: [Fork; FORKS],
    fork_count: usize,
    events: [Placed; EVENTS],
    count: usize,
}

fn make_event(kind: Kind, task: usize, operand: usize) -> Event {
    Event {
        kind: kind as u8,
        task: (task % 65536) as u16,
        operand: (operand % 65536) as u16,
    }
}

// The number behind a letter.
pub fn location_of(text: &[u8], letter: usize) -> usize {
    let mut value = 0;
    for at in letter.wrapping_add(1)..text.len() {
        let byte = text[at];
        if !byte.is_ascii_digit() {
            return value;
        }
        value = extend(value, byte);
    }
    value
}

// Where a child has its number late, the first two tasks have each other's.
fn named(number: usize, plant: Option<Wrong>) -> usize {
    match number {
        1 if plant == Some(Wrong::Late) => 2,
        2 if plant == Some(Wrong::Late) => 1,
        _ => number,
    }
}

impl SlowTrace {
    pub fn new() -> SlowTrace {
        let fork = Fork {
            letter: 0,
            comma: 0,
        };
        let placed = Placed {
            event: make_event(Kind::Read, 0, 0),
            place: 0,
        };
        SlowTrace {
            forks: [fork; FORKS],
            fork_count: 0,
            events: [placed; EVENTS],
            count: 0,
        }
    }

    pub fn event_at(&self, p: usize) -> Option<Event> {
        self.events.get(p).map(|placed| placed.event)
    }

    // The place of the byte that event p comes from, or 0 where there is none.
    pub fn place_of(&self, p: usize) -> usize {
        self.events.get(p).map_or(0, |placed| placed.place)
    }

    // ---- tasks

    // "Tasks are numbered 1, 2, 3 in fork order": in the order of their P's letters.
    fn list_forks(&mut self, text: &[u8]) {
        self.fork_count = 0;
        for (letter, byte) in text.iter().enumerate() {
            if *byte == b'P' && self.fork_count < FORKS {
                self.forks[self.fork_count] = Fork {
                    letter,
                    comma: comma_of(text, letter),
                };
                self.fork_count += 1;
            }
        }
    }

    // "P forks a task for G1, goes on with G2": the task at a place is that of the last P before it whose comma stands behind it, or else 0.
    fn task_at(&self, place: usize) -> usize {
        for number in (0..self.fork_count.min(FORKS)).rev() {
            let fork = self.forks[number];
            if fork.letter < place && place < fork.comma {
                return number.wrapping_add(1);
            }
        }
        0
    }

    fn actor(&self, place: usize, plant: Option<Wrong>) -> usize {
        named(self.task_at(place), plant)
    }

    // ---- events

    fn access(&self, text: &[u8], kind: Kind, at: usize, plant: Option<Wrong>) -> Event {
        make_event(kind, self.actor(at, plant), location_of(text, at))
    }

    fn fork(&self, at: usize, plant: Option<Wrong>) -> Event {
        let child = self.actor(at.wrapping_add(1), plant);
        make_event(Kind::Fork, self.actor(at, plant), child)
    }

    // The halt at the comma and the join at the bracket of a P, if it is one's. "A halt's operand now names the task that resumes".
    fn mark(&self, text: &[u8], at: usize, plant: Option<Wrong>) -> Option<Event> {
        let letter = around(text, at, 0);
        if byte_at(text, letter) != b'P' {
            return None;
        }
        let child = self.actor(letter.wrapping_add(1), plant);
        let parent = self.actor(at, plant);
        if byte_at(text, at) == b',' {
            let spoiled = plant == Some(Wrong::Zero);
            return Some(make_event(Kind::Halt, child, if spoiled { 0 } else { parent }));
        }
        if plant == Some(Wrong::NoJoin) {
            return None;
        }
        Some(make_event(Kind::Join, parent, child))
    }

    fn event_of(&self, text: &[u8], at: usize, plant: Option<Wrong>) -> Option<Event> {
        match byte_at(text, at) {
            b'r' => Some(self.access(text, Kind::Read, at, plant)),
            b'w' => Some(self.access(text, Kind::Write, at, plant)),
            b's' => Some(self.access(text, Kind::Sum, at, plant)),
            b'P' => Some(self.fork(at, plant)),
            b',' | b')' => self.mark(text, at, plant),
            _ => None,
        }
    }

    fn store(&mut self, event: Event, place: usize) {
        if self.count < EVENTS {
            self.events[self.count] = Placed { event, place };
            self.count += 1;
        }
    }

    // The trace of a text that is a plan's. Answers the number of events.
    pub fn lay(&mut self, text: &[u8], plant: Option<Wrong>) -> usize {
        self.list_forks(text);
        self.count = 0;
        for at in 0..text.len() {
            if let Some(event) = self.event_of(text, at, plant) {
                self.store(event, at);
            }
        }
        self.count
    }
}
