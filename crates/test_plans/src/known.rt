// Texts whose answers are told, those that document 02 tells among them, and those at the limits, each in slices of seven lengths; and three whose traces are
// told.
use crate::compare::{Call, Tally, compare};
use crate::recipes::{field, lay, line_of};
use crate::rows::Row;
use crate::slow_trace::SlowTrace;
use crate::texts::Text;
use crate::want::{Answer, Cells};
use trace::Refusal;

// ---- answers

// How many texts there are, and in how many rooms each is read.
pub const TEXTS: usize = 86;

pub const ROOMS: usize = 7;

// More cells than needed, exactly enough, one too few in each slice, none in each, and one too few in all.
fn room_of(i: usize) -> Option<Cells> {
    match i {
        0 => Some(Cells::new(2, 4, 3)),
        1 => Some(Cells::new(1, 1, 1)),
        2 => Some(Cells::new(0, 1, 2)),
        3 => Some(Cells::new(2, 0, 1)),
        4 => Some(Cells::new(1, 2, 0)),
        5 => None,
        _ => Some(Cells::new(0, 0, 0)),
    }
}

// Too few cells refuse what would be accepted.
fn told_in(told: Answer, room: usize) -> Answer {
    if 1 < room && told.is_ok() {
        return Err(Row::LargePlan.at(0));
    }
    told
}

fn text_agrees(
    text: &[u8],
    told: Answer,
    room: usize,
    trace: &mut SlowTrace,
    tally: &mut Tally,
) -> bool {
    let call = Call {
        room: room_of(room),
        salt: room,
        plant: None,
    };
    let answer = compare(text, call, trace);
    tally.agreed(answer) && answer == Ok(told_in(told, room))
}

// The row that is met and its position, or 0 and the number of events.
fn told_of(line: &str) -> Answer {
    let number = field(line, 0);
    let position = field(line, 1);
    if number == 0 {
        Ok(position)
    } else {
        Err(Refusal { number, position })
    }
}

// In each line the answer, and the text as a recipe.
const ANSWERS: &str = "0 6 S(w3,P(r3,r3))
0 1 r0
0 1 w1023
0 1 s10
0 2 S(r1,w2)
0 5 P(r1,w2)
# locations
17 1 r
17 2 r3~
17 2 r01
17 2 r00
17 4 r1024
17 4 r9999
17 4 w1030
17 5 s10231
17 1 r-1
17 1 r+1
17 1 r_1
17 0 _r1
17 2 r1_
17 2 r1\0
# letters and marks
17 0 
17 0 R1
17 0 7
17 2 r1r1
17 2 r1,r1
17 2 r1)
17 0 (r1,r1)
17 0 !
17 1 S
17 1 Sr1
17 1 s(r1,r1)
17 1 S[r1,r1]
17 2 S(
17 2 S()
17 2 S(,r1)
17 3 P(r
17 4 P(r1
17 4 P(r1)
17 4 P(r1;r1)
17 4 P(r1_,r1)
17 5 P(r1,
17 5 P(r1,)
17 5 P(r1,_r1)
17 7 P(r1,r1
17 7 P(r1,r1,
17 7 P(r1,r1]
17 8 P(r1,r1))
17 8 P(r1,r1),
17 4 S(w3)P(r3,r3)
17 13 S(w3,P(r3,r3)
17 14 S(w3,P(r3,r3))~
# 64 levels, and 65
0 65 64*S( w2 64*,r1)
0 257 64*P( w2 64*,r1)
0 65 64*S(r1, w2 64*)
0 257 64*P(r1, w2 64*)
0 161 32*S( 32*P( w2 64*,r1)
18 128 65*S( w2 65*,r1)
18 128 65*P( w2 65*,r1)
18 320 65*S(r1, w2 65*)
18 320 65*P(r1, w2 65*)
18 128 32*S( 33*P( w2 65*,r1)
# the letter of level 65, and of level 64, with nothing behind it, or no bracket
18 128 64*S( S
18 128 64*P( P
18 320 64*S(r1, P
18 320 64*P(r1, S
18 128 64*S( Px
18 320 64*P(r1, S,
17 127 63*S( S
17 127 63*S( Px
17 316 63*P(r1, S
# 64 levels, and no plan in them, or a bracket less, or more
17 128 64*S(
17 128 64*P( )
17 320 64*S(r1, ,
17 382 64*S( w2 63*,r1)
17 386 64*P( w2 64*,r1) )
# 1,023 and 1,024 P's, and 1,024 before a bad byte
0 4093 10^P(
19 0 P( 10^P( ,r1)
17 6145 P( 10^P( ,r1]
# 32,768 and 32,769 events, without P's and with 1,023
0 32768 15^S(
19 0 S( 15^S( ,r1)
0 32768 S( 14^S( ,S( 13^S( ,S( 12^S( ,S(S(r1,S(r1,r1)), 10^P( 4*)
19 0 S( 14^S( ,S( 13^S( ,S( 12^S( ,S(S(S(r1,r1),S(r1,r1)), 10^P( 4*)
# 40,960 events, and with a bad byte at the end, or none, and level 65 behind 32,768
19 0 S( 15^S( , 13^S( )
17 245755 S( 15^S( , 13^S( x
17 245755 S( 15^S( , 13^S(
18 196733 S( 15^S( , 63*P( S
";

// The i-th of the texts, each in all rooms.
pub fn answer_agrees(text: &mut Text, i: usize, trace: &mut SlowTrace, tally: &mut Tally) -> bool {
    let line = line_of(ANSWERS, i / ROOMS);
    lay(text, line, 2);
    text_agrees(text.bytes(), told_of(line), i % ROOMS, trace, tally)
}

// ---- traces

// Three digits of each event are told: its kind, task and operand.
fn event_told(trace: &SlowTrace, p: usize, told: &str) -> bool {
    let Some(event) = trace.event_at(p) else {
        return false;
    };
    match told.as_bytes() {
        [kind, task, operand] => {
            usize::from(event.kind) + 48 == usize::from(*kind)
                && usize::from(event.task) + 48 == usize::from(*task)
                && usize::from(event.operand) + 48 == usize::from(*operand)
        }
        _ => false,
    }
}

fn trace_told(text: &[u8], told: &str, trace: &mut SlowTrace, tally: &mut Tally) -> bool {
    let events = told.split(' ').count();
    if !text_agrees(text, Ok(events), 0, trace, tally) {
        return false;
    }
    for (p, event) in told.split(' ').enumerate() {
        if !event_told(trace, p, event) {
            return false;
        }
    }
    true
}

pub const TRACES: usize = 3;

pub fn trace_agrees(i: usize, trace: &mut SlowTrace, tally: &mut Tally) -> bool {
    let (text, told) = match i {
        0 => ("S(w3,P(r3,r3))", "103 201 013 410 003 301"),
        1 => (
            "P(P(P(r1,w2),s3),r4)",
            "201 212 223 031 432 122 323 421 513 312 410 004 301",
        ),
        _ => ("P(r1,P(w2,s3))", "201 011 410 202 122 420 503 302 301"),
    };
    trace_told(text.as_bytes(), told, trace, tally)
}
