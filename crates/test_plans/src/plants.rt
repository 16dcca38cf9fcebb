// That the comparison can fail: with each wrong rule the slow reader must differ from the fast one, and without it agree.
use crate::compare::{Call, Mismatch, Tally, compare, compare_two};
use crate::meaning;
use crate::recipes::{field, lay, line_of};
use crate::slow_trace::SlowTrace;
use crate::texts::Text;
use crate::want::Cells;
use crate::wrong::Wrong;

// In the reader.
fn reader_differs(text: &[u8], right: Call, plant: Wrong, trace: &mut SlowTrace) -> bool {
    let spoiled = Call {
        plant: Some(plant),
        ..right
    };
    compare(text, right, trace).is_ok() && compare(text, spoiled, trace) == Err(Mismatch)
}

// In what the trace means.
fn meaning_differs(text: &[u8], right: Call, plant: Wrong, trace: &mut SlowTrace) -> bool {
    // Counts that nobody reads.
    let mut tally = Tally::new();
    let Ok(Ok(_)) = compare(text, right, trace) else {
        return false;
    };
    meaning::agrees(text, trace, &mut tally, None)
        && !meaning::agrees(text, trace, &mut tally, Some(plant))
}

fn differs(text: &[u8], right: Call, plant: Wrong, trace: &mut SlowTrace) -> bool {
    match plant {
        Wrong::Exchanged | Wrong::Ordered | Wrong::Parallels => {
            meaning_differs(text, right, plant, trace)
        }
        _ => reader_differs(text, right, plant, trace),
    }
}

// In each line the wrong rule, the room of each slice, and a text at which the rule matters.
const PLANTED: &str = "1 1 1 1 S(r1,w2
1 0 1 1 S(r1,w2)
2 1 1 1 64*S( P
3 0 0 0 S(r1,w2
4 1 1 1 65*P( r1 65*,w2)
5 1 1 1 r01
6 1 1 1 r1024
7 1 1 1 P( 10^P( ,r1)
8 1 1 1 S( 15^S( ,r1)
9 0 1 1 P(r1,w2)
10 1 0 1 P(r1,w2)
11 1 1 0 P(r1,w2)
12 1 1 1 P(P(r1,w2),s3)
13 1 1 1 P(r1,w2)
14 1 1 1 P(P(r1,w2),s3)
15 1 1 1 r1
# a cell of the trace, of a refused text, and behind the trace, in each slice
16 1 1 1 P(r1,w2)
17 1 1 1 P(r1,w2)
18 1 1 1 P(r1,w2)
16 1 1 1 P(r1,w2
17 1 1 1 P(r1,w2
18 1 1 1 P(r1,w2
19 2 2 2 P(r1,w2)
20 2 2 2 P(r1,w2)
21 2 2 2 P(r1,w2)
# what the trace means
22 1 1 1 S(r1,w2)
23 1 1 1 P(r1,r1)
24 1 1 1 S(w1,w1)
24 1 1 1 P(w1,w1)
";

fn rule_differs(text: &mut Text, i: usize, trace: &mut SlowTrace) -> bool {
    let line = line_of(PLANTED, i);
    let number = field(line, 0);
    let Some(plant) = Wrong::numbered(number) else {
        return false;
    };
    let right = Call {
        room: Some(Cells::new(field(line, 1), field(line, 2), field(line, 3))),
        salt: number,
        plant: None,
    };
    lay(text, line, 4);
    differs(text.bytes(), right, plant, trace)
}

// The slow reader is given the operands of an operator exchanged: it takes G2 before G1.
fn exchange_differs(text: &str, other: &str, trace: &mut SlowTrace) -> bool {
    let call = Call {
        room: Some(Cells::new(1, 1, 1)),
        salt: 1,
        plant: None,
    };
    let Ok(Ok(_)) = compare(text.as_bytes(), call, trace) else {
        return false;
    };
    compare_two(text.as_bytes(), other.as_bytes(), call, trace) == Err(Mismatch)
}

// How many there are: those of the table, and the operands of P and of S exchanged.
pub const PLANTS: usize = 31;

pub fn is_noticed(text: &mut Text, i: usize, trace: &mut SlowTrace) -> bool {
    match i {
        29 => exchange_differs("P(r1,w2)", "P(w2,r1)", trace),
        30 => exchange_differs("S(r1,w2)", "S(w2,r1)", trace),
        _ => rule_differs(text, i, trace),
    }
}
