// Cards written out by hand, to which the slow ones are held.
use test_calls::Case;
use test_calls::table::read_rows;
use test_cells::get;
use test_outcome::{Outcome, try_rows};
use test_slow::card::{Card, card_of};
use test_slow::events::Trace;

const CELLS: usize = 8;

// Of each card: of how many of the events; its location; reads, writes, sums, first and last position; and whether it is told right. Answers how many cards
// there are, as read_rows does.
fn read_cards(cells: &mut [u16]) -> Option<usize> {
    read_rows(
        "
# no access, the first, and one more each time
0 5 0 0 0 65535 65535 YES
1 5 0 0 0 65535 65535 YES
2 5 0 1 0 1 1 YES
3 5 1 1 0 1 2 YES
4 5 1 2 0 1 3 YES
10 5 1 3 0 1 9 YES
11 5 1 3 1 1 10 YES
15 5 1 3 2 1 11 YES
16 5 2 3 2 1 15 YES
# a location with sums alone, by three tasks
4 7 0 0 0 65535 65535 YES
5 7 0 0 1 4 4 YES
13 7 0 0 2 4 12 YES
15 7 0 0 3 4 14 YES
# the last location; the operands of forks, joins and halts are none
15 1023 1 0 0 7 7 YES
15 0 0 0 0 65535 65535 YES
15 1 0 0 0 65535 65535 YES
15 2 0 0 0 65535 65535 YES
# each field told wrong, and the marker
15 5 2 3 2 1 11 NO
15 5 1 2 2 1 11 NO
15 5 1 3 3 1 11 NO
15 5 1 3 2 2 11 NO
15 5 1 3 2 1 12 NO
15 0 0 0 0 0 65535 NO
15 0 0 0 0 65535 0 NO
15 0 0 0 0 65534 65534 NO
# sums left out: of the whole card, of their number, of the last position, of both positions
15 7 0 0 0 65535 65535 NO
15 5 1 3 0 1 11 NO
15 5 1 3 2 1 9 NO
15 7 0 0 3 65535 65535 NO
# sums counted as writes, as reads
15 5 1 5 0 1 11 NO
15 5 3 3 0 1 11 NO
",
        cells,
        CELLS,
    )
}

// The slow card of a location, of the first n events of `plants`: here their kinds and operands.
fn slow_card(n: usize, l: usize) -> Card {
    let kinds = [2u8, 1, 0, 1, 5, 4, 3, 0, 2, 1, 5, 5, 5, 4, 5, 0];
    let operands = [1u16, 5, 5, 5, 7, 0, 1, 1023, 2, 5, 5, 5, 7, 0, 7, 5];
    let k = n.min(16);
    let trace = Trace {
        kinds: &kinds[..k],
        tasks: &[],
        operands: &operands[..k],
    };
    card_of(trace, l)
}

fn row_agrees(cells: &[u16], row: usize) -> bool {
    let at = (row % 65536) * CELLS;
    let told_at = |i: usize| get(cells, at.wrapping_add(i));
    let told = Card {
        reads: told_at(2),
        writes: told_at(3),
        sums: told_at(4),
        first: told_at(5),
        last: told_at(6),
    };
    let right = Case::of(told_at(7)) == Some(Case::Yes);
    (slow_card(told_at(0), told_at(1)) == told) == right
}

pub fn try_all() -> Outcome {
    let mut cells = [0u16; 256];
    let rows = read_cards(&mut cells);
    try_rows(rows, |row| row_agrees(&cells, row))
}
