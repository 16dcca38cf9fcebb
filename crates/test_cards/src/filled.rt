// The cards, off the tables that the judge filled: each is held to the slow card of its location.
use test_calls::{Buffer, Call, Case, Plant};
use test_slow::card::{Card, card_of};
use test_slow::events::Trace;

// "1,024 records"
const LOCATIONS: usize = 1024;

// The cells that a workspace must have for cards to be read off it. Past row 3 each has so many, and the tables of the cards are among them.
const TABLES: usize = 12288;

fn seen(card: cards::Card) -> Card {
    Card {
        reads: card.reads.into(),
        writes: card.writes.into(),
        sums: card.sums.into(),
        first: card.first.into(),
        last: card.last.into(),
    }
}

// The number that is expected in a field of the card at a location: the right one, or one more where that is planted.
fn expected_in(right: usize, field: Buffer, l: usize, plant: Option<Plant>) -> usize {
    let here = Plant {
        buffer: field,
        cell: l,
    };
    right.wrapping_add((plant == Some(here)).into())
}

// The card that is expected at a location.
fn expected(right: Card, l: usize, plant: Option<Plant>) -> Card {
    Card {
        reads: expected_in(right.reads, Buffer::Reads, l, plant),
        writes: expected_in(right.writes, Buffer::Writes, l, plant),
        sums: expected_in(right.sums, Buffer::Sums, l, plant),
        first: expected_in(right.first, Buffer::Earliest, l, plant),
        last: expected_in(right.last, Buffer::Latest, l, plant),
    }
}

fn card_agrees(trace: Trace<'_>, ws: &[u16], l: usize, plant: Option<Plant>) -> bool {
    if LOCATIONS <= l {
        return false;
    }
    if ws.len() < TABLES {
        return false;
    }
    seen(cards::card_of(ws, l)) == expected(card_of(trace, l), l, plant)
}

// Whether so many cards are due as must be, and each of them is the slow one: "After a clean verdict" all, and "Other verdicts leave the cards unchanged."
pub fn cards_filled(trace: Trace<'_>, ws: &[u16], due: usize, call: Call) -> bool {
    let right: usize = match call.want.case {
        Case::Clean => LOCATIONS,
        _ => 0,
    };
    let planted = call.plant.is_some_and(|plant| plant.buffer == Buffer::Due);
    due == right.wrapping_add(planted.into())
        && (0..due).all(|l| card_agrees(trace, ws, l, call.plant))
}

// Clears the tables where cards were due.
pub fn wipe(ws: &mut [u16], due: usize) {
    if due == 0 {
        cards::wipe(ws, 0);
        return;
    }
    if LOCATIONS < due {
        return;
    }
    if TABLES <= ws.len() {
        cards::wipe(ws, due);
    }
}
