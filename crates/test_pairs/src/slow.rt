// What must come of a call for the pairs: document 02's K7 taken at its word, on the slow list, with no part of the fast one. It goes the wrong ways of that list
// too.
use test_calls::{Call, Case, Reply};
use test_slow::close::Way;
use test_slow::events::Trace;
use test_slow::rows::{Refusal, Row};
use test_slow::rules::Halts;
use test_slow::{Memory, Sizes, check};

// What is known before the slices for the pairs are looked at: why the trace is refused, if it is; and how many pairs there are, of a trace that breaks a rule
// before that event.
#[derive(Clone, Copy)]
pub struct Found {
    pub kept: Result<(), Refusal>,
    pub pairs: usize,
}

// Finds it, and puts the pairs. Of more events than the slow judge takes it is told how many pairs there are, and the caller has put them.
pub fn find(trace: Trace<'_>, call: Call, way: Way, memory: &mut Memory) -> Found {
    if let Err(row) = call.sizes.check() {
        return Found {
            kept: Err(row.into()),
            pairs: pairs_told(call.want),
        };
    }
    if test_slow::EVENTS < trace.len() {
        return Found {
            kept: Ok(()),
            pairs: pairs_told(call.want),
        };
    }
    let kept = check(trace, Halts::Named, memory);
    let events = match kept {
        Ok(()) => trace.len(),
        Err(refusal) => refusal.position,
    };
    Found {
        kept,
        pairs: memory.put_pairs(trace, events, way),
    }
}

// "20, either slice is shorter than the list"
fn is_short(pairs: usize, sizes: Sizes, way: Way) -> bool {
    let need = match way {
        Way::OneMore => pairs.wrapping_add(1),
        _ => pairs,
    };
    let earlier = sizes.first < need && way != Way::LaterAlone;
    let later = sizes.second < need && way != Way::EarlierAlone;
    earlier || later
}

// How many pairs are listed.
pub fn pairs_told(reply: Reply) -> usize {
    match reply.case {
        Case::Listed => reply.a,
        _ => 0,
    }
}

pub fn listed(pairs: usize) -> Reply {
    Reply {
        case: Case::Listed,
        a: pairs,
        b: 0,
        links: 0,
    }
}

// ".. and give their number." Row 20 comes "after every other check".
pub fn reply_of(found: Found, sizes: Sizes, way: Way) -> Reply {
    let kept = match way {
        Way::BeforeBreak => Ok(()),
        _ => found.kept,
    };
    if is_short(found.pairs, sizes, way) && (kept.is_ok() || way == Way::Early) {
        return Refusal::from(Row::ShortList).into();
    }
    match (kept, way) {
        (Err(refusal), _) => refusal.into(),
        (Ok(()), Way::Fewer) => listed(found.pairs.wrapping_sub(1)),
        (Ok(()), _) => listed(found.pairs),
    }
}

// How many cells of each slice hold a pair after what must come of this call: "A refusal writes none."
pub fn cells_written(call: Call, pairs: usize, way: Way) -> usize {
    match call.want.case {
        Case::Listed => pairs,
        Case::Refused if way == Way::Written && call.want.a == 20 => {
            call.sizes.first.min(call.sizes.second)
        }
        _ => 0,
    }
}
