// The calls of the C interface, for Rattle crates. `capi_c` exports each of them to C under its name, with the same clauses: an export has its own, and no crate can
// rest on a static library. A call returns a code and stores two values, the judge three (`told`, `told_texts`). Slices and numbers stand side by side as C lends them.
#![tactic(auto)]

ghost use Rattle.std.specs.Prelude.{◌≡◌, ◌≤◌, length};
ghost use Rattle.trace.specs.Lent.{lent_trace};
ghost use Rattle.trace.specs.Outcome.{judge_outcome, ordering_outcome};
ghost use Rattle.trace.specs.Slices.{slices};
ghost use Rattle.trace.specs.Demands.{JudgeDemand1, JudgeDemand2, JudgeDemand3, JudgeLinks, OrderingDemand1, OrderingCallDemand};
ghost use Rattle.convert.specs.Conversion.{convert_outcome};
ghost use Rattle.convert.specs.Demands.{ConvertDemand1, ConvertSets, SameVerdicts};
ghost use Rattle.pairs.specs.Pairs as pairs;
ghost use Rattle.pairs.specs.Demands.{PairsDemand1, PairsCallDemand};
ghost use Rattle.plan.specs.Decided.{DecidedBy, TracesPlan};
ghost use Rattle.plan.specs.Tracing.{planned};
ghost use Rattle.told.specs.Codes.{heard, heard_links, judge_call, judge_seen};
ghost use Rattle.told.specs.Codes.{heard_ordering, ordering_call, ordering_seen};
ghost use Rattle.told.specs.Codes.{heard_conversion, convert_call, convert_seen};
ghost use Rattle.told.specs.Codes.{heard_count, pairs_call, pairs_seen};
ghost use Rattle.told_texts.specs.Codes.{heard_trace, translation_call, translate_call, translate_seen, TranslateTells};
ghost use Rattle.cards.specs.Cards.{with_cards, cards_outcome, cards_call, cards_seen};
ghost use Rattle.cards.specs.Demands.{CardsHeld, CardsDemand1, CardsDemand2};
ghost use Rattle.cards.specs.Tally.{card_in, Tables};

use cards::Card;

// The version of this interface.
const VERSION: u64 = 6;

// It stands in the name, so that a program does not link with an archive of another version.
pub fn racejudge_version_6() -> u64
    ensures { result ≡ 6 }
{
    VERSION
}

// The judge of a whole trace.
pub fn racejudge_judge(
    kinds: &[u8],
    tasks: &[u16],
    operands: &[u16],
    ws: &mut [u16],
    first: &mut [u16],
    second: &mut [u16],
    values: &mut [u64; 3],
) -> u64
    ensures outcome { judge_seen result values.new ws.new first.new second.new
        ≡ judge_call (judge_outcome kinds.now tasks.now operands.now
        ws.old first.old second.old) }
    ensures demand1 { JudgeDemand1 kinds.now tasks.now operands.now
        ws.old first.old second.old (heard result values.new)
        ws.new first.new second.new }
    ensures demand2 { JudgeDemand2 kinds.now tasks.now operands.now
        ws.old first.old second.old (heard result values.new) }
    ensures demand3 { JudgeDemand3 kinds.now tasks.now operands.now
        (heard result values.new) first.old second.old first.new second.new }
    ensures chains { JudgeLinks kinds.now tasks.now operands.now
        (heard result values.new) (heard_links values.new) }
{
    told::judge(kinds, tasks, operands, ws, first, second, values)
}

// The ordering call: does event p reach event q?
pub fn racejudge_ordering(
    kinds: &[u8],
    tasks: &[u16],
    operands: &[u16],
    ws: &mut [u16],
    p: usize,
    q: usize,
    values: &mut [u64; 2],
) -> u64
    ensures outcome { ordering_seen result values.new ws.new
        ≡ ordering_call (ordering_outcome kinds.now tasks.now operands.now ws.old p q) }
    ensures demand1 { OrderingDemand1 kinds.now tasks.now operands.now
        ws.old (heard_ordering result values.new) ws.new }
    ensures reach { OrderingCallDemand kinds.now tasks.now operands.now
        ws.old p q (heard_ordering result values.new) }
{
    told::ordering(kinds, tasks, operands, ws, p, q, values)
}

// The conversion of a stored trace.
pub fn racejudge_convert(
    kinds: &[u8],
    tasks: &[u16],
    operands: &mut [u16],
    ws: &mut [u16],
    values: &mut [u64; 2],
) -> u64
    ensures outcome { convert_seen result values.new operands.new ws.new
        ≡ convert_call (convert_outcome kinds.now tasks.now operands.old ws.old) }
    ensures demand1 { ConvertDemand1 kinds.now tasks.now operands.old ws.old
        (heard_conversion result values.new) operands.new ws.new }
    ensures halts { ConvertSets kinds.now tasks.now operands.old ws.old operands.new }
    ensures verdict { SameVerdicts kinds.now tasks.now operands.old ws.old operands.new }
{
    told::convert(kinds, tasks, operands, ws, values)
}

// Every close pair.
pub fn racejudge_pairs(
    kinds: &[u8],
    tasks: &[u16],
    operands: &[u16],
    ws: &mut [u16],
    earlier: &mut [u16],
    later: &mut [u16],
    values: &mut [u64; 2],
) -> u64
    ensures outcome { pairs_seen result values.new earlier.new later.new ws.new
        ≡ pairs_call (pairs.pairs_outcome kinds.now tasks.now operands.now ws.old
        (pairs.slices earlier.old later.old)) }
    ensures demand1 { PairsDemand1 kinds.now tasks.now operands.now ws.old
        (pairs.slices earlier.old later.old) (heard_count result values.new)
        (pairs.slices earlier.new later.new) ws.new }
    ensures pairs { PairsCallDemand kinds.now tasks.now operands.now ws.old
        (pairs.slices earlier.old later.old) (heard_count result values.new)
        (pairs.slices earlier.new later.new) }
{
    told::pairs(kinds, tasks, operands, ws, earlier, later, values)
}

// Text to a trace.
pub fn racejudge_translate(
    text: &[u8],
    kinds: &mut [u8],
    tasks: &mut [u16],
    operands: &mut [u16],
    values: &mut [u64; 2],
) -> u64
    ensures outcome { translate_seen result values.new (slices kinds.new tasks.new operands.new)
        ≡ translate_call text.now (slices kinds.old tasks.old operands.old) }
    ensures form { TranslateTells text.now (slices kinds.old tasks.old operands.old)
        (translate_seen result values.new (slices kinds.new tasks.new operands.new)) }
{
    told_texts::translate(text, kinds, tasks, operands, values)
}

// A plan to a trace.
pub fn racejudge_plan(
    text: &[u8],
    kinds: &mut [u8],
    tasks: &mut [u16],
    operands: &mut [u16],
    values: &mut [u64; 2],
) -> u64
    ensures outcome { translate_seen result values.new (slices kinds.new tasks.new operands.new)
        ≡ translation_call (planned text.now (slices kinds.old tasks.old operands.old)) }
    ensures grammar { DecidedBy text.now (slices kinds.old tasks.old operands.old)
        (heard_trace result values.new (slices kinds.new tasks.new operands.new)) }
    ensures trace { TracesPlan text.now
        (heard_trace result values.new (slices kinds.new tasks.new operands.new)) }
{
    told_texts::plan(text, kinds, tasks, operands, values)
}

// Stores the first k cards.
fn put_cards(cards: &mut [Card], ws: &[u16], k: usize)
    requires { (k ≤ length cards.old) × Tables ws.now k }
    ensures { cards.new ≡ with_cards (card_in ws.now) k cards.old }
{
    for (l, card) in cards[..k].iter_mut().enumerate() {
        *card = cards::card_of(ws, l);
    }
}

// The judge that also fills a card for each location.
pub fn racejudge_judge_cards(
    kinds: &[u8],
    tasks: &[u16],
    operands: &[u16],
    ws: &mut [u16],
    first: &mut [u16],
    second: &mut [u16],
    cards: &mut [Card],
    values: &mut [u64; 3],
) -> u64
    ensures outcome { cards_seen result values.new ws.new first.new second.new cards.new
        ≡ cards_call (cards_outcome kinds.now tasks.now operands.now
        ws.old first.old second.old cards.old) }
    ensures cards { CardsHeld (lent_trace kinds.entry tasks.entry operands.entry) (length kinds.now)
        (heard result values.new) cards.old cards.new }
    ensures demand1 { CardsDemand1 kinds.now tasks.now operands.now
        ws.old first.old second.old cards.old (heard result values.new)
        ws.new first.new second.new }
    ensures demand2 { CardsDemand2 kinds.now tasks.now operands.now
        ws.old first.old second.old cards.old (heard result values.new) }
    ensures demand3 { JudgeDemand3 kinds.now tasks.now operands.now
        (heard result values.new) first.old second.old first.new second.new }
    ensures chains { JudgeLinks kinds.now tasks.now operands.now
        (heard result values.new) (heard_links values.new) }
{
    let records = cards.len();
    let code = cards::judge_counted(kinds, tasks, operands, ws, first, second, records, values);
    let k = cards::due(code);
    put_cards(cards, ws, k);
    cards::wipe(ws, k);
    code
}
