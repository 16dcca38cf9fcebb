// The program's answer to a text, from its bytes to the bytes of the whole output.
#![tactic(auto)]

ghost use Rattle.std.specs.Prelude.{◌≡◌, [], take};
ghost use Rattle.trace.specs.Outcome.{refused};
ghost use Rattle.output.specs.Output.{buffer, rendered};
ghost use Rattle.answer.specs.Answer.{events_rendered, answered, AnsweredBy, AnswersRead, Counts, JudgedLinks, TextLinks};

pub use output::OUTPUT_BYTES;
use sizes::WORKSPACE_CELLS;
use text::limits::MAX_TEXT_EVENTS;
pub use text::limits::TEXT_BYTES;
use trace::Refusal;

// Room for the judge of 2,048 events.
const CELLS: usize = WORKSPACE_CELLS + MAX_TEXT_EVENTS;

// What the judge says of the events of a text, as the program's output.
fn answer_events(kinds: &[u8], tasks: &[u16], operands: &[u16], out: &mut [u8]) -> usize
    ensures answer { buffer out.new result ≡ events_rendered kinds.now tasks.now operands.now out.old }
    ensures chains { JudgedLinks kinds.now tasks.now operands.now }
{
    let mut ws = [0u16; CELLS];
    let mut first = [0u16; MAX_TEXT_EVENTS];
    let mut second = [0u16; MAX_TEXT_EVENTS];
    let answer = judge::judge(kinds, tasks, operands, &mut ws, &mut first, &mut second);
    output::render(answer, kinds.len(), &first, &second, out)
}

// A text's refusal, as the program's output. There are no orders.
fn answer_refusal(refusal: Refusal, out: &mut [u8]) -> usize
    ensures { buffer out.new result ≡ rendered (refused refusal.number refusal.position) 0 [] [] out.old }
{
    let none = [0u16; 0];
    output::render(Err(refusal), 0, &none, &none, out)
}

// THE ANSWER to a text: the whole output stands at the start of the buffer, and the result is the number of its bytes. A buffer of fewer than
// OUTPUT_BYTES bytes is left as it was, and the result is 0. The first TEXT_BYTES bytes of a text decide.
pub fn answer(text: &[u8], out: &mut [u8]) -> usize
    ensures answer { buffer out.new result ≡ answered text.now out.old }
    ensures within { Counts result out.new }
    ensures form { AnsweredBy text.now out.old (buffer out.new result) }
    ensures chains { TextLinks text.now }
{
    let mut kinds = [0u8; MAX_TEXT_EVENTS];
    let mut tasks = [0u16; MAX_TEXT_EVENTS];
    let mut operands = [0u16; MAX_TEXT_EVENTS];
    let translation = text::translate(text, &mut kinds, &mut tasks, &mut operands);
    match translation {
        Ok(count) => answer_events(&kinds[..count], &tasks[..count], &operands[..count], out),
        Err(refusal) => answer_refusal(refusal, out),
    }
}

// THE ANSWER to what was read of a text, the first `count` bytes of an array of TEXT_BYTES. An array that is full decides, whatever follows in the text: a
// program need not read on. A larger count is that of a full array.
pub fn answer_read(text: &[u8; TEXT_BYTES], count: usize, out: &mut [u8]) -> usize
    ensures answer { AnswersRead text.now count out.old out.new result }
    ensures within { Counts result out.new }
    ensures chains { TextLinks (take count text.now) }
{
    let bytes: &[u8] = text;
    if count < TEXT_BYTES {
        return answer(&bytes[..count], out);
    }
    answer(bytes, out)
}
