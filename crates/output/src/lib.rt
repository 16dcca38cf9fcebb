// From an answer to the program's output: `render` writes the bytes to a lent buffer.
#![tactic(auto)]

mod bytes;

ghost use Rattle.std.specs.Prelude.{◌≡◌};
ghost use Rattle.trace.specs.Answers.{judge_reply};
ghost use Rattle.output.specs.Output.{buffer, rendered};

use form::MAX_TEXT_EVENTS;
use trace::{Refusal, Verdict};

// The size of a buffer that holds every output about a text's trace.
pub const OUTPUT_BYTES: usize = 86066;

// The program's output for an answer about a trace of `count` events, and the number of its bytes; the number of links is not printed. Nothing where the buffer is shorter than
// OUTPUT_BYTES or the race stands past 2,048 events: then there are 0 bytes, as `rendered` says.
pub fn render(
    answer: Result<Verdict, Refusal>,
    count: usize,
    first: &[u16],
    second: &[u16],
    out: &mut [u8],
) -> usize
    ensures { buffer out.new result ≡ rendered (judge_reply answer) count first.now second.now out.old }
{
    if out.len() < OUTPUT_BYTES {
        return 0;
    }
    match answer {
        Ok(Verdict::Clean { .. }) => bytes::put_clean(out, count),
        Ok(Verdict::Race { s, t, .. }) => {
            if MAX_TEXT_EVENTS <= t {
                return 0;
            }
            bytes::put_race(out, s, t, first, second)
        }
        Err(refusal) => bytes::put_refused(out, refusal.number, refusal.position),
    }
}
