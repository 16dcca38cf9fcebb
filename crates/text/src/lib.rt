// From trace text to a trace: `translate` turns a text into the three slices that the judge takes.
#![tactic(auto)]

mod cursor;
mod events;
pub mod limits;

ghost use Rattle.std.specs.Prelude.{◌≡◌};
ghost use Rattle.trace.specs.Slices.{slices};
ghost use Rattle.trace.specs.Answers.{translated_of};
ghost use Rattle.form.specs.Decided.{DecidedBy};
ghost use Rattle.form.specs.Translation.{translation, translated};
ghost use Rattle.text.specs.Answers.{attempt_of, attempted};

use crate::cursor::Cursor;
use crate::events::Stack;
use crate::limits::MAX_TEXT_EVENTS;
use trace::{Refusal, Row};

// "the line's number from 0"
const FIRST_LINE: usize = 0;

// The events of a text, stored from the start of the three slices; after a refusal the slices hold anything.
fn translate_into(
    text: &[u8],
    kinds: &mut [u8; MAX_TEXT_EVENTS],
    tasks: &mut [u16; MAX_TEXT_EVENTS],
    operands: &mut [u16; MAX_TEXT_EVENTS],
) -> Result<usize, Refusal>
    ensures { attempt_of result (slices kinds.new tasks.new operands.new)
        ≡ attempted (translation text.now) 0 (slices kinds.old tasks.old operands.old) }
{
    let mut stack = Stack::new();
    let mut count = 0;
    let mut cursor = Cursor::new(text);
    let mut number = FIRST_LINE;
    while !cursor.is_at_end() {
        let Some((line, past)) = cursor.line() else {
            return Err(Row::NoLine.at(number));
        };
        let Some(more) = events::add_line(line, &mut stack, kinds, tasks, operands, count) else {
            return Err(Row::LongText.at(number));
        };
        cursor = past;
        count = more;
        number += 1;
    }
    Ok(count)
}

// The events of a text, and how many there are. A refusal leaves the slices as they were: the text is translated to spare ones first.
pub fn translate(
    text: &[u8],
    kinds: &mut [u8; MAX_TEXT_EVENTS],
    tasks: &mut [u16; MAX_TEXT_EVENTS],
    operands: &mut [u16; MAX_TEXT_EVENTS],
) -> Result<usize, Refusal>
    ensures outcome { translated_of result (slices kinds.new tasks.new operands.new)
        ≡ translated text.now (slices kinds.old tasks.old operands.old) }
    ensures form { DecidedBy text.now (slices kinds.old tasks.old operands.old)
        (translated_of result (slices kinds.new tasks.new operands.new)) }
{
    let mut spare_kinds = [0u8; MAX_TEXT_EVENTS];
    let mut spare_tasks = [0u16; MAX_TEXT_EVENTS];
    let mut spare_operands = [0u16; MAX_TEXT_EVENTS];
    translate_into(
        text,
        &mut spare_kinds,
        &mut spare_tasks,
        &mut spare_operands,
    )?;
    translate_into(text, kinds, tasks, operands)
}
