// The translation of a text to lent slices of any length: the lengths that it asks for, and the copy of the events.
ghost use Rattle.std.specs.Prelude.{◌≡◌, false, ◌||◌, ltb};
ghost use Rattle.trace.specs.Slices.{slices, Room};
ghost use Rattle.trace.specs.Answers.{translated_of};
ghost use Rattle.form.specs.Decided.{MAX_TEXT_EVENTS};
ghost use Rattle.form.specs.Translation.{translated};
ghost use Rattle.told_texts.specs.Codes.{copied, is_short};

use text::limits::MAX_TEXT_EVENTS;
use trace::{Refusal, Trace};

// Whether a text may make more events than one of the slices has cells.
pub fn is_short(kinds: usize, tasks: usize, operands: usize) -> bool
    ensures { result ≡ (ltb kinds MAX_TEXT_EVENTS || (ltb tasks MAX_TEXT_EVENTS || ltb operands MAX_TEXT_EVENTS)) }
{
    kinds < MAX_TEXT_EVENTS || tasks < MAX_TEXT_EVENTS || operands < MAX_TEXT_EVENTS
}

// Copies the first `count` events. A loop: where the length is no constant, `copy_from_slice` is a call of memcpy, which the archive for C would then need.
fn copy_events(from: Trace, kinds: &mut [u8], tasks: &mut [u16], operands: &mut [u16], count: usize)
    requires room { Room (slices from.kinds.now from.tasks.now from.operands.now) count }
    requires room_2 { Room (slices kinds.old tasks.old operands.old) count }
    ensures { slices kinds.new tasks.new operands.new
        ≡ copied count (slices from.entry.kinds.now from.entry.tasks.now from.entry.operands.now)
        (slices kinds.old tasks.old operands.old) }
{
    for i in 0..count {
        kinds[i] = from.kinds[i];
        tasks[i] = from.tasks[i];
        operands[i] = from.operands[i];
    }
}

// The text goes to spare slices first, since `text::translate` takes them of one size, and the lent ones may have more cells.
pub fn translate(
    text: &[u8],
    kinds: &mut [u8],
    tasks: &mut [u16],
    operands: &mut [u16],
) -> Result<usize, Refusal>
    requires { is_short (slices kinds.old tasks.old operands.old) ≡ false }
    ensures { translated_of result (slices kinds.new tasks.new operands.new)
        ≡ translated text.now (slices kinds.old tasks.old operands.old) }
{
    let mut spare_kinds = [0u8; MAX_TEXT_EVENTS];
    let mut spare_tasks = [0u16; MAX_TEXT_EVENTS];
    let mut spare_operands = [0u16; MAX_TEXT_EVENTS];
    let count = text::translate(
        text,
        &mut spare_kinds,
        &mut spare_tasks,
        &mut spare_operands,
    )?;
    let spare = Trace {
        kinds: &spare_kinds,
        tasks: &spare_tasks,
        operands: &spare_operands,
    };
    copy_events(spare, kinds, tasks, operands, count);
    Ok(count)
}
