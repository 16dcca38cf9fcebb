// The tokens of a trace line, read left to right.
ghost use Rattle.std.specs.Prelude.{◌≤◌, length};

use form::{Line, Operation};

// The greatest number of the text form.
const GREATEST: u16 = 65535;

// A text with the offset that is read next: a small reader, and a cursor by value, since each method hands back its token with the moved cursor. Each token is
// taken apart by `let .. else`, where `?` would do: "the first byte that doesn't fit gives 14" asks for that form.
#[derive(Clone, Copy)]
pub struct Cursor<'a> {
    text: &'a [u8],
    at: usize,
    ghost within: { at ≤ length text.now },
}

impl<'a> Cursor<'a> {
    ghost use Rattle.std.specs.Prelude.{◌≡◌, ◌==◌};
    ghost use Rattle.form.specs.Reading.{word, operation, field, line};
    ghost use Rattle.text.specs.Answers.{left_of, after_word, after_token};

    pub fn new(text: &'a [u8]) -> Cursor<'a>
        ensures { left_of result ≡ text.now }
    {
        Cursor { text, at: 0 }
    }

    pub fn is_at_end(self) -> bool
        ensures { result ≡ (length (left_of self.entry) == 0) }
    {
        self.at == self.text.len()
    }

    // Past `expected`, where that stands next.
    fn word(self, expected: &[u8]) -> Option<Cursor<'a>>
        ensures { after_word result ≡ word expected.now (left_of self.entry) }
    {
        let Some(_) = self.text[self.at..].strip_prefix(expected) else {
            return None;
        };
        Some(Cursor {
            text: self.text,
            at: self.at + expected.len(),
        })
    }

    // An operation, up to the letter of its operand.
    fn operation(self) -> Option<(Operation, Cursor<'a>)>
        ensures { after_token result ≡ operation (left_of self.entry) }
    {
        if let Some(past) = self.word(b"r(V") {
            return Some((Operation::Read, past));
        }
        if let Some(past) = self.word(b"w(V") {
            return Some((Operation::Write, past));
        }
        if let Some(past) = self.word(b"fork(T") {
            return Some((Operation::Fork, past));
        }
        let Some(past) = self.word(b"join(T") else {
            return None;
        };
        Some((Operation::Join, past))
    }

    // A number between two words.
    fn field(self, before: &[u8], after: &[u8]) -> Option<(u16, Cursor<'a>)>
        ensures { after_token result ≡ field before.now after.now (left_of self.entry) }
    {
        let Some(start) = self.word(before) else {
            return None;
        };
        let Some(number) = numbers::number_at(start.text, start.at, GREATEST) else {
            return None;
        };
        let end = Cursor {
            text: start.text,
            at: number.end,
        };
        let Some(past) = end.word(after) else {
            return None;
        };
        Some((number.value, past))
    }

    // A line from its T to its line feed.
    pub fn line(self) -> Option<(Line, Cursor<'a>)>
        ensures { after_token result ≡ line (left_of self.entry) }
    {
        let Some((task, past_task)) = self.field(b"T", b"|") else {
            return None;
        };
        let Some((operation, past_opening)) = past_task.operation() else {
            return None;
        };
        let Some((operand, past_operand)) = past_opening.field(b"", b")|") else {
            return None;
        };
        let Some((source, past)) = past_operand.field(b"", b"\n") else {
            return None;
        };
        let line = Line {
            task,
            operation,
            operand,
            source,
        };
        Some((line, past))
    }
}
