// A program's input, read into a lent buffer. Programs share it.
#![tactic(auto)]

ghost use Rattle.std.specs.Prelude.{◌≡◌, ◌-◌, ◌≤◌, length};
ghost use Rattle.input.specs.Reading.{Moved, number_of, decided, ReadOnce, TextRead, Received};

use std::io::Read;
use std::ops::ControlFlow;

// Why a program takes in no text: a read failed, or there are arguments, of which it takes none.
#[derive(Clone, Copy, PartialEq, Eq)]
pub enum InputError {
    Failed,
    Arguments,
}

// What the number that a read gave decides, where `filled` of the buffer's `room` bytes were filled before it: to read again, with so many bytes filled, or that
// the reading has ended.
fn decide(
    got: Option<usize>,
    filled: usize,
    room: usize,
) -> ControlFlow<Result<usize, InputError>, usize>
    requires filled_le_room { filled ≤ room }
    requires moved { Moved (room - filled) (number_of got) }
    ensures { result ≡ decided (number_of got) filled room }
{
    let Some(more) = got else {
        return ControlFlow::Break(Err(InputError::Failed));
    };
    if more == 0 {
        return ControlFlow::Break(Ok(filled));
    }
    let total = filled + more;
    if total < room {
        return ControlFlow::Continue(total);
    }
    ControlFlow::Break(Ok(total))
}

// One read into all of `rest`: how many bytes it gave, or nothing where it failed.
fn read_number<R: Read>(reader: &mut R, rest: &mut [u8]) -> Option<usize>
    ensures { Moved (length rest.old) (number_of result) }
{
    reader.read(rest).ok()
}

// One read, into the bytes of the buffer behind the first `filled`. The contract says that there is a number which decides. That it is the number which
// `read` gave, and that the bytes which `read` put there are the next of standard input, no contract can say: that `read` is lent the rest of the buffer and its
// number handed on is trusted, here, in `read_number` and in the loop below, and tested.
fn read_more<R: Read>(
    reader: &mut R,
    text: &mut [u8],
    filled: usize,
) -> ControlFlow<Result<usize, InputError>, usize>
    requires { filled ≤ length text.old }
    ensures { ReadOnce filled text.old text.new result }
{
    let room = text.len();
    let rest = &mut text[filled..];
    let got = read_number(reader, rest);
    decide(got, filled, room)
}

// The input to its end, or until the buffer is full. A pipe may hand out a few bytes at a time.
pub fn read_text<R: Read>(reader: &mut R, text: &mut [u8]) -> Result<usize, InputError>
    ensures { TextRead text.old text.new result }
{
    let mut filled: usize = 0;
    loop {
        match read_more(reader, text, filled) {
            ControlFlow::Continue(more) => filled = more,
            ControlFlow::Break(input) => return input,
        }
    }
}

// What a program takes in that was started with `words` words, its own name among them.
pub fn receive<R: Read>(reader: &mut R, words: usize, text: &mut [u8]) -> Result<usize, InputError>
    ensures { Received words text.old text.new result }
{
    if words > 1 {
        return Err(InputError::Arguments);
    }
    read_text(reader, text)
}
