// The text program: a trace text on standard input, its answer on standard output. What it takes in is crate `input`'s matter, and the answer crate `answer`'s;
// `main` reads, calls and writes.
#![tactic(auto)]

ghost use Rattle.std.specs.Prelude.{◌≡◌, take};
ghost use Rattle.answer.specs.Answer.{Counts};
ghost use Rattle.racejudge.specs.Program.{Responds, Runs, TakenLinks, trouble_of};

use answer::{OUTPUT_BYTES, TEXT_BYTES};
use input::InputError;
use std::env::FillError;
use std::fmt;
use std::io::Read;
use std::rt::Env;

// What was taken in, and how many bytes of output there are.
#[derive(Clone, Copy)]
struct Ran {
    taken: Result<usize, InputError>,
    used: usize,
}

// What is told on standard error: that arguments were given, that a read failed, or that a write did.
#[derive(Clone, Copy, PartialEq, Eq)]
enum Trouble {
    HasArguments,
    CannotRead,
    CannotWrite,
}

impl fmt::Display for Trouble {
    fn fmt<W: fmt::Write>(&self, f: &mut fmt::Formatter<W>) -> fmt::Result {
        match self {
            Trouble::HasArguments => write!(
                f,
                "takes no arguments; give it the trace text on standard input: racejudge < TEXT"
            ),
            Trouble::CannotRead => write!(f, "cannot read standard input"),
            Trouble::CannotWrite => write!(f, "cannot write standard output"),
        }
    }
}

// The output for what was taken in: the answer to a text, and nothing after a failed read or with arguments.
fn respond(taken: Result<usize, InputError>, text: &[u8; TEXT_BYTES], out: &mut [u8]) -> usize
    ensures responds { Responds taken text.now out.old out.new result }
    ensures within { Counts result out.new }
    ensures chains { TakenLinks taken text.now }
{
    match taken {
        Ok(count) => answer::answer_read(text, count, out),
        Err(_) => 0,
    }
}

// ONE RUN but for its writes: the output stands at the start of `out`.
fn run<R: Read>(
    reader: &mut R,
    words: usize,
    text: &mut [u8; TEXT_BYTES],
    out: &mut [u8; OUTPUT_BYTES],
) -> Ran
    ensures run { Runs words text.old text.new result.taken (take result.used out.new) }
    ensures within { Counts result.used out.new }
    ensures chains { TakenLinks result.taken text.new }
{
    let taken = input::receive(reader, words, text);
    let used = respond(taken, text, out);
    Ran { taken, used }
}

// What is told, where `written` says whether the output was.
fn trouble_of(taken: Result<usize, InputError>, written: bool) -> Option<Trouble>
    ensures { result ≡ trouble_of taken written }
{
    match taken {
        Err(InputError::Arguments) => Some(Trouble::HasArguments),
        Err(InputError::Failed) => Some(Trouble::CannotRead),
        Ok(_) => {
            if written {
                None
            } else {
                Some(Trouble::CannotWrite)
            }
        }
    }
}

// With how many words the program was started, its own name among them.
fn count_words(rt: &impl Env) -> usize {
    for words in 0..usize::MAX {
        if let Err(FillError::NotPresent) = rt.arg(words, &mut []) {
            return words;
        }
    }
    usize::MAX
}

fn main(rt: HostRuntime) {
    let mut text = [0u8; TEXT_BYTES];
    let mut out = [0u8; OUTPUT_BYTES];
    let ran = run(&mut rt.stdin(), count_words(&rt), &mut text, &mut out);
    let used = ran.used;
    let written = rt.write_all(&out[..used]).is_ok();
    let taken = ran.taken;
    if let Some(trouble) = trouble_of(taken, written) {
        let _ = eprintln!(rt; "racejudge: {trouble}");
    }
}
