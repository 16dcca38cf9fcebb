// The first pass over a plan's text: is it a plan, and how many events and forks has it?
ghost use Rattle.std.specs.Prelude.{◌≡◌, drop, IfErr};
ghost use Rattle.trace.specs.Rows.{refusal_at};
ghost use Rattle.plan.specs.Reading.{past, opening, plan_at, whole};
ghost use Rattle.plan_reader.specs.Answers.{after_byte, opened_of, scanned_of, measured, measure_of, measured_whole};

use numbers::Number;
use plan::{Access, Letter, Operator};
use trace::{LOCATIONS, Refusal, Row};

// "A plan may nest up to 64 deep".
pub const LEVELS: usize = 64;

// "a location 0 to 1,023"
pub const LAST_LOCATION: u16 = LOCATIONS - 1;

// What a plan begins with: a leaf with its location, or an operator with the bracket after it.
#[derive(Clone, Copy)]
pub enum Opening {
    Leaf(Access, Number),
    Inside(Operator),
}

// How many events and forks a plan has.
#[derive(Clone, Copy)]
pub struct Size {
    pub events: usize,
    pub forks: usize,
}

// A plan in the text: the place after it, and its size.
#[derive(Clone, Copy)]
pub struct Span {
    pub end: usize,
    pub size: Size,
}

// This byte stands at `at`, where the plan cannot go on with another one.
fn expect(text: &[u8], at: usize, byte: u8) -> Result<(), Refusal>
    ensures rest { after_byte text.now at result ≡ past byte (drop at text.now) }
    ensures row { IfErr result (λ r. r ≡ refusal_at Row.NoPlan at) }
{
    match text.get(at) {
        Some(&found) if found == byte => Ok(()),
        _ => Err(Row::NoPlan.at(at)),
    }
}

fn opening_at(text: &[u8], at: usize, room: usize) -> Result<Opening, Refusal>
    ensures { opened_of text.now at result ≡ opening room at (drop at text.now) }
{
    let byte = *text.get(at).ok_or(Row::NoPlan.at(at))?;
    match plan::letter_of(byte).ok_or(Row::NoPlan.at(at))? {
        Letter::Leaf(access) => {
            let location = numbers::number_at(text, at + 1, LAST_LOCATION).ok_or(Row::NoPlan.at(
                at + 1,
            ))?;
            Ok(Opening::Leaf(access, location))
        }
        Letter::Joint(operator) => {
            if room == 0 {
                return Err(Row::DeepPlan.at(at));
            }
            expect(text, at + 1, b'(')?;
            Ok(Opening::Inside(operator))
        }
    }
}

// The plan at `at`, in which S and P may nest `room` deep. Of P also a fork, a halt and a join are events.
fn scan(text: &[u8], at: usize, room: usize) -> Result<Span, Refusal>
    ensures { scanned_of text.now result ≡ measured (plan_at room at (drop at text.now)) }
{
    match opening_at(text, at, room)? {
        Opening::Leaf(_, location) => Ok(Span {
            end: location.end,
            size: Size {
                events: 1,
                forks: 0,
            },
        }),
        Opening::Inside(operator) => {
            let left = scan(text, at + 2, room - 1)?;
            expect(text, left.end, b',')?;
            let right = scan(text, left.end + 1, room - 1)?;
            expect(text, right.end, b')')?;
            let events = left.size.events + right.size.events;
            let forks = left.size.forks + right.size.forks;
            let size = match operator {
                Operator::Series => Size { events, forks },
                Operator::Parallel => Size {
                    events: 3 + events,
                    forks: 1 + forks,
                },
            };
            Ok(Span {
                end: right.end + 1,
                size,
            })
        }
    }
}

// A whole text as a plan.
pub fn measure(text: &[u8]) -> Result<Size, Refusal>
    ensures { measure_of result ≡ measured_whole (whole text.now) }
{
    let plan = scan(text, 0, LEVELS)?;
    if plan.end < text.len() {
        return Err(Row::NoPlan.at(plan.end));
    }
    Ok(plan.size)
}
