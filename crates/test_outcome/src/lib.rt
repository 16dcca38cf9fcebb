// What a row of tries comes to, and how the test programs tell it.
#![tactic(auto)]

use std::io;

// The number of the first try that did not come out as told.
#[derive(Clone, Copy, PartialEq, Eq)]
pub struct Fault {
    pub number: usize,
}

// How many tries came out as told, where all did.
pub type Outcome = Result<usize, Fault>;

// So many came out as told, and these are all, or the next one did not.
pub fn make_outcome(agreed: usize, all: bool) -> Outcome {
    if all {
        Ok(agreed)
    } else {
        Err(Fault { number: agreed })
    }
}

// With one try more.
pub fn with(before: Outcome, agrees: bool) -> Outcome {
    let agreed = before?;
    if agrees {
        return Ok(agreed.wrapping_add(1));
    }
    Err(Fault { number: agreed })
}

// Tries so many, one after the other, up to the first that does not come out as told.
pub fn try_each<F: FnMut(usize) -> bool>(tries: usize, mut agrees: F) -> Outcome
    requires { F.IsAlwaysCallable agrees }
{
    for number in 0..tries {
        if !agrees(number) {
            return Err(Fault { number });
        }
    }
    Ok(tries)
}

// Tries all rows of a table. That it cannot be read, or has none, is a fault.
pub fn try_rows<F: FnMut(usize) -> bool>(rows: Option<usize>, agrees: F) -> Outcome
    requires { F.IsAlwaysCallable agrees }
{
    match rows {
        None | Some(0) => Err(Fault { number: 0 }),
        Some(rows) => try_each(rows, agrees),
    }
}

// Counts so many more.
pub fn count_more(count: &mut usize, more: usize) {
    *count = count.wrapping_add(more);
}

// Counts one more at an index, if it is one.
pub fn count_at(counts: &mut [usize], i: usize) {
    if let Some(count) = counts.get_mut(i) {
        count_more(count, 1);
    }
}

pub fn print(rt: &impl Print, text: &str, n: usize) -> io::Result<()> {
    println!(rt; "{text}{n}")
}

// Numbers behind a text, in one line.
pub fn print_all(rt: &impl Print, text: &str, numbers: &[usize]) -> io::Result<()> {
    print!(rt; "{text}")?;
    for n in numbers {
        print!(rt; " {n}")?;
    }
    println!(rt)
}

// Whether all came out well; else the first that did not is told by its number.
fn all_well(rt: &impl Print, text: &str, fault: &str, outcome: Outcome) -> io::Result<bool> {
    match outcome {
        Ok(agreed) => print(rt, text, agreed)?,
        Err(Fault { number }) => {
            print(rt, text, number)?;
            print(rt, fault, number)?;
        }
    }
    Ok(outcome.is_ok())
}

pub fn all_agree(rt: &impl Print, text: &str, outcome: Outcome) -> io::Result<bool> {
    all_well(rt, text, "MISMATCH at number ", outcome)
}

pub fn all_noticed(rt: &impl Print, text: &str, outcome: Outcome) -> io::Result<bool> {
    all_well(rt, text, "NOT NOTICED: number ", outcome)
}
