// Tables as text: numbers in base ten, and a word for each kind of event, verdict, call, buffer and field of a card. Each makes a cell; what stands between them
// makes none, and a comment goes from # to the end of its line.
use crate::{Buffer, Case};
use test_samples::events::Kind;

// The number that a word is read as, if it has one that a cell holds.
fn number_of(word: &str) -> Option<u16> {
    let number = match word {
        "read" => Kind::Read as u16,
        "write" => Kind::Write as u16,
        "fork" => Kind::Fork as u16,
        "join" => Kind::Join as u16,
        "halt" => Kind::Halt as u16,
        "sum" => Kind::Sum as u16,
        "CLEAN" => Case::Clean as u16,
        "RACE" => Case::Race as u16,
        "YES" => Case::Yes as u16,
        "NO" => Case::No as u16,
        "LISTED" => Case::Listed as u16,
        "REFUSED" => Case::Refused as u16,
        "SLOW" => Case::Slow as u16,
        "judge" => 0,
        "order" => 1,
        "none" => 0,
        "ws" => Buffer::Workspace as u16,
        "first" => Buffer::First as u16,
        "second" => Buffer::Second as u16,
        "operands" => Buffer::Operands as u16,
        "reads" => Buffer::Reads as u16,
        "writes" => Buffer::Writes as u16,
        "sums" => Buffer::Sums as u16,
        "earliest" => Buffer::Earliest as u16,
        "latest" => Buffer::Latest as u16,
        "due" => Buffer::Due as u16,
        _ => return word.parse().ok(),
    };
    Some(number)
}

// Reads a line into the cells behind so many. Answers how many there are then.
fn read_line(line: &str, cells: &mut [u16], before: usize) -> Option<usize> {
    let mut count = before;
    let told = line.split('#').next().unwrap_or("");
    for word in told.split(|c: char| !c.is_ascii_alphanumeric()) {
        if !word.is_empty() {
            *cells.get_mut(count)? = number_of(word)?;
            count = count.wrapping_add(1);
        }
    }
    Some(count)
}

// Reads a table. Answers how many cells it has: none if one has an unknown word or too large a number, or if they are more than are lent.
pub fn read_table(text: &str, cells: &mut [u16]) -> Option<usize> {
    let mut count = 0;
    for line in text.lines() {
        count = read_line(line, cells, count)?;
    }
    Some(count)
}

// Reads a table of rows of so many cells. Answers how many rows it has: none if it cannot be read, or if cells are left over.
pub fn read_rows(text: &str, cells: &mut [u16], each: usize) -> Option<usize> {
    let count = read_table(text, cells)?;
    match count.checked_rem(each)? {
        0 => count.checked_div(each),
        _ => None,
    }
}
