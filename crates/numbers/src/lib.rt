// Decimal numbers in a text, with no leading zero: for the text form and for plans.
#![tactic(auto)]

ghost use Rattle.std.specs.Prelude.{◌≡◌, drop};
ghost use Rattle.numbers.specs.Reading.{digit, extended, number};
ghost use Rattle.numbers.specs.Answers.{numeral_of, after_number, Within};

// A number and the place after it.
#[derive(Clone, Copy)]
pub struct Number {
    pub value: u16,
    pub end: usize,
}

fn read_digit(byte: u8) -> Option<u16>
    ensures { numeral_of result ≡ digit byte }
{
    match byte {
        b'0'..=b'9' => Some(u16::from(byte - b'0')),
        _ => None,
    }
}

// The number `value` with the digit `byte` after it.
fn extend(value: u16, byte: u8, greatest: u16) -> Option<u16>
    ensures { numeral_of result ≡ extended greatest value byte }
{
    if value == 0 {
        return None;
    }
    let last = read_digit(byte)?;
    // In 32 bits nothing overflows, and one test decides: in 16 there are three for each digit.
    let next = u32::from(value) * 10 + u32::from(last);
    if next <= u32::from(greatest) {
        Some(next as u16)
    } else {
        None
    }
}

// The number from `start` on, as long as it goes: it stops before the digit that would make it greater than `greatest`.
pub fn number_at(text: &[u8], start: usize, greatest: u16) -> Option<Number>
    ensures read { after_number text.now result ≡ number greatest (drop start text.now) }
    ensures within { Within text.now result }
{
    let first = *text.get(start)?;
    let mut value = read_digit(first)?;
    for end in start + 1..text.len() {
        let Some(next) = extend(value, text[end], greatest) else {
            return Some(Number { value, end });
        };
        value = next;
    }
    Some(Number {
        value,
        end: text.len(),
    })
}
