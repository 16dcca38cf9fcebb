// The bytes of the program's output, one after the other into a lent buffer. A function that puts bytes at a place hands back the place after them;
// a byte that the buffer has no room for is left out, where std's writers fail, so numbers are printed here. The buffer and the place are no struct: each
// function would have to promise that the struct holds the same buffer.
ghost use Rattle.std.specs.Prelude.{◌≡◌, ◌<◌, [], ◌∷◌, ◌++◌, take};
ghost use Rattle.numbers.specs.Decimal.{decimal};
ghost use Rattle.form.specs.Decided.{MAX_TEXT_EVENTS};
ghost use Rattle.output.specs.Output.{CLEAN, RACE, REFUSED, rest, order_line, order_lines, buffer, add_byte, add};

fn put_byte(out: &mut [u8], at: usize, byte: u8) -> usize
    ensures { buffer out.new result ≡ add_byte (buffer out.old at) byte }
{
    if out.len() <= at {
        return at;
    }
    out[at] = byte;
    at + 1
}

fn put_word(out: &mut [u8], at: usize, word: &[u8]) -> usize
    ensures { buffer out.new result ≡ add (buffer out.old at) word.now }
{
    let mut place = at;
    for byte in word {
        place = put_byte(out, place, *byte);
    }
    place
}

// A number in base ten.
fn put_number(out: &mut [u8], at: usize, n: usize) -> usize
    ensures { buffer out.new result ≡ add (buffer out.old at) (decimal n) }
{
    if n < 10 {
        return put_byte(out, at, b'0' + n as u8);
    }
    let last = put_number(out, at, n / 10);
    put_byte(out, last, b'0' + (n % 10) as u8)
}

// A single space and a number.
fn put_next(out: &mut [u8], at: usize, n: usize) -> usize
    ensures { buffer out.new result ≡ add (buffer out.old at) (32 ∷ decimal n) }
{
    let place = put_byte(out, at, b' ');
    put_number(out, place, n)
}

// The rest of a line: the cells, each after a single space, and the line feed.
fn put_rest(out: &mut [u8], at: usize, cells: &[u16]) -> usize
    ensures { buffer out.new result ≡ add (buffer out.old at) (rest cells.now) }
{
    let mut place = at;
    for cell in cells {
        place = put_next(out, place, usize::from(*cell));
    }
    put_byte(out, place, b'\n')
}

// The first `count` cells of an order, as a line.
fn put_order(out: &mut [u8], at: usize, order: &[u16], count: usize) -> usize
    ensures { buffer out.new result ≡ add (buffer out.old at) (order_line (take count order.now)) }
{
    let end = count.min(order.len());
    let Some((first, more)) = order[..end].split_first() else {
        return put_byte(out, at, b'\n');
    };
    let place = put_number(out, at, usize::from(*first));
    put_rest(out, place, more)
}

// A word and two numbers, as a line.
fn put_pair(out: &mut [u8], word: &[u8], a: usize, b: usize) -> usize
    ensures { buffer out.new result ≡ add (buffer out.old 0) (word.now ++ rest (a ∷ b ∷ [])) }
{
    let first = put_word(out, 0, word);
    let second = put_next(out, first, a);
    let last = put_next(out, second, b);
    put_byte(out, last, b'\n')
}

// `clean` and the event count.
pub fn put_clean(out: &mut [u8], count: usize) -> usize
    ensures { buffer out.new result ≡ add (buffer out.old 0) (CLEAN ++ rest (count ∷ [])) }
{
    let word = put_word(out, 0, b"clean");
    let last = put_next(out, word, count);
    put_byte(out, last, b'\n')
}

// `refused`, number and position.
pub fn put_refused(out: &mut [u8], number: usize, position: usize) -> usize
    ensures { buffer out.new result ≡ add (buffer out.old 0) (REFUSED ++ rest (number ∷ position ∷ [])) }
{
    put_pair(out, b"refused", number, position)
}

// `race`, s and t, and the two orders, one a line.
pub fn put_race(out: &mut [u8], s: usize, t: usize, first: &[u16], second: &[u16]) -> usize
    requires { t < MAX_TEXT_EVENTS }
    ensures { buffer out.new result
        ≡ add (buffer out.old 0) ((RACE ++ rest (s ∷ t ∷ [])) ++ order_lines t first.now second.now) }
{
    let line = put_pair(out, b"race", s, t);
    let next = put_order(out, line, first, t + 1);
    put_order(out, next, second, t + 1)
}
