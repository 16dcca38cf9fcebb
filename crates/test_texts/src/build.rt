// Long texts, and the checksum of a long answer.
ghost use Rattle.std.specs.Prelude.{◌≤◌, ◌<◌, length};
ghost use Rattle.test_texts.specs.Building.{Built};

// A line behind the first `used` bytes of the buffer, as far as that goes.
fn append(text: &mut [u8], used: usize, line: &[u8]) -> usize
    requires { used ≤ length text.old }
    ensures { Built text.old text.new result }
{
    let room = &mut text[used..];
    let count = line.len().min(room.len());
    room[..count].copy_from_slice(&line[..count]);
    used + count
}

// The same line over and over.
fn repeat(text: &mut [u8], used: usize, line: &[u8], times: usize) -> usize
    requires { used ≤ length text.old }
    ensures { Built text.old text.new result }
{
    let mut at = used;
    for _ in 0..times {
        at = append(text, at, line);
    }
    at
}

// A first part, a line over and over, and a last part: how many bytes that is.
pub fn build(text: &mut [u8], first: &[u8], line: &[u8], times: usize, last: &[u8]) -> usize
    ensures { Built text.old text.new result }
{
    let begun = append(text, 0, first);
    let filled = repeat(text, begun, line, times);
    append(text, filled, last)
}

fn sum(a: u64, b: u64) -> u64
    requires { (a < 65521) × (b < 65521) }
    ensures { result < 65521 }
{
    (a + b) % 65521
}

// Adler-32.
pub fn checksum(bytes: &[u8]) -> u64 {
    let mut low = 1;
    let mut high = 0;
    for byte in bytes {
        low = sum(low, u64::from(*byte));
        high = sum(high, low);
    }
    high * 65536 + low
}
