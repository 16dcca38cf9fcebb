// Texts by recipes, which stand in tables. A line has some numbers first, and then the pieces of its text, with a blank behind each but the last: a piece as it
// is, `64*S(` for one that is there so many times, or `10^P(` for a tree so deep. An underscore stands for a blank, a tilde for a line feed, an exclamation mark
// for the byte 255. Lines that begin with # are comments.
use crate::texts::Text;

// The line of a number.
pub fn line_of(table: &str, number: usize) -> &str {
    let mut left = number;
    for line in table.lines() {
        if line.starts_with('#') {
            continue;
        }
        if left == 0 {
            return line;
        }
        left -= 1;
    }
    ""
}

fn number_of(word: &str) -> usize {
    word.parse().unwrap_or(0)
}

// The number in a field of a line, or 0 where there is none.
pub fn field(line: &str, number: usize) -> usize {
    line.split(' ')
        .nth(number)
        .map_or(0, |word| number_of(word))
}

fn add_piece(text: &mut Text, piece: &str) {
    if let Some((times, repeated)) = piece.split_once('*') {
        text.repeat(repeated, number_of(times));
    } else if let Some((depth, opening)) = piece.split_once('^') {
        text.tree(opening, number_of(depth));
    } else {
        text.add_piece(piece);
    }
}

// The text of a line, behind so many numbers.
pub fn lay(text: &mut Text, line: &str, numbers: usize) {
    text.clear();
    for piece in line.split(' ').skip(numbers) {
        add_piece(text, piece);
    }
}
