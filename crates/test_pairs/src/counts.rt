// What came of the calls.
use crate::slow::pairs_told;
use test_calls::{Answer, Reply};
use test_outcome::count_at;

// How many calls were listed, how many were refused by each row, and how many pairs the lists have.
#[derive(Clone, Copy)]
pub struct Counts {
    listed: usize,
    refused: [usize; 21],
    pairs: usize,
}

impl Counts {
    pub fn new() -> Counts {
        Counts {
            listed: 0,
            refused: [0; 21],
            pairs: 0,
        }
    }

    fn count(&mut self, reply: Reply) {
        match reply.row() {
            None => self.listed = self.listed.wrapping_add(1),
            Some(row) => count_at(&mut self.refused, row),
        }
        self.pairs = self.pairs.wrapping_add(pairs_told(reply));
    }

    // Counts what came of a call, and says whether it is an answer.
    pub fn take(&mut self, answer: Answer) -> bool {
        match answer {
            Ok(reply) => {
                self.count(reply);
                true
            }
            Err(_) => false,
        }
    }

    // Listed, refused by 1 to 20, and the pairs.
    pub fn numbers(&self) -> [usize; 22] {
        let mut numbers = [0; 22];
        numbers[..21].copy_from_slice(&self.refused);
        numbers[0] = self.listed;
        numbers[21] = self.pairs;
        numbers
    }
}
