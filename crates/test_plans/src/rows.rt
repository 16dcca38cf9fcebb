// Why a plan is turned back.
use trace::Refusal;

// The rows of document 02's K4, by their numbers.
#[derive(Clone, Copy, PartialEq, Eq)]
pub enum Row {
    NoPlan = 17,
    DeepPlan = 18,
    LargePlan = 19,
}

impl Row {
    pub fn at(self, position: usize) -> Refusal {
        Refusal {
            number: self as usize,
            position,
        }
    }
}
