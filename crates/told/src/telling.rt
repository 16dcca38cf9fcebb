// How an answer is told: the code that is returned and the values that are stored.
ghost use Rattle.std.specs.Prelude.{◌≤◌};
ghost use Rattle.told.specs.Codes.{TellsVerdict, TellsOrder, TellsDone, TellsCount, TellsRefusal, Tells};

use crate::{CLEAN, CONVERTED, COUNTED, NO, RACE, REFUSED, YES};
use trace::{Refusal, Verdict};

// A code and its values, of which a call stores the first two, the judge all. They are plain numbers, since C reads them.
#[derive(Clone, Copy)]
pub struct Told {
    pub code: u64,
    pub values: [u64; 3],
}

// The judge's verdict.
impl From<Verdict> for Told {
    ghost from_gives = { TellsVerdict };

    #[tactic(auto, unfolding(crate::specs::Codes::judge_told, trace::specs::Answers::judge_reply, trace::specs::Answers::judge_links))]
    fn from(verdict: Verdict) -> Told {
        match verdict {
            Verdict::Clean { links } => Told {
                code: CLEAN,
                values: [0, 0, links as u64],
            },
            Verdict::Race { s, t, links } => Told {
                code: RACE,
                values: [s as u64, t as u64, links as u64],
            },
        }
    }
}

// Whether one event reaches another.
impl From<bool> for Told {
    ghost from_gives = { TellsOrder };

    #[tactic(auto, unfolding(crate::specs::Codes::ordering_told))]
    fn from(reaches: bool) -> Told {
        Told {
            code: if reaches { YES } else { NO },
            values: [0; 3],
        }
    }
}

// A conversion that is done.
impl From<()> for Told {
    ghost from_gives = { TellsDone };

    #[tactic(auto, unfolding(crate::specs::Codes::conversion_told))]
    fn from(_converted: ()) -> Told {
        Told {
            code: CONVERTED,
            values: [0; 3],
        }
    }
}

// How many pairs or events there are.
impl From<usize> for Told {
    ghost from_gives = { TellsCount };

    #[tactic(auto, unfolding(crate::specs::Codes::count_told))]
    fn from(count: usize) -> Told {
        Told {
            code: COUNTED,
            values: [count as u64, 0, 0],
        }
    }
}

impl From<Refusal> for Told {
    ghost from_gives = { TellsRefusal };

    fn from(refusal: Refusal) -> Told {
        Told {
            code: REFUSED,
            values: [refusal.number as u64, refusal.position as u64, 0],
        }
    }
}

// Stores the first N values of an answer and returns its code.
pub fn tell<const N: usize, T: Into<Told>>(answer: Result<T, Refusal>, values: &mut [u64; N]) -> u64
    requires { N ≤ 3 }
    ensures { Tells N T.converts answer result values.new }
{
    let told = match answer {
        Ok(said) => said.into(),
        Err(refusal) => refusal.into(),
    };
    values.copy_from_slice(&told.values[..N]);
    told.code
}
