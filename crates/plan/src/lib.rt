// Plans in series and parallel: their letters. The definitions in `specs/` say what a text decides and what its trace is like; `plan_reader` finds it.
#![tactic(auto)]

ghost use Rattle.std.specs.Prelude.{◌≡◌};
ghost use Rattle.plan.specs.Reading.{letter_of};

// "Leaves are r, w or s (sum)".
#[derive(Clone, Copy)]
pub enum Access {
    Read,
    Write,
    Sum,
}

#[derive(Clone, Copy)]
pub enum Operator {
    Series,
    Parallel,
}

// What a byte of a plan begins: a leaf, or an operator with its operands.
#[derive(Clone, Copy)]
pub enum Letter {
    Leaf(Access),
    Joint(Operator),
}

#[tactic(auto, unfolding(crate::specs::Reading::letter_of))]
pub fn letter_of(byte: u8) -> Option<Letter>
    ensures { result ≡ letter_of byte }
{
    match byte {
        b'r' => Some(Letter::Leaf(Access::Read)),
        b'w' => Some(Letter::Leaf(Access::Write)),
        b's' => Some(Letter::Leaf(Access::Sum)),
        b'S' => Some(Letter::Joint(Operator::Series)),
        b'P' => Some(Letter::Joint(Operator::Parallel)),
        _ => None,
    }
}
