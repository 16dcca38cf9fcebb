// Wrong rules, each put into the slow reader on purpose: the comparison must notice it.

// One of the three numbers of an event.
#[derive(Clone, Copy, PartialEq, Eq)]
pub enum Part {
    Kind,
    Task,
    Operand,
}

#[derive(Clone, Copy, PartialEq, Eq)]
pub enum Wrong {
    // A refusal one byte later; 17 where a level too many is opened; 19 before the text is read to its end.
    Position,
    Row,
    Early,
    // One level more; a number with a zero before it; location 1,024.
    Deeper,
    Zeros,
    Location,
    // One task more, one event more, and one cell too few in each slice.
    Tasks,
    Events,
    KindsShort,
    TasksShort,
    OperandsShort,
    // A child has its number late, once the tasks of its plan have theirs; a join is left out; a halt has 0, the bottom of the stack; one event more is told.
    Late,
    NoJoin,
    Zero,
    Count,
    // A number of the first event, and of the first cells behind the trace.
    First(Part),
    Behind(Part),
    // Left and right exchanged where two leaves meet at S; P taken for S, and S for P, where the race is looked for.
    Exchanged,
    Ordered,
    Parallels,
}

impl Wrong {
    // By its number in the table of plants.
    pub fn numbered(number: usize) -> Option<Wrong> {
        match number {
            1 => Some(Wrong::Position),
            2 => Some(Wrong::Row),
            3 => Some(Wrong::Early),
            4 => Some(Wrong::Deeper),
            5 => Some(Wrong::Zeros),
            6 => Some(Wrong::Location),
            7 => Some(Wrong::Tasks),
            8 => Some(Wrong::Events),
            9 => Some(Wrong::KindsShort),
            10 => Some(Wrong::TasksShort),
            11 => Some(Wrong::OperandsShort),
            12 => Some(Wrong::Late),
            13 => Some(Wrong::NoJoin),
            14 => Some(Wrong::Zero),
            15 => Some(Wrong::Count),
            16 => Some(Wrong::First(Part::Kind)),
            17 => Some(Wrong::First(Part::Task)),
            18 => Some(Wrong::First(Part::Operand)),
            19 => Some(Wrong::Behind(Part::Kind)),
            20 => Some(Wrong::Behind(Part::Task)),
            21 => Some(Wrong::Behind(Part::Operand)),
            22 => Some(Wrong::Exchanged),
            23 => Some(Wrong::Ordered),
            24 => Some(Wrong::Parallels),
            _ => None,
        }
    }
}
