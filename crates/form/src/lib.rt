// The lines of a trace text. The definitions in `specs/` say what a text decides; `text` finds it.
#![tactic(auto)]

#[derive(Clone, Copy)]
pub enum Operation {
    Read,
    Write,
    Fork,
    Join,
}

// A line of the text form. Its source line is read and not used.
#[derive(Clone, Copy)]
pub struct Line {
    pub task: u16,
    pub operation: Operation,
    pub operand: u16,
    pub source: u16,
}

// "text makes over 2,048 events" is refused: the size of the three slices.
pub const MAX_TEXT_EVENTS: usize = 2048;
