// The events of a trace.
use test_cells::get;

// "Kinds are 0 read, 1 write, 2 fork, 3 join, 4 halt." Document 02, K3: "Kind 5 becomes a sum".
#[derive(Clone, Copy, PartialEq, Eq)]
pub enum Kind {
    Read,
    Write,
    Fork,
    Join,
    Halt,
    Sum,
}

// A byte that is the number of no kind.
#[derive(Clone, Copy, PartialEq, Eq)]
pub struct UnknownKind(pub u8);

impl TryFrom<u8> for Kind {
    type Error = UnknownKind;

    fn try_from(byte: u8) -> Result<Kind, UnknownKind> {
        match byte {
            0 => Ok(Kind::Read),
            1 => Ok(Kind::Write),
            2 => Ok(Kind::Fork),
            3 => Ok(Kind::Join),
            4 => Ok(Kind::Halt),
            5 => Ok(Kind::Sum),
            _ => Err(UnknownKind(byte)),
        }
    }
}

// An event, as document 01 writes it: `0 fork 1`.
#[derive(Clone, Copy, PartialEq, Eq)]
pub struct Event {
    pub task: usize,
    pub kind: Result<Kind, UnknownKind>,
    pub operand: usize,
}

impl Event {
    pub fn new(task: usize, kind: Kind, operand: usize) -> Event {
        Event {
            task,
            kind: Ok(kind),
            operand,
        }
    }

    pub fn is(self, kind: Kind) -> bool {
        self.kind == Ok(kind)
    }

    pub fn is_access(self) -> bool {
        self.is(Kind::Read) || self.is(Kind::Write) || self.is(Kind::Sum)
    }

    // The number of its kind.
    pub fn byte(self) -> u8 {
        match self.kind {
            Ok(kind) => kind as u8,
            Err(UnknownKind(byte)) => byte,
        }
    }
}

#[derive(Clone, Copy)]
pub struct Trace<'a> {
    pub kinds: &'a [u8],
    pub tasks: &'a [u16],
    pub operands: &'a [u16],
}

impl Trace<'_> {
    pub fn len(self) -> usize {
        self.kinds.len()
    }

    // Past the end stand reads of location 0 by task 0.
    pub fn event(self, q: usize) -> Event {
        let byte = self.kinds.get(q).copied().unwrap_or(0);
        Event {
            task: get(self.tasks, q),
            kind: Kind::try_from(byte),
            operand: get(self.operands, q),
        }
    }

    // The latest event before q that is as asked for.
    pub fn latest<F: Fn(Event) -> bool>(self, q: usize, asked: F) -> Option<usize>
        requires { F.IsAlwaysCallable asked }
    {
        (0..q).rev().find(|p| asked(self.event(*p)))
    }
}
