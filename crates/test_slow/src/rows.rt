// Why a call is refused.

// The rows of document 01's table and of document 02's requests that a slow call can meet, by their numbers.
#[derive(Clone, Copy, PartialEq, Eq)]
pub enum Row {
    UnequalSlices = 1,
    ManyEvents = 2,
    ShortWorkspace = 3,
    ShortOrders = 4,
    UnknownKind = 5,
    Ended = 6,
    NotRunning = 7,
    UnknownLocation = 8,
    UnknownTask = 9,
    UsedTask = 10,
    NotLeft = 11,
    NotResumed = 12,
    UnknownPosition = 13,
    FewRecords = 16,
    ShortList = 20,
}

#[derive(Clone, Copy, PartialEq, Eq)]
pub struct Refusal {
    pub row: Row,
    pub position: usize,
}

impl Refusal {
    pub fn number(self) -> usize {
        self.row as usize
    }
}

// "A refusal tied to no event, line or byte has position 0."
impl From<Row> for Refusal {
    fn from(row: Row) -> Refusal {
        Refusal { row, position: 0 }
    }
}
