// What the code asks of the kinds of events: which are accesses and which move the line, and which accesses of one location conflict.
// A kind stays the byte that callers lend, which may be any; so that it is an access is a clause.
#![tactic(auto)]

ghost use Rattle.std.specs.Prelude.{◌≡◌, true, not};
ghost use Rattle.trace.specs.Trace.{is_kind, is_access};
ghost use Rattle.trace.specs.Race.{conflicting};
ghost use Rattle.kinds.specs.Kinds.{index_of};

use trace::{FORK, HALT, SUM};

// An access: a read, a write or a sum. `|` asks both its sides: `||` would branch.
#[tactic(auto, using(crate::proofs::ByNumber::access_by_number))]
pub fn is_access(kind: u8) -> bool
    ensures { result ≡ is_access kind }
{
    (kind < FORK) | (kind == SUM)
}

// Whether an event moves the line: a fork, a join or a halt. Where the kind is one that the documents name, that is quicker to ask than whether it is an access.
#[tactic(auto, using(crate::proofs::ByNumber::move_by_number))]
pub fn is_move(kind: u8) -> bool
    requires { is_kind kind ≡ true }
    ensures { result ≡ not (is_access kind) }
{
    (FORK <= kind) & (kind <= HALT)
}

// The accesses counted up from 0, for tables: a read, a write, a sum.
#[tactic(auto, unfolding(crate::specs::Kinds::index_of))]
pub fn index_of(kind: u8) -> usize
    requires { is_access kind ≡ true }
    ensures { result ≡ index_of kind }
{
    if kind == SUM {
        return 2;
    }
    kind as usize
}

// Whether accesses of two kinds to one location conflict: "at least one is a write" (document 01), or one is a read and one a sum (document 02, K3). The
// columns are those of a read, a write and a sum.
const CONFLICT: [[bool; 3]; 3] = [
    // of a read
    [false, true, true],
    // of a write
    [true, true, true],
    // of a sum
    [true, true, false],
];

#[tactic(auto, using(crate::proofs::ByNumber::index_few))]
pub fn is_conflict(kind: u8, other: u8) -> bool
    requires kind_value { is_access kind ≡ true }
    requires other_value { is_access other ≡ true }
    ensures { result ≡ conflicting kind other }
{
    CONFLICT[index_of(kind)][index_of(other)]
}
