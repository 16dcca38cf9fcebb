// The sizes that the library and its callers share.

pub use form::MAX_TEXT_EVENTS;

// The stack has room for task 0 and a task for each event.
pub const STACK_CELLS: usize = 2049;

// The first bytes of a text decide its answer: 2,049 lines of at most 26 bytes. A caller with a buffer of this size is right on input of any length.
pub const TEXT_BYTES: usize = 53274;
