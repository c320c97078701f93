//! What the calls answer: 0, the number of the fault that applies, or one of the numbers here,
//! which begin at 100.

/// The call did what it says.
pub const DONE: u32 = 0;

/// There is no such processor.
pub const NO_SUCH_PROCESSOR: u32 = 13;

/// No log has an entry of such a number.
pub const NO_SUCH_NUMBER: u32 = 14;

/// Memory was refused to a plan before.
pub const SPENT: u32 = 31;

/// The run would end after the last slot of all runs.
pub const PAST_LAST_SLOT: u32 = 33;

/// A task file has too many bytes.
pub const FILE_TOO_LONG: u32 = 66;

/// An allocation failed.
pub const MEMORY: u32 = 90;

/// A number is out of its range.
pub const OUT_OF_RANGE: u32 = 100;

/// The handle has a dispatcher already.
pub const OPEN_ALREADY: u32 = 101;

/// The handle has no dispatcher.
pub const NOT_OPEN: u32 = 102;

/// There are fewer rows than are wanted.
pub const NO_ROOM: u32 = 103;

/// The slot isn't planned.
pub const NOT_PLANNED: u32 = 104;
