// The environment calls, by their numbers.

/// The run ends with an answer: its kind and its word.
pub const END_CALL: u64 = 0;

/// An integer is printed.
pub const PRINT_INT_CALL: u64 = 1;

/// A byte is printed.
pub const PRINT_BYTE_CALL: u64 = 2;

/// A label is blamed.
pub const BLAME_CALL: u64 = 3;

/// The program traps, by the number of the trap.
pub const TRAP_CALL: u64 = 4;

/// Code gives up for want of region.
pub const REGION_OUT_CALL: u64 = 5;

/// Code gives up for want of stack.
pub const STACK_OUT_CALL: u64 = 6;

/// The next number of the input is read. The first word is the number and the second 0, or the first is 0 and the
/// second 1 where there is none.
pub const READ_INT_CALL: u64 = 7;
