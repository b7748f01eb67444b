// What the real registers hold in code over registers, by their numbers.

/// Always 0.
pub const ZERO: u8 = 0;

/// The link: where a procedure goes back to.
pub const LINK: u8 = 1;

/// Where the frame of the active procedure begins.
pub const STACK_POINTER: u8 = 2;

/// Numbers that no item can hold go through this register and the two behind it.
pub const FIRST_SCRATCH: u8 = 5;

/// The second of the three.
pub const SECOND_SCRATCH: u8 = 6;

/// The third of the three.
pub const THIRD_SCRATCH: u8 = 7;

/// The first of the eight registers that hand on words, to procedures and to the environment. An environment call that
/// goes on leaves its first word here.
pub const FIRST_ARGUMENT: u8 = 10;

/// The one behind it. An environment call that goes on leaves its second word here.
pub const SECOND_ARGUMENT: u8 = 11;

/// The answer of a procedure comes here, where its first word was handed on.
pub const ANSWER: u8 = 10;

/// The number of an environment call.
pub const CALL_NUMBER: u8 = 17;

/// The stack's low end.
pub const STACK_END: u8 = 25;

/// The allocation word.
pub const ALLOCATION: u8 = 26;

/// The region's end.
pub const REGION_END: u8 = 27;

/// From here on registers are kept for what items become: words of slots go through them, and jumps too far for one
/// instruction. Code over registers names none of them.
pub const FIRST_RESERVED: u8 = 28;

/// The first of the two through which words go that come from slots or go there.
pub const FIRST_SPILL: u8 = 28;

/// The second of them.
pub const SECOND_SPILL: u8 = 29;
