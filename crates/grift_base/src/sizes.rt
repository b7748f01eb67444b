// How many bytes a file may have.

/// How many bytes a source may have.
pub const SOURCE_LIMIT: usize = 262_144;

/// How many bytes a file of input may have.
pub const INPUT_LIMIT: usize = 1_048_576;

/// How many bytes an image may have.
pub const IMAGE_LIMIT: usize = 268_435_456;
