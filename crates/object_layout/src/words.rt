// The numbers that code over words is written with, by the names of `specs/Words.antt`.

/// The bits of a header that are its kind.
pub const KIND_MASK: u64 = 255;

/// The height, shifted by so many bits, stands in its place in a header.
pub const HEIGHT_SHIFT: u64 = 16;

/// The bits that are the height, where no others stand below them.
pub const HEIGHT_MASK: u64 = 65_535;

/// The count, shifted by so many bits, stands in its place in a header.
pub const COUNT_SHIFT: u64 = 32;

/// What a header gains with each word that is counted.
pub const COUNT_UNIT: u64 = 1 << COUNT_SHIFT;

/// The kind of a type with parts is by so much more than that of the middles between two such types.
pub const TYPE_OVER_MIDDLE: u64 = 11;

/// The kind of a type whose values have a tag in Dyn is by so much more than the tag.
pub const TYPE_OVER_TAG: u64 = 15;

/// What a word in Dyn keeps beside its tag, shifted by so many bits, stands above the tag.
pub const TAG_SHIFT: u64 = 3;

/// The bits of a word in Dyn that are its tag; all are 0 where it is the address of an object.
pub const TAG_MASK: u64 = 7;

/// A number of words, shifted by so many bits, is one of bytes.
pub const WORD_SHIFT: u64 = 3;
