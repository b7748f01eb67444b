//! Words of values in Dyn: integers of 61 bits, truth values and unit take no object.

ghost use Rattle.std.specs.Prelude.{◌≡◌};
ghost use Rattle.object_layout.specs.DynWords.{dyn_of_int, dyn_of_bool, dyn_of_unit};
ghost use Rattle.object_layout.specs.DynWords.{int_of_dyn, bool_of_dyn, is_unit_in_dyn};

use crate::words::TAG_SHIFT;

// How many tags there are: what is kept beside one is so many times as large in a word.
const TAGS: u64 = 1 << TAG_SHIFT;

const INT_TAG: u64 = 1;

const BOOL_TAG: u64 = 2;

const UNIT_TAG: u64 = 3;

// Integers of 61 bits are not below the one and below the other.
const LEAST: i64 = -1_152_921_504_606_846_976;

const LIMIT: i64 = 1_152_921_504_606_846_976;

/// The word of an integer in Dyn; `None` exactly where it is below -2^60 or not below 2^60, and so takes an object.
pub fn int_dyn(n: i64) -> Option<u64>
    ensures { result ≡ dyn_of_int n }
{
    if LEAST <= n && n < LIMIT {
        Some(n.cast_unsigned().wrapping_mul(TAGS).wrapping_add(INT_TAG))
    } else {
        None
    }
}

/// The word of a truth value in Dyn.
pub fn bool_dyn(b: bool) -> u64
    ensures { result ≡ dyn_of_bool b }
{
    u64::from(b) * TAGS + BOOL_TAG
}

/// The word of unit in Dyn.
pub fn unit_dyn() -> u64
    ensures { result ≡ dyn_of_unit }
{
    UNIT_TAG
}

/// The integer that a word in Dyn is; `None` exactly where its tag is another.
pub fn dyn_int(word: u64) -> Option<i64>
    ensures { result ≡ int_of_dyn word }
{
    if word % TAGS == INT_TAG {
        Some(word.cast_signed() >> TAG_SHIFT)
    } else {
        None
    }
}

/// The truth value that a word in Dyn is; `None` exactly where its tag is another.
pub fn dyn_bool(word: u64) -> Option<bool>
    ensures { result ≡ bool_of_dyn word }
{
    if word % TAGS == BOOL_TAG {
        Some(word / TAGS % 2 == 1)
    } else {
        None
    }
}

/// Whether a word in Dyn is that of unit.
pub fn dyn_is_unit(word: u64) -> bool
    ensures { result ≡ is_unit_in_dyn word }
{
    word % TAGS == UNIT_TAG
}
