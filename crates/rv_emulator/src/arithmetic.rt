// What instructions do with words.

ghost use Rattle.std.specs.Prelude.{◌≡◌, ◌+◌, ◌-◌, ◌*◌, ◌/◌, ◌%◌, ◌^◌, ◌<◌, ◌≤◌, Bool, if◌then◌else◌};
ghost use Rattle.std.specs.Int.{byte_len, w32};
ghost use Rattle.machine_words.specs.Arithmetic.{flag, half, low_half, half_right_signed, sign_extend, shift_left};
ghost use Rattle.machine_words.specs.Arithmetic.{shift_right};
ghost use Rattle.machine_words.specs.Arithmetic.{shift_right_signed, signed_less};
ghost use Rattle.rv_emulator.specs.Widths.{width_of};

use crate::ram::Width;

// 1 for what holds, and else 0.
pub fn flag_of(holds: bool) -> u64
    ensures { result ≡ flag holds }
{
    if holds { 1 } else { 0 }
}

pub fn is_less_signed(a: u64, b: u64) -> bool
    ensures { result ≡ signed_less a b }
{
    a.cast_signed() < b.cast_signed()
}

// The low 32 bits.
pub fn lower(word: u64) -> u32
    ensures { result ≡ low_half word }
{
    (word % (1 << 32)) as u32
}

// A number of 32 bits, sign-extended.
pub fn extend_half(low: u32) -> u64
    ensures value { result ≡ sign_extend w32 low }
    ensures half { result ≡ half low }
{
    i64::from(low.cast_signed()).cast_unsigned()
}

pub fn shifted_left(a: u64, by: u32) -> u64
    requires { by < 64 }
    ensures { result ≡ shift_left a by }
{
    a << by
}

pub fn shifted_right(a: u64, by: u32) -> u64
    requires { by < 64 }
    ensures { result ≡ shift_right a by }
{
    a >> by
}

pub fn shifted_right_signed(a: u64, by: u32) -> u64
    requires { by < 64 }
    ensures { result ≡ shift_right_signed a by }
{
    (a.cast_signed() >> by).cast_unsigned()
}

pub fn half_shifted_left(a: u64, by: u32) -> u64
    requires { by < 32 }
    ensures { result ≡ half (low_half a * 2 ^ by) }
{
    extend_half(lower(a) << by)
}

pub fn half_shifted_right(a: u64, by: u32) -> u64
    requires { by < 32 }
    ensures { result ≡ half (low_half a / 2 ^ by) }
{
    extend_half(lower(a) >> by)
}

pub fn half_shifted_right_signed(a: u64, by: u32) -> u64
    requires { by < 32 }
    ensures { result ≡ half_right_signed a by }
{
    i64::from(lower(a).cast_signed() >> by).cast_unsigned()
}

// A number of this width, sign-extended where it is signed.
pub fn extend(word: u64, width: Width, signed: bool) -> u64
    requires { word < 2 ^ (8 * byte_len (width_of width)) }
    ensures { result ≡ (if signed then sign_extend (width_of width) word else word) }
{
    if !signed {
        return word;
    }
    match width {
        Width::B1 => i64::from((word as u8).cast_signed()).cast_unsigned(),
        Width::B2 => i64::from((word as u16).cast_signed()).cast_unsigned(),
        Width::B4 => i64::from((word as u32).cast_signed()).cast_unsigned(),
        Width::B8 => word,
    }
}
