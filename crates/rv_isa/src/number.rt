// The small numbers that stand in instructions.

ghost use Rattle.std.specs.Prelude.{◌≡◌, ◌<◌, ◌≤◌, ◌*◌, ◌^◌, ◌%◌, ℤ, pos};
ghost use Rattle.rv_isa.specs.Bits.{signed, low_bits, IsIn, IsEven, IsBelow};

use std::marker::Model;

// The signed number with these low bits, of a width with `half` numbers from 0 up and as many below.
fn signed_of(half: u32, bits: u32) -> i32
    requires half { half ≤ 2 ^ 20 }
    requires bits { bits < 2 * half }
    ensures { result ≡ signed half bits }
{
    if bits < half {
        bits as i32
    } else {
        bits as i32 - 2 * half as i32
    }
}

// The low bits of a signed number of such a width.
fn low_bits_of(half: u32, value: i32) -> u32
    requires half { half ≤ 2 ^ 20 }
    requires range { IsIn half value }
    ensures value { result ≡ low_bits half value }
    ensures below { result < 2 * half }
{
    if value < 0 {
        (value + 2 * half as i32) as u32
    } else {
        value as u32
    }
}

/// A register, told by its number, from 0 to 31.
#[derive(Clone, Copy, PartialEq, Eq)]
pub struct Reg {
    number: u8,
}

impl Model for Reg {
    ghost use Rattle.std.specs.Prelude.{ℕ, ◌<◌};

    ghost Value = { ℕ };

    ghost view = { λ r. r.number };

    ghost invariant = { λ r. r.number < 32 };

    ghost inverse = { λ n. record { number = n } };
}

impl Reg {
    /// The register with the number `n`.
    pub fn new(n: i64) -> Self
        requires { IsBelow 32 n }
        ensures { n ≡ pos result }
    {
        Reg { number: n as u8 }
    }

    /// The register's number.
    pub fn get(&self) -> i64
        ensures value { result ≡ pos self.now }
        ensures below { self.now < 32 }
    {
        i64::from(self.number)
    }

    /// The register's number as an index, below 32.
    pub fn index(&self) -> usize
        ensures value { result ≡ self.now }
        ensures below { result < 32 }
    {
        usize::from(self.number)
    }

    // The one with this number.
    pub(crate) fn from_bits(number: u32) -> Self
        requires { number < 32 }
        ensures { result ≡ number }
    {
        Reg {
            number: number as u8,
        }
    }

    // The number of this register.
    pub(crate) fn bits(&self) -> u32
        ensures value { result ≡ self.now }
        ensures below { result < 32 }
    {
        u32::from(self.number)
    }
}

/// An immediate of the forms I and S: from -2048 to 2047.
#[derive(Clone, Copy)]
pub struct Imm12 {
    value: i16,
}

impl Model for Imm12 {
    ghost use Rattle.std.specs.Prelude.{ℤ};
    ghost use Rattle.rv_isa.specs.Bits.{IsIn};

    ghost Value = { ℤ };

    ghost view = { λ r. r.value };

    ghost invariant = { λ r. IsIn 2048 r.value };

    ghost inverse = { λ n. record { value = n } };
}

impl Imm12 {
    /// The immediate `n`.
    pub fn new(n: i64) -> Self
        requires { IsIn 2048 n }
        ensures { result ≡ n }
    {
        Imm12 { value: n as i16 }
    }

    /// The immediate as a number.
    pub fn get(&self) -> i64
        ensures value { result ≡ self.now }
        ensures range { IsIn 2048 result }
    {
        i64::from(self.value)
    }

    // The one with these low bits.
    pub(crate) fn from_bits(bits: u32) -> Self
        requires { bits < 4096 }
        ensures { result ≡ signed 2048 bits }
    {
        Imm12 {
            value: signed_of(2048, bits) as i16,
        }
    }

    // The low bits of this immediate.
    pub(crate) fn bits(&self) -> u32
        ensures value { result ≡ low_bits 2048 self.now }
        ensures range { IsIn 2048 self.now }
    {
        low_bits_of(2048, i32::from(self.value))
    }
}

/// A branch's offset: an even number from -4096 to 4094.
#[derive(Clone, Copy)]
pub struct Imm13 {
    value: i16,
}

impl Model for Imm13 {
    ghost use Rattle.std.specs.Prelude.{ℤ};
    ghost use Rattle.rv_isa.specs.Bits.{IsIn, IsEven};

    ghost Value = { ℤ };

    ghost view = { λ r. r.value };

    ghost invariant = { λ r. IsIn 4096 r.value × IsEven r.value };

    ghost inverse = { λ n. record { value = n } };
}

impl Imm13 {
    /// The offset `n`.
    pub fn new(n: i64) -> Self
        requires range { IsIn 4096 n }
        requires even { IsEven n }
        ensures { result ≡ n }
    {
        Imm13 { value: n as i16 }
    }

    /// The offset as a number.
    pub fn get(&self) -> i64
        ensures value { result ≡ self.now }
        ensures range { IsIn 4096 result }
        ensures even { IsEven result }
    {
        i64::from(self.value)
    }

    // The one with these low bits.
    pub(crate) fn from_bits(bits: u32) -> Self
        requires range { bits < 8192 }
        requires even { bits % 2 ≡ 0 }
        ensures { result ≡ signed 4096 bits }
    {
        Imm13 {
            value: signed_of(4096, bits) as i16,
        }
    }

    // The low bits of this immediate.
    pub(crate) fn bits(&self) -> u32
        ensures value { result ≡ low_bits 4096 self.now }
        ensures range { IsIn 4096 self.now }
        ensures even { IsEven self.now }
    {
        low_bits_of(4096, i32::from(self.value))
    }
}

/// A jump's offset: an even number from -1048576 to 1048574.
#[derive(Clone, Copy)]
pub struct Imm21 {
    value: i32,
}

impl Model for Imm21 {
    ghost use Rattle.std.specs.Prelude.{ℤ};
    ghost use Rattle.rv_isa.specs.Bits.{IsIn, IsEven};

    ghost Value = { ℤ };

    ghost view = { λ r. r.value };

    ghost invariant = { λ r. IsIn 1048576 r.value × IsEven r.value };

    ghost inverse = { λ n. record { value = n } };
}

impl Imm21 {
    /// The offset `n`.
    pub fn new(n: i64) -> Self
        requires range { IsIn 1048576 n }
        requires even { IsEven n }
        ensures { result ≡ n }
    {
        Imm21 { value: n as i32 }
    }

    /// The offset as a number.
    pub fn get(&self) -> i64
        ensures value { result ≡ self.now }
        ensures range { IsIn 1048576 result }
        ensures even { IsEven result }
    {
        i64::from(self.value)
    }

    // The one with these low bits.
    pub(crate) fn from_bits(bits: u32) -> Self
        requires range { bits < 2097152 }
        requires even { bits % 2 ≡ 0 }
        ensures { result ≡ signed 1048576 bits }
    {
        Imm21 {
            value: signed_of(1048576, bits),
        }
    }

    // The low bits of this immediate.
    pub(crate) fn bits(&self) -> u32
        ensures value { result ≡ low_bits 1048576 self.now }
        ensures range { IsIn 1048576 self.now }
        ensures even { IsEven self.now }
    {
        low_bits_of(1048576, self.value)
    }
}

/// The upper 20 bits of a number of 32 bits, as a number from 0 to 1048575.
#[derive(Clone, Copy)]
pub struct Upper {
    number: u32,
}

impl Model for Upper {
    ghost use Rattle.std.specs.Prelude.{ℕ, ◌<◌};

    ghost Value = { ℕ };

    ghost view = { λ r. r.number };

    ghost invariant = { λ r. r.number < 1048576 };

    ghost inverse = { λ n. record { number = n } };
}

impl Upper {
    /// The upper bits `n`.
    pub fn new(n: i64) -> Self
        requires { IsBelow 1048576 n }
        ensures { n ≡ pos result }
    {
        Upper { number: n as u32 }
    }

    /// The upper bits as a number.
    pub fn get(&self) -> i64
        ensures value { result ≡ pos self.now }
        ensures below { self.now < 1048576 }
    {
        i64::from(self.number)
    }

    // The one with this number.
    pub(crate) fn from_bits(number: u32) -> Self
        requires { number < 1048576 }
        ensures { result ≡ number }
    {
        Upper { number }
    }

    /// The upper bits, below 2^20.
    pub fn bits(&self) -> u32
        ensures value { result ≡ self.now }
        ensures below { result < 1048576 }
    {
        self.number
    }
}

/// The amount of a shift of 64 bits: from 0 to 63.
#[derive(Clone, Copy)]
pub struct Shift6 {
    number: u8,
}

impl Model for Shift6 {
    ghost use Rattle.std.specs.Prelude.{ℕ, ◌<◌};

    ghost Value = { ℕ };

    ghost view = { λ r. r.number };

    ghost invariant = { λ r. r.number < 64 };

    ghost inverse = { λ n. record { number = n } };
}

impl Shift6 {
    /// The amount `n`.
    pub fn new(n: i64) -> Self
        requires { IsBelow 64 n }
        ensures { n ≡ pos result }
    {
        Shift6 { number: n as u8 }
    }

    /// The amount as a number.
    pub fn get(&self) -> i64
        ensures value { result ≡ pos self.now }
        ensures below { self.now < 64 }
    {
        i64::from(self.number)
    }

    // The one with this number.
    pub(crate) fn from_bits(number: u32) -> Self
        requires { number < 64 }
        ensures { result ≡ number }
    {
        Shift6 {
            number: number as u8,
        }
    }

    /// The amount, below 64.
    pub fn bits(&self) -> u32
        ensures value { result ≡ self.now }
        ensures below { result < 64 }
    {
        u32::from(self.number)
    }
}

/// The amount of a shift of 32 bits: from 0 to 31.
#[derive(Clone, Copy)]
pub struct Shift5 {
    number: u8,
}

impl Model for Shift5 {
    ghost use Rattle.std.specs.Prelude.{ℕ, ◌<◌};

    ghost Value = { ℕ };

    ghost view = { λ r. r.number };

    ghost invariant = { λ r. r.number < 32 };

    ghost inverse = { λ n. record { number = n } };
}

impl Shift5 {
    /// The amount `n`.
    pub fn new(n: i64) -> Self
        requires { IsBelow 32 n }
        ensures { n ≡ pos result }
    {
        Shift5 { number: n as u8 }
    }

    /// The amount as a number.
    pub fn get(&self) -> i64
        ensures value { result ≡ pos self.now }
        ensures below { self.now < 32 }
    {
        i64::from(self.number)
    }

    // The one with this number.
    pub(crate) fn from_bits(number: u32) -> Self
        requires { number < 32 }
        ensures { result ≡ number }
    {
        Shift5 {
            number: number as u8,
        }
    }

    /// The amount, below 32.
    pub fn bits(&self) -> u32
        ensures value { result ≡ self.now }
        ensures below { result < 32 }
    {
        u32::from(self.number)
    }
}
