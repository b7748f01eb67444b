// The word that an object begins with.

ghost use Rattle.std.specs.Prelude.{◌≡◌, ◌↔◌, IsSome, IfSome, Some};
ghost use Rattle.object_layout.specs.Kinds.{kind_of};
ghost use Rattle.object_layout.specs.Headers.{packed, unpacked};

use crate::kinds::Kind;
use crate::words::{COUNT_SHIFT, HEIGHT_SHIFT};

/// What the first word of an object says: the number of its kind, its height, and the number of words after it.
#[derive(Clone, Copy, PartialEq, Eq)]
pub struct Header {
    pub kind: u8,
    pub height: u16,
    pub count: u32,
}

/// The word of a header: its kind in the lowest byte, a byte 0, its height in two bytes and its count in four.
pub fn pack(header: Header) -> u64
    ensures word { result ≡ packed header }
    ensures unpacks { unpacked result ≡ Some header ↔ IsSome (kind_of header.kind) }
{
    u64::from(header.kind)
        + (u64::from(header.height) << HEIGHT_SHIFT)
        + (u64::from(header.count) << COUNT_SHIFT)
}

/// The header of a word: none exactly where its lowest byte is the number of no kind, or the byte above it isn't 0.
pub fn unpack(word: u64) -> Option<Header>
    ensures header { result ≡ unpacked word }
    ensures packs { IfSome result (λ header. packed header ≡ word) }
{
    let kind = (word % 256) as u8;
    Kind::from_number(kind)?;
    if word / 256 % 256 != 0 {
        return None;
    }
    Some(Header {
        kind,
        height: (word / (1 << HEIGHT_SHIFT) % 65_536) as u16,
        count: (word / (1 << COUNT_SHIFT)) as u32,
    })
}
