// Kinds and headers as code over words is written with them.

ghost use Rattle.std.specs.Prelude.{◌≡◌};
ghost use Rattle.low_ir.specs.declared.code.LowSource.TheVariants.{Number as NumberCase};
ghost use Rattle.object_layout.specs.Kinds.{kind_number};
ghost use Rattle.coercion_norm.specs.ObjectsOfRows.{header};

use low_ir::code::LowSource::{self, Number};
use object_layout::headers::{Header, pack};
use object_layout::kinds::Kind;

/// The number of a kind.
pub fn kind(kind: Kind) -> LowSource
    ensures { result ≡ NumberCase (kind_number kind) }
{
    Number(kind.word())
}

/// The header of an object of this kind, of height 0 and of so many words.
pub fn header(kind: Kind, count: u32) -> u64
    ensures { result ≡ header (kind_number kind) 0 count }
{
    pack(Header {
        kind: kind.number(),
        height: 0,
        count,
    })
}
