// How types are written.

ghost use Rattle.std.specs.Prelude.{◌≡◌, ◌<◌, ◌++◌, All, IfOk, OnOk, length};
ghost use Rattle.type_graph.specs.Rows.{places_of};
ghost use Rattle.type_graph.specs.Texts.{each_between, type_text};

use crate::rows::Row;
use crate::tables::TypeTable;
use grift_base::lists::{OutOfMemory, Text};
use grift_base::places::TypeId;
use std::alloc::Global;

/// The text of a type.
pub fn show_type(alloc: Global, types: &TypeTable, t: TypeId) -> Result<Text, OutOfMemory>
    requires { t.0 < length types.now }
    ensures { IfOk result (λ text. text ≡ type_text types.now t.0) }
{
    let mut text = Text::new(alloc);
    write_type(&mut text, types, t)?;
    Ok(text)
}

// Writes a type behind the text.
#[cycle(write)]
fn write_type(text: &mut Text, types: &TypeTable, t: TypeId) -> Result<(), OutOfMemory>
    requires { t.0 < length types.now }
    ensures { OnOk result (text.new ≡ text.old ++ type_text types.now t.0) }
{
    // The table is one: `len` says that no row stands twice and that its types are trees.
    types.len();
    match types.row(t) {
        Row::Int => text.extend(b"Int"),
        Row::Bool => text.extend(b"Bool"),
        Row::Unit => text.extend(b"Unit"),
        Row::Dyn => text.extend(b"Dyn"),
        Row::Fun(parameters, result) => {
            text.extend(b"(")?;
            write_each(text, types, parameters.as_slice(), b"", b" ")?;
            text.extend(b"-> ")?;
            write_type(text, types, *result)?;
            text.extend(b")")
        }
        Row::Tuple(parts) => {
            text.extend(b"(Tuple")?;
            write_each(text, types, parts.as_slice(), b" ", b"")?;
            text.extend(b")")
        }
        Row::Ref(content) => {
            text.extend(b"(Ref ")?;
            write_type(text, types, *content)?;
            text.extend(b")")
        }
        Row::Vect(content) => {
            text.extend(b"(Vect ")?;
            write_type(text, types, *content)?;
            text.extend(b")")
        }
    }
}

// Writes each of these types between these two texts.
#[cycle(write)]
fn write_each(
    text: &mut Text,
    types: &TypeTable,
    parts: &[TypeId],
    before: &[u8],
    behind: &[u8],
) -> Result<(), OutOfMemory>
    requires { All (λ part. part < length types.now) (places_of parts.now) }
    ensures { OnOk result (text.new ≡ text.old
        ++ each_between before.now behind.now (type_text types.now) (places_of parts.now)) }
{
    for part in parts {
        text.extend(before)?;
        write_type(text, types, *part)?;
        text.extend(behind)?;
    }
    Ok(())
}
