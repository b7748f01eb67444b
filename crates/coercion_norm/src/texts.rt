// How coercions are written.

ghost use Rattle.std.specs.Prelude.{◌≡◌, ◌<◌, ◌++◌, IfOk, List, OnOk, Some, ℕ, length, slice_get};
ghost use Rattle.type_graph.specs.Texts.{type_text};
ghost use Rattle.coercion_norm.specs.CoercionTables.{FitsTypes};
ghost use Rattle.coercion_norm.specs.Nodes.{MiddleNode, tree_of};
ghost use Rattle.coercion_norm.specs.Texts.{HasLabels, coercion_text, inject_text, kind_text, label_text, project_text};
ghost use Rattle.coercion_norm.specs.Texts.{separator};

use crate::middles::MiddleKind;
use crate::nodes::{CoercionId, CoercionNode};
use crate::tables::CoercionTable;
use grift_base::lists::{OutOfMemory, Text};
use grift_base::places::{LabelId, LabelTable, TypeId};
use itoa::Buffer;
use std::alloc::Global;
use type_graph::tables::TypeTable;
use type_graph::texts::show_type;

/// The text of a coercion, whose labels are places of `labels`.
pub fn show(
    alloc: Global,
    table: &CoercionTable,
    types: &TypeTable,
    labels: &LabelTable,
    c: CoercionId,
) -> Result<Text, OutOfMemory>
    requires there { c.0 < length table.now.nodes }
    requires fits { FitsTypes types.now table.now }
    requires labels { HasLabels (length labels.now) (tree_of table.now.nodes c.0) }
    ensures { IfOk result (λ text. text
        ≡ coercion_text (type_text types.now) (label_text labels.now) (tree_of table.now.nodes c.0)) }
{
    let mut text = Text::new(alloc);
    write_coercion(alloc, &mut text, table, types, labels, c)?;
    Ok(text)
}

// Writes a coercion behind the text.
#[cycle(write)]
fn write_coercion(
    alloc: Global,
    text: &mut Text,
    table: &CoercionTable,
    types: &TypeTable,
    labels: &LabelTable,
    c: CoercionId,
) -> Result<(), OutOfMemory>
    requires there { c.0 < length table.now.nodes }
    requires fits { FitsTypes types.now table.now }
    requires labels { HasLabels (length labels.now) (tree_of table.now.nodes c.0) }
    ensures { OnOk result (text.new ≡ text.old
        ++ coercion_text (type_text types.now) (label_text labels.now) (tree_of table.now.nodes c.0)) }
{
    // The table is one: `len` says that parts stand before wholes.
    table.len();
    match table.node(c) {
        CoercionNode::Id => text.extend(b"id"),
        CoercionNode::Fail(label) => {
            text.extend(b"(fail ")?;
            write_label(text, labels, *label)?;
            text.extend(b")")
        }
        CoercionNode::Fun(..) => write_middle(
            alloc,
            text,
            table,
            types,
            labels,
            MiddleKind::Fun,
            c,
        ),
        CoercionNode::Tup(_) => write_middle(alloc, text, table, types, labels, MiddleKind::Tup, c),
        CoercionNode::Ref(..) => write_middle(
            alloc,
            text,
            table,
            types,
            labels,
            MiddleKind::Ref,
            c,
        ),
        CoercionNode::Vec(..) => write_middle(
            alloc,
            text,
            table,
            types,
            labels,
            MiddleKind::Vec,
            c,
        ),
        CoercionNode::Inject(g, kept) => {
            if table.is_id(*g) {
                return write_inject(alloc, text, types, *kept);
            }
            text.extend(b"(seq ")?;
            write_coercion(alloc, text, table, types, labels, *g)?;
            text.extend(b" ")?;
            write_inject(alloc, text, types, *kept)?;
            text.extend(b")")
        }
        CoercionNode::Project(wanted, label, i) => {
            if table.is_id(*i) {
                return write_project(alloc, text, types, labels, *wanted, *label);
            }
            text.extend(b"(seq ")?;
            write_project(alloc, text, types, labels, *wanted, *label)?;
            text.extend(b" ")?;
            write_coercion(alloc, text, table, types, labels, *i)?;
            text.extend(b")")
        }
    }
}

// Writes the middle at a place behind the text.
#[cycle(write)]
fn write_middle(
    alloc: Global,
    text: &mut Text,
    table: &CoercionTable,
    types: &TypeTable,
    labels: &LabelTable,
    kind: MiddleKind,
    c: CoercionId,
) -> Result<(), OutOfMemory>
    requires there { c.0 < length table.now.nodes }
    requires middle { (places : List ℕ) × (slice_get table.now.nodes c.0 ≡ Some (MiddleNode kind places)) }
    requires fits { FitsTypes types.now table.now }
    requires labels { HasLabels (length labels.now) (tree_of table.now.nodes c.0) }
    ensures { OnOk result (text.new ≡ text.old
        ++ coercion_text (type_text types.now) (label_text labels.now) (tree_of table.now.nodes c.0)) }
{
    table.len();
    let parts = table.node(c).parts(alloc)?;
    let width = parts.len();
    text.extend(kind_text(kind))?;
    for j in 0..width {
        text.extend(separator(kind, j + 1 == width))?;
        write_coercion(alloc, text, table, types, labels, parts[j])?;
    }
    text.extend(b")")
}

// What the text of a middle begins with.
fn kind_text(kind: MiddleKind) -> &'static [u8]
    ensures { result.now ≡ kind_text kind }
{
    match kind {
        MiddleKind::Fun => b"(fun",
        MiddleKind::Tup => b"(tuple",
        MiddleKind::Ref => b"(ref",
        MiddleKind::Vec => b"(vect",
    }
}

// What stands before a part.
fn separator(kind: MiddleKind, last: bool) -> &'static [u8]
    ensures { result.now ≡ separator kind last }
{
    match kind {
        MiddleKind::Fun if last => b" -> ",
        _ => b" ",
    }
}

fn write_inject(
    alloc: Global,
    text: &mut Text,
    types: &TypeTable,
    kept: TypeId,
) -> Result<(), OutOfMemory>
    requires { kept.0 < length types.now }
    ensures { OnOk result (text.new ≡ text.old ++ inject_text (type_text types.now) kept.0) }
{
    text.extend(b"(inject ")?;
    text.extend(show_type(alloc, types, kept)?.as_slice())?;
    text.extend(b")")
}

fn write_project(
    alloc: Global,
    text: &mut Text,
    types: &TypeTable,
    labels: &LabelTable,
    wanted: TypeId,
    label: LabelId,
) -> Result<(), OutOfMemory>
    requires there { wanted.0 < length types.now }
    requires label { label.0 < length labels.now }
    ensures { OnOk result (text.new ≡ text.old
        ++ project_text (type_text types.now) (label_text labels.now) wanted.0 label.0) }
{
    text.extend(b"(project ")?;
    text.extend(show_type(alloc, types, wanted)?.as_slice())?;
    text.extend(b" ")?;
    write_label(text, labels, label)?;
    text.extend(b")")
}

fn write_label(text: &mut Text, labels: &LabelTable, label: LabelId) -> Result<(), OutOfMemory>
    requires { label.0 < length labels.now }
    ensures { OnOk result (text.new ≡ text.old ++ label_text labels.now label.0) }
{
    let place = labels.as_slice()[label.0 as usize];
    let mut digits = Buffer::new();
    text.extend(digits.format(place.line).as_bytes())?;
    text.extend(b":")?;
    text.extend(digits.format(place.col).as_bytes())
}
