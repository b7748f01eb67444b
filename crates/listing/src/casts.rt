// The casts of a program as a listing.

ghost use Rattle.std.specs.Prelude.{◌≡◌, ◌<◌, ◌++◌, ℕ, IfOk, MatchOption, OnOk, codes, length};
ghost use Rattle.std.specs.Fmt.{signed_decimal};
ghost use Rattle.cast_rules.specs.Claims.{EntryFits};
ghost use Rattle.cast_rules.specs.Making.{CastFrom};
ghost use Rattle.insert_steps.specs.Views.{entries_of, entry_of};
ghost use Rattle.coercion_norm.specs.CoercionTables.{FitsTypes};
ghost use Rattle.coercion_norm.specs.Nodes.{tree_of};
ghost use Rattle.coercion_norm.specs.Texts.{HasLabels, label_text};
ghost use Rattle.listing.specs.CastLines.{CastFits, EntriesFit, IsNoCast, IsThisCast, cast_listing, entry_line};
ghost use Rattle.listing.specs.CastLines.{inner_entry, merged_if, shown, types_part};

use crate::rooms::Rooms;
use cast_insert::insertion::Elab;
use coercion_compose::compositions::compose;
use coercion_norm::casts::{Cast, coerce};
use coercion_norm::nodes::CoercionId;
use coercion_norm::tables::CoercionTable;
use coercion_norm::texts::show;
use grift_base::lists::{OutOfMemory, Text};
use grift_base::places::{LabelId, LabelTable};
use insert_steps::casts::{CastEntry, CastList};
use itoa::Buffer;
use std::alloc::Global;
use type_graph::tables::TypeTable;
use type_graph::texts::show_type;

/// What is kept while a listing is written: its text, the coercions of its casts, and how long their texts are at most.
#[derive(Drop)]
struct Listing {
    text: Text,
    table: CoercionTable,
    rooms: Rooms,
}

/// The listing of a program's casts: a line for each entry of its list, in order. The line of a cast has the place that
/// it may blame, its types, its coercion, and, where a cast stands directly inside, what the two come to together; that
/// of a part which is taken of what Dyn holds has the place and the number of the part. `OutOfMemory` comes where
/// no memory is left. It also comes where the listing might have more than 1,073,741,824 bytes, since the text of a
/// coercion of nested references can double with each of them: that is asked before such a text is written.
pub fn casts_text(alloc: Global, elab: &Elab, types: &TypeTable) -> Result<Text, OutOfMemory>
    requires { EntriesFit types.now elab.now.labels (entries_of elab.now.casts) }
    ensures { IfOk result (λ text.
        text ≡ cast_listing types.now elab.now.labels (entries_of elab.now.casts)) }
{
    let mut listing = Listing {
        text: Text::new(alloc),
        table: CoercionTable::new(alloc)?,
        rooms: Rooms::new(alloc),
    };
    for entry in elab.casts.as_slice() {
        write_entry(alloc, &mut listing, elab, types, *entry)?;
    }
    Ok(listing.text)
}

// Writes the line of an entry behind the text.
fn write_entry(
    alloc: Global,
    listing: &mut Listing,
    elab: &Elab,
    types: &TypeTable,
    entry: CastEntry,
) -> Result<(), OutOfMemory>
    requires entries { EntriesFit types.now elab.now.labels (entries_of elab.now.casts) }
    requires entry { (place : ℕ) × EntryFits (length elab.now.labels) (length types.now) place (entry_of entry) }
    requires fits { FitsTypes types.now listing.old.table }
    ensures line { OnOk result (listing.new.text ≡ listing.old.text
        ++ entry_line types.now elab.now.labels (entries_of elab.now.casts) (entry_of entry)) }
    ensures fits { FitsTypes types.now listing.new.table }
{
    match entry {
        CastEntry::Cast {
            label,
            from,
            to,
            inside,
        } => {
            let cast = Cast { from, to, label };
            write_cast(alloc, listing, elab, types, cast, inside)
        }
        CastEntry::Part { label, part } => {
            write_part(&mut listing.text, &elab.labels, label, part)
        }
    }
}

// Writes the line of a part that is taken of what Dyn holds.
fn write_part(
    text: &mut Text,
    labels: &LabelTable,
    label: LabelId,
    part: i64,
) -> Result<(), OutOfMemory>
    requires { label.0 < length labels.now }
    ensures { OnOk result (text.new ≡ text.old
        ++ label_text labels.now label.0 ++ codes " part " ++ signed_decimal part ++ codes "\n") }
{
    write_label(text, labels, label)?;
    text.extend(b" part ")?;
    text.extend(Buffer::new().format(part).as_bytes())?;
    text.extend(b"\n")
}

// Writes the place of a label behind the text.
fn write_label(text: &mut Text, labels: &LabelTable, label: LabelId) -> Result<(), OutOfMemory>
    requires { label.0 < length labels.now }
    ensures { OnOk result (text.new ≡ text.old ++ label_text labels.now label.0) }
{
    let Some(place) = labels.get(u64::from(label.0)) else {
        return Ok(());
    };
    let mut digits = Buffer::new();
    text.extend(digits.format(place.line).as_bytes())?;
    text.extend(b":")?;
    text.extend(digits.format(place.col).as_bytes())
}

// Writes the line of a cast behind the text.
fn write_cast(
    alloc: Global,
    listing: &mut Listing,
    elab: &Elab,
    types: &TypeTable,
    cast: Cast,
    inside: Option<u32>,
) -> Result<(), OutOfMemory>
    requires entries { EntriesFit types.now elab.now.labels (entries_of elab.now.casts) }
    requires cast { CastFits types.now elab.now.labels cast }
    requires fits { FitsTypes types.now listing.old.table }
    ensures line { OnOk result (listing.new.text ≡ listing.old.text ++ entry_line types.now elab.now.labels
        (entries_of elab.now.casts) (CastFrom cast.label.0 cast.from.0 cast.to.0 inside)) }
    ensures fits { FitsTypes types.now listing.new.table }
{
    write_types(alloc, &mut listing.text, &elab.labels, types, cast)?;
    let outer = coerce(
        alloc,
        &mut listing.table,
        types,
        cast.from,
        cast.to,
        cast.label,
    )?;
    write_coercion(alloc, listing, &elab.labels, types, outer)?;
    write_merged(alloc, listing, elab, types, inside, outer)?;
    listing.text.extend(b"\n")
}

// Writes the place and the types of a cast behind the text.
fn write_types(
    alloc: Global,
    text: &mut Text,
    labels: &LabelTable,
    types: &TypeTable,
    cast: Cast,
) -> Result<(), OutOfMemory>
    requires { CastFits types.now labels.now cast }
    ensures { OnOk result (text.new ≡ text.old ++ types_part types.now labels.now cast.label.0 cast.from.0 cast.to.0) }
{
    write_label(text, labels, cast.label)?;
    text.extend(b" ")?;
    text.extend(show_type(alloc, types, cast.from)?.as_slice())?;
    text.extend(b" => ")?;
    text.extend(show_type(alloc, types, cast.to)?.as_slice())?;
    text.extend(b" ")
}

// The cast directly inside another, where a cast is there.
fn inner_cast(casts: &CastList, inside: Option<u32>) -> Option<Cast>
    ensures { MatchOption result
        (IsNoCast (inner_entry (entries_of casts.now) inside))
        (λ cast. IsThisCast cast (inner_entry (entries_of casts.now) inside)) }
{
    match casts.get(u64::from(inside?))? {
        CastEntry::Cast {
            label,
            from,
            to,
            ..
        } => Some(Cast {
            from: *from,
            to: *to,
            label: *label,
        }),
        CastEntry::Part { .. } => None,
    }
}

// Writes what the cast directly inside and the outer coercion come to together, where a cast is there.
fn write_merged(
    alloc: Global,
    listing: &mut Listing,
    elab: &Elab,
    types: &TypeTable,
    inside: Option<u32>,
    outer: CoercionId,
) -> Result<(), OutOfMemory>
    requires entries { EntriesFit types.now elab.now.labels (entries_of elab.now.casts) }
    requires there { outer.0 < length listing.old.table.nodes }
    requires labels { HasLabels (length elab.now.labels) (tree_of listing.old.table.nodes outer.0) }
    requires fits { FitsTypes types.now listing.old.table }
    ensures text { OnOk result (listing.new.text ≡ listing.old.text
        ++ merged_if types.now elab.now.labels (inner_entry (entries_of elab.now.casts) inside)
        (tree_of listing.old.table.nodes outer.0)) }
    ensures fits { FitsTypes types.now listing.new.table }
{
    let Some(inner) = inner_cast(&elab.casts, inside) else {
        return Ok(());
    };
    // The table is one: `len` says that parts stand before wholes.
    listing.table.len();
    let first = coerce(
        alloc,
        &mut listing.table,
        types,
        inner.from,
        inner.to,
        inner.label,
    )?;
    let both = compose(alloc, &mut listing.table, types, first, outer)?;
    listing.text.extend(b" merged ")?;
    write_coercion(alloc, listing, &elab.labels, types, both)
}

// Writes a coercion behind the text, if there is room for it.
fn write_coercion(
    alloc: Global,
    listing: &mut Listing,
    labels: &LabelTable,
    types: &TypeTable,
    c: CoercionId,
) -> Result<(), OutOfMemory>
    requires there { c.0 < length listing.old.table.nodes }
    requires labels { HasLabels (length labels.now) (tree_of listing.old.table.nodes c.0) }
    requires fits { FitsTypes types.now listing.old.table }
    ensures text { OnOk result (listing.new.text ≡ listing.old.text
        ++ shown types.now labels.now (tree_of listing.old.table.nodes c.0)) }
    ensures table { listing.new.table ≡ listing.old.table }
{
    listing
        .rooms
        .ask(alloc, &listing.table, types, listing.text.len(), c)?;
    listing
        .text
        .extend(show(alloc, &listing.table, types, labels, c)?.as_slice())
}
