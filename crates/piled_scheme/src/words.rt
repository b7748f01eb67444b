// The words that are handed on for casts.

ghost use Rattle.std.specs.Prelude.{◌≡◌, ◌≤◌, ◌^◌, IfOk, map};
ghost use Rattle.grift_base.specs.Types.{row_at};
ghost use Rattle.coercion_norm.specs.CastRows.{row_cast, row_casts};
ghost use Rattle.piled_scheme.specs.Piling.{are_alike, fate_by, word_of};

use coercion_norm::cast_rows::{CastRow, CastRows};
use consistency::checks::same_head;
use grift_base::lists::OutOfMemory;
use grift_base::places::{LabelId, TypeId};
use grift_base::words::WordList;
use std::alloc::Global;
use type_graph::rows::Row;
use type_graph::tables::TypeTable;

// What is done with a value: 0 where both types are there and have the same head, and else one more than the label.
fn fate(types: &TypeTable, from: TypeId, to: TypeId, label: LabelId) -> u64
    ensures is { result ≡ fate_by (are_alike (row_at types.now from.0) (row_at types.now to.0)) label.0 }
    ensures small { result ≤ 2 ^ 32 }
{
    let count = types.len();
    if from.0 < count && to.0 < count && same_head(types, from, to) {
        0
    } else {
        u64::from(label.0) + 1
    }
}

// The word of a cast; 0 where one of its types isn't there.
fn word_of(types: &TypeTable, cast: &CastRow) -> u64
    ensures { result ≡ word_of types.now (row_cast cast.now) }
{
    let count = types.len();
    if cast.from.0 >= count || cast.to.0 >= count {
        return 0;
    }
    if let (Row::Ref(content), Row::Ref(wanted)) = (types.row(cast.from), types.row(cast.to)) {
        return 1 + 2 * fate(types, *content, *wanted, cast.label);
    }
    2 * fate(types, cast.from, cast.to, cast.label)
}

/// The words of casts, in the order of their numbers.
pub fn words_of(alloc: Global, types: &TypeTable, casts: &CastRows) -> Result<WordList, OutOfMemory>
    ensures { IfOk result (λ words. words ≡ map (word_of types.now) (row_casts casts.now)) }
{
    let mut words = WordList::new(alloc);
    let mut left = casts.as_slice();
    while let [cast, rest @ ..] = left {
        words.push(word_of(types, cast))?;
        left = rest;
    }
    Ok(words)
}
