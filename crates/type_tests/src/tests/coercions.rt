// Coercions of paths of casts: as texts, as nodes of a table and as statics.

ghost use Rattle.coercion_norm.specs.CoercionTables.{FitsTypes};

use crate::tests::samples::{Sample, put, table_of};
use coercion_compose::compositions::compose;
use coercion_norm::cast_rows::{CastRow, CastRows};
use coercion_norm::casts::coerce;
use coercion_norm::placing::place_rows;
use coercion_norm::tables::CoercionTable;
use coercion_norm::texts::show;
use grift_base::lists::Text;
use grift_base::places::{LabelId, LabelTable, Pos, TypeId};
use grift_base::words::Statics;
use std::alloc::Global;
use std::process::Abort;
use std::test::Fail;
use type_graph::rows::Row;
use type_graph::tables::TypeTable;

// 0 Int, 1 Bool, 2 Dyn, 3 (Int -> Bool), 4 (Dyn -> Dyn), 5 (Bool -> Int), 6 (Ref Int), 7 (Ref Dyn), 8 (Ref Bool),
// 9 (Tuple Int Dyn), 10 (Tuple Dyn Int)
const TYPES: &[Sample] = &[
    Sample::Int,
    Sample::Bool,
    Sample::Dyn,
    Sample::Function(&[0], 1),
    Sample::Function(&[2], 2),
    Sample::Function(&[1], 0),
    Sample::Box(0),
    Sample::Box(2),
    Sample::Box(1),
    Sample::Tuple(&[0, 2]),
    Sample::Tuple(&[2, 0]),
];

// Paths of three casts, of which the first two have the label 1:1 and the last has 2:1, and the text of what they come
// to. The first two of some stay at their type.
const PATHS: &[([u32; 4], &str)] = &[
    ([0, 0, 0, 0], "id"),
    ([3, 3, 3, 2], "(inject (Int -> Bool))"),
    ([2, 2, 2, 6], "(project (Ref Int) 2:1)"),
    ([3, 3, 3, 6], "(fail 2:1)"),
    ([3, 3, 3, 4], "(fun (project Int 2:1) -> (inject Bool))"),
    ([4, 4, 4, 3], "(fun (inject Int) -> (project Bool 2:1))"),
    ([6, 6, 6, 7], "(ref (inject Int) (project Int 2:1))"),
    ([9, 9, 9, 10], "(tuple (inject Int) (project Int 2:1))"),
    ([0, 0, 2, 1], "(fail 2:1)"),
    ([2, 0, 2, 1], "(seq (project Int 1:1) (fail 2:1))"),
    ([0, 0, 2, 0], "id"),
    ([3, 3, 4, 5], "(fun (fail 1:1) -> (fail 2:1))"),
    ([6, 6, 7, 8], "(ref (fail 2:1) (fail 1:1))"),
    (
        [9, 9, 10, 9],
        "(tuple id (seq (project Int 1:1) (inject Int)))",
    ),
    (
        [3, 3, 4, 2],
        "(seq (fun (project Int 1:1) -> (inject Bool)) (inject (Dyn -> Dyn)))",
    ),
    ([0, 1, 2, 0], "(fail 1:1)"),
];

// The text of three casts one after the other, of which the first two have label 0 and the last has label 1.
fn shown_path(
    alloc: Global,
    table: &mut CoercionTable,
    types: &TypeTable,
    labels: &LabelTable,
    path: [u32; 4],
) -> Result<Text, Fail>
    requires { FitsTypes types.now table.old }
{
    let [a, b, c, d] = path;
    let many = types.len();
    let many_labels = labels.len();
    if a >= many || b >= many || c >= many || d >= many || many_labels < 2 {
        return Err(Fail::from("no type or label is there"));
    }
    table.len();
    let first = coerce(alloc, table, types, TypeId(a), TypeId(b), LabelId(0))?;
    table.len();
    let second = coerce(alloc, table, types, TypeId(b), TypeId(c), LabelId(0))?;
    table.len();
    let both = compose(alloc, table, types, first, second)?;
    table.len();
    let third = coerce(alloc, table, types, TypeId(c), TypeId(d), LabelId(1))?;
    table.len();
    let all = compose(alloc, table, types, both, third)?;
    Ok(show(alloc, table, types, labels, all)?)
}

// Whether a path has this text, in a table of its own.
fn has_text(
    alloc: Global,
    types: &TypeTable,
    labels: &LabelTable,
    path: [u32; 4],
    text: &str,
) -> Result<bool, Fail> {
    let mut table = CoercionTable::new(alloc)?;
    let shown = shown_path(alloc, &mut table, types, labels, path)?;
    Ok(shown.as_slice() == text.as_bytes())
}

#[test]
fn paths_have_texts(rt: HostRuntime) -> Result<(), Fail> {
    let types = table_of(&rt, rt.alloc(), TYPES);
    let mut labels = LabelTable::new(rt.alloc());
    for line in 1..3 {
        labels.intern(Pos { line, col: 1 }).expect(&rt, "memory");
    }
    for (path, text) in PATHS {
        assert!(rt;
            has_text(rt.alloc(), &types, &labels, *path, text)?,
            "{text}"
        );
    }
    Ok(())
}

// Boxes of boxes of the first, the second and the third type, 300 deep.
fn nested_boxes(rt: &impl Abort, types: &mut TypeTable) -> [TypeId; 3] {
    let mut boxes = [TypeId(0), TypeId(1), TypeId(2)];
    for content in boxes.iter_mut() {
        for _ in 0..300 {
            *content = put(rt, types, Row::Ref(*content));
        }
    }
    boxes
}

// How many nodes the casts from the first of these types to the second and from there to the third take, how high
// their composition is, and how many nodes are there with it.
fn composed(
    alloc: Global,
    table: &mut CoercionTable,
    types: &TypeTable,
    path: [TypeId; 3],
) -> Result<(u32, u32, u32), Fail>
    requires { FitsTypes types.now table.old }
{
    let [from, through, to] = path;
    let many = types.len();
    if from.0 >= many || through.0 >= many || to.0 >= many {
        return Err(Fail::from("no type is there"));
    }
    table.len();
    let first = coerce(alloc, table, types, from, through, LabelId(0))?;
    table.len();
    let second = coerce(alloc, table, types, through, to, LabelId(1))?;
    let casts = table.len();
    let both = compose(alloc, table, types, first, second)?;
    Ok((casts, table.height(both), table.len()))
}

// Each level has two nodes, for both directions, though it is met twice: one for each way in.
#[test]
fn shared_coercions_take_few_nodes(rt: HostRuntime) -> Result<(), Fail> {
    let mut types = table_of(&rt, rt.alloc(), &[Sample::Int, Sample::Dyn, Sample::Bool]);
    let path = nested_boxes(&rt, &mut types);
    let mut table = CoercionTable::new(rt.alloc()).expect(&rt, "memory");
    let (casts, height, all) = composed(rt.alloc(), &mut table, &types, path)?;
    assert!(rt;
        casts <= 4 * 301 && height == 300 && all <= casts + 8 * 300,
        "{casts} {height} {all}"
    );
    Ok(())
}

// The statics of casts whose coercions are there.
fn place(
    alloc: Global,
    types: &TypeTable,
    table: &CoercionTable,
    casts: &CastRows,
) -> Result<Statics, Fail>
    requires { FitsTypes types.now table.now }
{
    for cast in casts.as_slice() {
        if cast.coercion.0 >= table.len() {
            return Err(Fail::from("no coercion is there"));
        }
    }
    Ok(place_rows(alloc, types, table, casts, 65_536)?)
}

// The number of a cast among the rows.
fn intern_cast(
    alloc: Global,
    table: &mut CoercionTable,
    types: &TypeTable,
    casts: &mut CastRows,
    from: TypeId,
    to: TypeId,
) -> Result<u32, Fail>
    requires { FitsTypes types.now table.old }
    ensures fits { FitsTypes types.now table.new }
{
    if from.0 >= types.len() || to.0 >= types.len() {
        return Err(Fail::from("no type is there"));
    }
    let label = LabelId(7);
    let coercion = coerce(alloc, table, types, from, to, label)?;
    Ok(casts.intern(CastRow {
        from,
        to,
        label,
        coercion,
    })?)
}

// The statics of casts of a function, of a reference and of an integer that stays one, and of one of them again.
fn statics_of_casts(
    alloc: Global,
    table: &mut CoercionTable,
    types: &TypeTable,
    casts: &mut CastRows,
) -> Result<Statics, Fail>
    requires { FitsTypes types.now table.old }
{
    intern_cast(alloc, table, types, casts, TypeId(3), TypeId(4))?;
    intern_cast(alloc, table, types, casts, TypeId(6), TypeId(7))?;
    intern_cast(alloc, table, types, casts, TypeId(0), TypeId(0))?;
    intern_cast(alloc, table, types, casts, TypeId(3), TypeId(4))?;
    place(alloc, types, table, casts)
}

// Each cast has the address of its coercion, and 0 where that changes nothing; a cast that is put again has its number.
#[test]
fn statics_are_placed(rt: HostRuntime) -> Result<(), Fail> {
    let types = table_of(&rt, rt.alloc(), TYPES);
    let mut table = CoercionTable::new(rt.alloc()).expect(&rt, "memory");
    let mut casts = CastRows::new(rt.alloc());
    let statics = statics_of_casts(rt.alloc(), &mut table, &types, &mut casts)?;
    assert!(rt; casts.len() == 3 && statics.cast_at.as_slice() == [65_784, 65_832, 0].as_slice());
    Ok(())
}
