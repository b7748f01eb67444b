// Written types as rows of a table.
#![tactic(auto, using(cast_rules::proofs::Public::forms_more, cast_rules::proofs::Public::written_steps))]

ghost use Rattle.std.specs.Prelude.{◌≡◌, ◌≤◌, [], IfOk, OnOk, length};
ghost use Rattle.grift_base.specs.Types.{parts_of};
ghost use Rattle.type_graph.specs.Forming.{intern};
ghost use Rattle.type_graph.specs.Rows.{places_of, row_of};
ghost use Rattle.type_graph.specs.TypeTables.{FitsTable, MayBePart};
ghost use Rattle.surface_trees.specs.Views.{type_node_of, type_of, types_of};
ghost use Rattle.cast_rules.specs.Programs.{HasTypeWidths, HaveTypeWidths, NodeHasWidths, depth_of, depth_of_all};
ghost use Rattle.cast_rules.specs.Programs.{depth_of_node, how_many_types, most_brackets};
ghost use Rattle.cast_rules.specs.Room.{AreWithin, Grows, IsWithin, StandsOn};
ghost use Rattle.cast_rules.specs.WrittenTypes.{form_node, form_type, form_types};

use grift_base::lists::OutOfMemory;
use grift_base::places::TypeId;
use std::alloc::Global;
use surface_trees::types::{TypeExpr, TypeExprs, TypeNode};
use type_graph::rows::{Row, TypeIds};
use type_graph::tables::TypeTable;

/// The type with this row.
pub fn put(types: &mut TypeTable, row: Row) -> Result<TypeId, OutOfMemory>
    requires { FitsTable types.old (row_of row) }
    ensures formed { IfOk result (λ ty. intern (row_of row) types.old ≡ (ty.0, types.new)) }
    ensures grows { OnOk result (Grows types.old types.new) }
    ensures stands { IfOk result (λ ty. StandsOn types.old (parts_of (row_of row)) types.new ty.0) }
    ensures leaf { parts_of (row_of row) ≡ [] → IfOk result (λ ty. MayBePart types.new ty.0) }
{
    // The table is one: `len` says that its types are trees.
    types.len();
    let ty = types.intern(row)?;
    types.len();
    Ok(ty)
}

/// The place of a written type, whose rows go last in the table where they are not there yet, parts first, from left
/// to right.
#[cycle(form)]
pub fn form_type(alloc: Global, types: &mut TypeTable, t: &TypeExpr) -> Result<TypeId, OutOfMemory>
    requires widths { HasTypeWidths (type_of t.now) }
    requires shallow { depth_of (type_of t.now) ≤ most_brackets }
    ensures formed { IfOk result (λ ty. form_type (type_of t.now) types.old ≡ (ty.0, types.new)) }
    ensures grows { OnOk result (Grows types.old types.new) }
    ensures within { IfOk result (λ ty. IsWithin types.new (depth_of (type_of t.now)) ty.0) }
{
    form_node(alloc, types, &t.node)
}

#[cycle(form)]
fn form_node(alloc: Global, types: &mut TypeTable, node: &TypeNode) -> Result<TypeId, OutOfMemory>
    requires widths { NodeHasWidths (type_node_of node.now) }
    requires shallow { depth_of_node (type_node_of node.now) ≤ most_brackets }
    ensures formed { IfOk result (λ ty. form_node (type_node_of node.now) types.old ≡ (ty.0, types.new)) }
    ensures grows { OnOk result (Grows types.old types.new) }
    ensures within { IfOk result (λ ty. IsWithin types.new (depth_of_node (type_node_of node.now)) ty.0) }
{
    match node {
        TypeNode::Base(row) => put(types, row.duplicate(alloc)?),
        TypeNode::Fun(parameters, result) => {
            let parameters = form_types(alloc, types, parameters)?;
            let result = form_type(alloc, types, result)?;
            put(types, Row::Fun(parameters, result))
        }
        TypeNode::Tuple(parts) => {
            let parts = form_types(alloc, types, parts)?;
            put(types, Row::Tuple(parts))
        }
        TypeNode::Ref(content) => {
            let content = form_type(alloc, types, content)?;
            put(types, Row::Ref(content))
        }
        TypeNode::Vect(content) => {
            let content = form_type(alloc, types, content)?;
            put(types, Row::Vect(content))
        }
    }
}

#[cycle(form)]
fn form_types(
    alloc: Global,
    types: &mut TypeTable,
    list: &TypeExprs,
) -> Result<TypeIds, OutOfMemory>
    requires widths { HaveTypeWidths (types_of list.now) }
    requires shallow { depth_of_all (types_of list.now) ≤ most_brackets }
    ensures formed { IfOk result (λ ids. form_types (types_of list.now) types.old ≡ (places_of ids, types.new)) }
    ensures grows { OnOk result (Grows types.old types.new) }
    ensures within { IfOk result (λ ids. AreWithin types.new (depth_of_all (types_of list.now)) (places_of ids)) }
    ensures count { IfOk result (λ ids. length (places_of ids) ≡ how_many_types (types_of list.now)) }
{
    let mut ids = TypeIds::new(alloc);
    let mut left = list;
    while let TypeExprs::Cons(first, rest) = left {
        let id = form_type(alloc, types, first)?;
        ids.push(id)?;
        left = rest;
    }
    Ok(ids)
}
