// Casts and parts of values.

ghost use Rattle.std.specs.Prelude.{◌≡◌, IfNone, IfOk, OnErr, option_map};
ghost use Rattle.core_calc.specs.Terms.{as_value};
ghost use Rattle.core_calc.specs.Views.{term_of, value_of};
ghost use Rattle.core_redexes.specs.Moves.{Moves};
ghost use Rattle.core_redexes.specs.Redexes.{cast_redex, dyn_part_asked, part_asked, proj_dyn_redex, proj_redex};

use crate::forms::{
    dyn_type, is_base, is_dyn, is_value, part_of, row, same_head, take_injected, take_value,
    unwrap_value, wrapper_of,
};
use crate::moves::Moved;
use core_calc::terms::{Core, Value};
use core_terms::copies::copy_value;
use grift_base::lists::OutOfMemory;
use grift_base::made::{both_boxed, boxed};
use grift_base::places::LabelId;
use std::alloc::Global;
use std::mem;
use type_graph::tables::TypeTable;

// Takes out the value that a term is, in a box. A term that is none stays, as each does where memory runs out.
fn take_boxed(alloc: Global, term: &mut Core) -> Result<Option<Box<Value>>, OutOfMemory>
    ensures taken { IfOk result (λ o. option_map (λ b. value_of b.value) o ≡ as_value (term_of term.old)) }
    ensures same { IfOk result (λ o. IfNone o (term_of term.new ≡ term_of term.old)) }
    ensures stays { OnErr result (term_of term.new ≡ term_of term.old) }
{
    let mut place = boxed(alloc, Value::Unit)?;
    let Some(v) = take_value(term) else {
        return Ok(None);
    };
    *place = v;
    Ok(Some(place))
}

/// Casts a value.
pub fn cast_redex(alloc: Global, types: &TypeTable, term: &mut Core) -> Result<Moved, OutOfMemory>
    ensures moves { IfOk result (Moves (cast_redex types.now) (term_of term.old) (term_of term.new)) }
    ensures stays { OnErr result (term_of term.new ≡ term_of term.old) }
{
    let Core::Cast(inner, from, to, label) = &*term else {
        return Ok(Moved::Stuck);
    };
    if !is_value(inner) {
        return Ok(Moved::Stuck);
    }
    let (from, to, label) = (*from, *to, *label);
    let Some(first) = row(types, from) else {
        return Ok(Moved::Stuck);
    };
    let Some(second) = row(types, to) else {
        return Ok(Moved::Stuck);
    };
    if is_dyn(second) && !is_dyn(first) {
        let Core::Cast(inner, _, _, _) = term else {
            return Ok(Moved::Stuck);
        };
        let Some(v) = take_boxed(alloc, inner)? else {
            return Ok(Moved::Stuck);
        };
        *term = Core::Value(Value::Inject(v, from));
        return Ok(Moved::Goes);
    }
    if is_dyn(first) && !is_dyn(second) {
        let Core::Cast(inner, from, _, _) = term else {
            return Ok(Moved::Stuck);
        };
        let Some((held, kept)) = take_injected(inner) else {
            return Ok(Moved::Stuck);
        };
        **inner = Core::Value(held);
        *from = kept;
        return Ok(Moved::Goes);
    }
    if !same_head(first, second) {
        return Ok(Moved::Blames(label));
    }
    let Core::Cast(inner, _, _, _) = term else {
        return Ok(Moved::Stuck);
    };
    if is_dyn(first) || is_base(first) {
        let Some(v) = take_value(inner) else {
            return Ok(Moved::Stuck);
        };
        *term = Core::Value(v);
        return Ok(Moved::Goes);
    }
    let Some(v) = take_boxed(alloc, inner)? else {
        return Ok(Moved::Stuck);
    };
    *term = Core::Value(Value::Wrap(v, from, label, to));
    Ok(Moved::Goes)
}

// The part that a projection asks for.
fn part_asked(term: &Core) -> Option<i64>
    ensures { result ≡ part_asked (term_of term.now) }
{
    match term {
        Core::Proj(_, k) => Some(*k),
        _ => None,
    }
}

// The part that a projection from Dyn asks for, and its label.
fn dyn_part_asked(term: &Core) -> Option<(i64, LabelId)>
    ensures { option_map (λ asked. (asked.0, asked.1.0)) result ≡ dyn_part_asked (term_of term.now) }
{
    match term {
        Core::ProjDyn(_, k, label) => Some((*k, *label)),
        _ => None,
    }
}

/// Projects a part of a tuple.
pub fn proj_redex(alloc: Global, types: &TypeTable, term: &mut Core) -> Result<Moved, OutOfMemory>
    ensures moves { IfOk result (Moves (proj_redex types.now) (term_of term.old) (term_of term.new)) }
    ensures stays { OnErr result (term_of term.new ≡ term_of term.old) }
{
    let Some(k) = part_asked(term) else {
        return Ok(Moved::Stuck);
    };
    let Core::Proj(inner, _) = &*term else {
        return Ok(Moved::Stuck);
    };
    if let Core::Value(Value::Tuple(parts)) = &**inner {
        if k < 0 {
            return Ok(Moved::Stuck);
        }
        let Some(part) = parts.get(k as u64) else {
            return Ok(Moved::Stuck);
        };
        let v = copy_value(alloc, part)?;
        *term = Core::Value(v);
        return Ok(Moved::Goes);
    }
    let Some(wrapper) = wrapper_of(inner) else {
        return Ok(Moved::Stuck);
    };
    let Some(from) = part_of(types, wrapper.from, k) else {
        return Ok(Moved::Stuck);
    };
    let Some(to) = part_of(types, wrapper.to, k) else {
        return Ok(Moved::Stuck);
    };
    let mut place = boxed(alloc, Core::Unit)?;
    let Core::Proj(inner, _) = term else {
        return Ok(Moved::Stuck);
    };
    if !unwrap_value(inner) {
        return Ok(Moved::Stuck);
    }
    *place = mem::replace(term, Core::Unit);
    *term = Core::Cast(place, from, to, wrapper.label);
    Ok(Moved::Goes)
}

/// Projects a part of the tuple that Dyn holds.
pub fn proj_dyn_redex(
    alloc: Global,
    types: &TypeTable,
    term: &mut Core,
) -> Result<Moved, OutOfMemory>
    ensures moves { IfOk result (Moves (proj_dyn_redex types.now) (term_of term.old) (term_of term.new)) }
    ensures stays { OnErr result (term_of term.new ≡ term_of term.old) }
{
    let Some((k, label)) = dyn_part_asked(term) else {
        return Ok(Moved::Stuck);
    };
    let Core::ProjDyn(inner, _, _) = &*term else {
        return Ok(Moved::Stuck);
    };
    let Core::Value(Value::Inject(_, kept)) = &**inner else {
        return Ok(Moved::Stuck);
    };
    let kept = *kept;
    if row(types, kept).is_none() {
        return Ok(Moved::Stuck);
    }
    let Some(part) = part_of(types, kept, k) else {
        return Ok(Moved::Blames(label));
    };
    let Some(to) = dyn_type(types) else {
        return Ok(Moved::Stuck);
    };
    let (mut place, mut below) = both_boxed(alloc, Core::Unit, Core::Unit)?;
    let Core::ProjDyn(inner, _, _) = term else {
        return Ok(Moved::Stuck);
    };
    let Some((held, _)) = take_injected(inner) else {
        return Ok(Moved::Stuck);
    };
    *below = Core::Value(held);
    *place = Core::Proj(below, k);
    *term = Core::Cast(place, part, to, label);
    Ok(Moved::Goes)
}
