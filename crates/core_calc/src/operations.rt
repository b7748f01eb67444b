// The types of what operators answer, by those of their operands.

ghost use Rattle.std.specs.Prelude.{◌≡◌, option_map};
ghost use Rattle.type_graph.specs.Rows.{places_of, row_of};
ghost use Rattle.core_calc.specs.TypeOf.{boxing, box_writing, element, element_writing, measuring, negation};
ghost use Rattle.core_calc.specs.TypeOf.{no_operand};
ghost use Rattle.core_calc.specs.TypeOf.{is_number, operator_type, printing, two_integers, unboxing, vector_making};

use crate::forms::{box_content, is_bool, is_int, place_of, vector_content};
use grift_base::operators::PrimOp;
use grift_base::places::TypeId;
use type_graph::rows::Row;
use type_graph::tables::TypeTable;

/// The type of what an operator answers, where its operands have these types.
pub fn operator_type(types: &TypeTable, operator: PrimOp, operands: &[TypeId]) -> Option<TypeId>
    ensures { option_map (λ t. t.0) result ≡ operator_type types.now operator (places_of operands.now) }
{
    match operator {
        PrimOp::Add | PrimOp::Sub | PrimOp::Mul | PrimOp::Quot | PrimOp::Rem => {
            two_integers(types, &Row::Int, operands)
        }
        PrimOp::Lt | PrimOp::Le | PrimOp::Eq | PrimOp::Ge | PrimOp::Gt => {
            two_integers(types, &Row::Bool, operands)
        }
        PrimOp::Not => negation(types, operands),
        PrimOp::PrintInt => printing(types, operands),
        PrimOp::Newline => no_operand(types, &Row::Unit, operands),
        PrimOp::ReadInt => no_operand(types, &Row::Int, operands),
        PrimOp::MakeBox => boxing(types, operands),
        PrimOp::Unbox => unboxing(types, operands),
        PrimOp::BoxSet => box_writing(types, operands),
        PrimOp::MakeVector => vector_making(types, operands),
        PrimOp::VectorRef => element(types, operands),
        PrimOp::VectorSet => element_writing(types, operands),
        PrimOp::VectorLength => measuring(types, operands),
    }
}

fn two_integers(types: &TypeTable, answer: &Row, operands: &[TypeId]) -> Option<TypeId>
    ensures { option_map (λ t. t.0) result ≡ two_integers types.now (row_of answer.now) (places_of operands.now) }
{
    match operands {
        [first, second] if is_int(types, *first) && is_int(types, *second) => {
            place_of(types, answer)
        }
        _ => None,
    }
}

fn no_operand(types: &TypeTable, answer: &Row, operands: &[TypeId]) -> Option<TypeId>
    ensures { option_map (λ t. t.0) result ≡ no_operand types.now (row_of answer.now) (places_of operands.now) }
{
    match operands {
        [] => place_of(types, answer),
        _ => None,
    }
}

fn negation(types: &TypeTable, operands: &[TypeId]) -> Option<TypeId>
    ensures { option_map (λ t. t.0) result ≡ negation types.now (places_of operands.now) }
{
    match operands {
        [operand] if is_bool(types, *operand) => place_of(types, &Row::Bool),
        _ => None,
    }
}

fn printing(types: &TypeTable, operands: &[TypeId]) -> Option<TypeId>
    ensures { option_map (λ t. t.0) result ≡ printing types.now (places_of operands.now) }
{
    match operands {
        [operand] if is_int(types, *operand) => place_of(types, &Row::Unit),
        _ => None,
    }
}

fn boxing(types: &TypeTable, operands: &[TypeId]) -> Option<TypeId>
    ensures { option_map (λ t. t.0) result ≡ boxing types.now (places_of operands.now) }
{
    match operands {
        [content] => place_of(types, &Row::Ref(*content)),
        _ => None,
    }
}

fn unboxing(types: &TypeTable, operands: &[TypeId]) -> Option<TypeId>
    ensures { option_map (λ t. t.0) result ≡ unboxing types.now (places_of operands.now) }
{
    match operands {
        [content] => box_content(types, *content),
        _ => None,
    }
}

// Whether it is there and this type.
fn is_type(found: Option<TypeId>, wanted: TypeId) -> bool
    ensures { result ≡ is_number (option_map (λ t. t.0) found) wanted.0 }
{
    match found {
        Some(ty) => ty.0 == wanted.0,
        None => false,
    }
}

fn box_writing(types: &TypeTable, operands: &[TypeId]) -> Option<TypeId>
    ensures { option_map (λ t. t.0) result ≡ box_writing types.now (places_of operands.now) }
{
    match operands {
        [target, content] if is_type(box_content(types, *target), *content) => {
            place_of(types, &Row::Unit)
        }
        _ => None,
    }
}

fn vector_making(types: &TypeTable, operands: &[TypeId]) -> Option<TypeId>
    ensures { option_map (λ t. t.0) result ≡ vector_making types.now (places_of operands.now) }
{
    match operands {
        [size, content] if is_int(types, *size) => place_of(types, &Row::Vect(*content)),
        _ => None,
    }
}

fn element(types: &TypeTable, operands: &[TypeId]) -> Option<TypeId>
    ensures { option_map (λ t. t.0) result ≡ element types.now (places_of operands.now) }
{
    match operands {
        [vector, index] if is_int(types, *index) => vector_content(types, *vector),
        _ => None,
    }
}

fn element_writing(types: &TypeTable, operands: &[TypeId]) -> Option<TypeId>
    ensures { option_map (λ t. t.0) result ≡ element_writing types.now (places_of operands.now) }
{
    match operands {
        [vector, index, content]
            if is_int(types, *index) && is_type(vector_content(types, *vector), *content) => {
            place_of(types, &Row::Unit)
        }
        _ => None,
    }
}

fn measuring(types: &TypeTable, operands: &[TypeId]) -> Option<TypeId>
    ensures { option_map (λ t. t.0) result ≡ measuring types.now (places_of operands.now) }
{
    match operands {
        [vector] if vector_content(types, *vector).is_some() => place_of(types, &Row::Int),
        _ => None,
    }
}
