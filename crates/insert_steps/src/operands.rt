// What operators do with their operands, and the types of their answers.
#![tactic(auto, using(crate::proofs::Rules::rules), unfolding(cast_rules::specs::Making::then_make))]

ghost use Rattle.std.specs.Prelude.{◌≡◌, IfOk, OnOk, map};
ghost use Rattle.cast_rules.specs.Making.{Makes};
ghost use Rattle.cast_rules.specs.Operators.{answer_of, answer_type, operand_by, operands_of, box_by, vector_by};
ghost use Rattle.grift_base.specs.Types.{row_at};
ghost use Rattle.type_graph.specs.TypeTables.{MayBePart};
ghost use Rattle.cast_rules.specs.Room.{Grows, MayPart};
ghost use Rattle.insert_steps.specs.Views.{Answers, place_if, typed_of, work_of};
ghost use Rattle.insert_steps.specs.Seen.{answer_seen, held_of, operand_seen};

use crate::copies::refused;
use crate::progress::{Progress, Typed};
use grift_base::lists::OutOfMemory;
use grift_base::operators::PrimOp;
use grift_base::places::{Pos, TypeId};
use grift_base::refusals::{FrontFault, RefusalKind};
use std::alloc::Global;
use type_graph::rows::Row;

/// What an operator does with an operand.
#[derive(Clone, Copy)]
pub enum Operand {
    /// It is cast to Int.
    Int,
    /// It is cast to Bool.
    Bool,
    /// It keeps its type, which is that of the content.
    Content,
    /// It is a box, or is cast from Dyn to one, of the content.
    Box,
    /// It is a vector, or is cast from Dyn to one, of the content.
    Vector,
    /// It is cast to the content's type.
    AsContent,
}

/// The type of an operator's answer.
#[derive(Clone, Copy)]
pub enum OperatorAnswer {
    Int,
    Bool,
    Unit,
    /// The content's type.
    Content,
    /// Boxes of the content.
    BoxOf,
    /// Vectors of the content.
    VectorOf,
}

pub fn operands_of(operator: PrimOp) -> &'static [Operand]
    ensures { map operand_seen result.now ≡ operands_of operator }
{
    match operator {
        PrimOp::Add
        | PrimOp::Sub
        | PrimOp::Mul
        | PrimOp::Quot
        | PrimOp::Rem
        | PrimOp::Lt
        | PrimOp::Le
        | PrimOp::Eq
        | PrimOp::Ge
        | PrimOp::Gt => &[Operand::Int, Operand::Int],
        PrimOp::Not => &[Operand::Bool],
        PrimOp::PrintInt => &[Operand::Int],
        PrimOp::Newline | PrimOp::ReadInt => &[],
        PrimOp::MakeBox => &[Operand::Content],
        PrimOp::Unbox => &[Operand::Box],
        PrimOp::BoxSet => &[Operand::Box, Operand::AsContent],
        PrimOp::MakeVector => &[Operand::Int, Operand::Content],
        PrimOp::VectorRef => &[Operand::Vector, Operand::Int],
        PrimOp::VectorSet => &[Operand::Vector, Operand::Int, Operand::AsContent],
        PrimOp::VectorLength => &[Operand::Vector],
    }
}

fn answer_of(operator: PrimOp) -> OperatorAnswer
    ensures { answer_seen result ≡ answer_of operator }
{
    match operator {
        PrimOp::Add | PrimOp::Sub | PrimOp::Mul | PrimOp::Quot | PrimOp::Rem => OperatorAnswer::Int,
        PrimOp::Lt | PrimOp::Le | PrimOp::Eq | PrimOp::Ge | PrimOp::Gt | PrimOp::Not => {
            OperatorAnswer::Bool
        }
        PrimOp::PrintInt | PrimOp::Newline | PrimOp::BoxSet | PrimOp::VectorSet => {
            OperatorAnswer::Unit
        }
        PrimOp::ReadInt | PrimOp::VectorLength => OperatorAnswer::Int,
        PrimOp::MakeBox => OperatorAnswer::BoxOf,
        PrimOp::Unbox | PrimOp::VectorRef => OperatorAnswer::Content,
        PrimOp::MakeVector => OperatorAnswer::VectorOf,
    }
}

/// The type of an operator's answer, where the content has this type.
pub fn answer_type(
    progress: &mut Progress,
    operator: PrimOp,
    content: Option<TypeId>,
) -> Result<TypeId, OutOfMemory>
    requires { MayPart progress.old.types (place_if content) }
    ensures made { IfOk result (λ ty. answer_type (answer_of operator) (place_if content) (work_of progress.old)
        ≡ Makes ty.0 (work_of progress.new)) }
    ensures grows { OnOk result (Grows progress.old.types progress.new.types) }
{
    let answer = answer_of(operator);
    match (answer, content) {
        (OperatorAnswer::Int, _) => progress.form(Row::Int),
        (OperatorAnswer::Bool, _) => progress.form(Row::Bool),
        (OperatorAnswer::Unit, _) => progress.form(Row::Unit),
        (OperatorAnswer::Content, Some(content)) => Ok(content),
        (OperatorAnswer::BoxOf, Some(content)) => progress.form(Row::Ref(content)),
        (OperatorAnswer::VectorOf, Some(content)) => progress.form(Row::Vect(content)),
        (_, None) => progress.form(Row::Unit),
    }
}

/// A term, and the type of the content that it holds or is.
#[derive(Drop)]
pub struct Held {
    pub held: Typed,
    pub content: Option<TypeId>,
}

// A term as a box.
fn open_box(alloc: Global, progress: &mut Progress, pos: Pos, e: Typed) -> Result<Held, FrontFault>
    requires { MayBePart progress.old.types e.ty.0 }
    ensures answer { Answers result held_of (work_of progress.new)
        (box_by pos (typed_of e) (row_at progress.old.types e.ty.0) (work_of progress.old)) }
    ensures grows { OnOk result (Grows progress.old.types progress.new.types) }
    ensures content { IfOk result (λ held. MayPart progress.new.types (place_if held.content)) }
{
    match progress.row(alloc, e.ty)? {
        Row::Ref(content) => Ok(Held {
            held: e,
            content: Some(content),
        }),
        Row::Dyn => {
            let dyn_type = e.ty;
            let opened = progress.form(Row::Ref(dyn_type))?;
            let held = progress.cast_at(alloc, pos, e, opened)?;
            Ok(Held {
                held,
                content: Some(dyn_type),
            })
        }
        _ => refused(RefusalKind::NotRef, pos),
    }
}

// A term as a vector.
fn open_vector(
    alloc: Global,
    progress: &mut Progress,
    pos: Pos,
    e: Typed,
) -> Result<Held, FrontFault>
    requires { MayBePart progress.old.types e.ty.0 }
    ensures answer { Answers result held_of (work_of progress.new)
        (vector_by pos (typed_of e) (row_at progress.old.types e.ty.0) (work_of progress.old)) }
    ensures grows { OnOk result (Grows progress.old.types progress.new.types) }
    ensures content { IfOk result (λ held. MayPart progress.new.types (place_if held.content)) }
{
    match progress.row(alloc, e.ty)? {
        Row::Vect(content) => Ok(Held {
            held: e,
            content: Some(content),
        }),
        Row::Dyn => {
            let dyn_type = e.ty;
            let opened = progress.form(Row::Vect(dyn_type))?;
            let held = progress.cast_at(alloc, pos, e, opened)?;
            Ok(Held {
                held,
                content: Some(dyn_type),
            })
        }
        _ => refused(RefusalKind::NotVector, pos),
    }
}

/// An operand as its operator wants it, where the content's type is known if a box, a vector or the content came
/// before.
pub fn fitted(
    alloc: Global,
    progress: &mut Progress,
    pos: Pos,
    content: Option<TypeId>,
    e: Typed,
    operand: Operand,
) -> Result<Held, FrontFault>
    requires e { MayBePart progress.old.types e.ty.0 }
    requires content { MayPart progress.old.types (place_if content) }
    ensures answer { Answers result held_of (work_of progress.new)
        (operand_by pos (place_if content) (typed_of e) (operand_seen operand) (work_of progress.old)) }
    ensures grows { OnOk result (Grows progress.old.types progress.new.types) }
    ensures content { IfOk result (λ held. MayPart progress.new.types (place_if held.content)) }
{
    match operand {
        Operand::Int => {
            let held = progress.cast_to_row(alloc, pos, Row::Int, e)?;
            Ok(Held { held, content })
        }
        Operand::Bool => {
            let held = progress.cast_to_row(alloc, pos, Row::Bool, e)?;
            Ok(Held { held, content })
        }
        Operand::Content => {
            let content = Some(e.ty);
            Ok(Held { held: e, content })
        }
        Operand::Box => open_box(alloc, progress, pos, e),
        Operand::Vector => open_vector(alloc, progress, pos, e),
        Operand::AsContent => {
            let held = progress.cast_if(alloc, pos, content, e)?;
            Ok(Held { held, content })
        }
    }
}
