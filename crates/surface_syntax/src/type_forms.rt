// Types from s-expressions.
#![tactic(auto, using(form_table::proofs::Public::walk_steps), unfolding(form_table::specs::Walking::followed_by))]

ghost use Rattle.std.specs.Prelude.{◌≡◌};
ghost use Rattle.sexpr_reader.specs.View.{datum_of, datums_of};
ghost use Rattle.form_table.specs.Marked.{marked, all_marked, marked_symbol, list as list_at};
ghost use Rattle.form_table.specs.Words.{mark_of};
ghost use Rattle.form_table.specs.Walk.{walk_type, walk_only, walk_types, walk_signature};
ghost use Rattle.type_graph.specs.Rows.{row_of};
ghost use Rattle.surface_trees.specs.Trees.{TypeAt, BaseType};
ghost use Rattle.surface_trees.specs.Views.{type_of, type_node_of, types_of};
ghost use Rattle.surface_syntax.specs.declared.type_forms.TypeHead.TheVariants.{Other};
ghost use Rattle.surface_syntax.specs.Parts.{signature_of, head_of_word, type_head, headed_type};
ghost use Rattle.form_table.specs.Claims.{Answers};

use form_table::lists::{bad_form, is_arrow, is_arrow_at, refused};
use form_table::words::{Mark, TypeWord, mark_of};
use grift_base::lists::Name;
use grift_base::made::boxed;
use grift_base::places::Pos;
use grift_base::refusals::{FrontFault, RefusalKind};
use sexpr_reader::sexps::{Sexp, SexpList, SexpNode};
use std::alloc::Global;
use surface_trees::types::{TypeExpr, TypeExprs, TypeNode};
use type_graph::rows::Row;

/// The most parts of a tuple's type.
const MOST_PARTS: u64 = 8;

/// The most parameters of a function's type.
const MOST_PARAMETERS: u64 = 6;

/// The types of a function's parameters, and of its result.
#[derive(Drop)]
struct Signature {
    parameters: TypeExprs,
    result: TypeExpr,
}

/// Which type a list writes, by its first element.
#[derive(Clone, Copy)]
enum TypeHead {
    Tuple,
    Ref,
    Vect,
    Rec,
    Other,
}

// Which type a list writes that begins with this word.
fn head_of(word: TypeWord) -> TypeHead
    ensures { result ≡ head_of_word word }
{
    match word {
        TypeWord::Tuple => TypeHead::Tuple,
        TypeWord::Ref => TypeHead::Ref,
        TypeWord::Vect => TypeHead::Vect,
        TypeWord::Rec => TypeHead::Rec,
        TypeWord::Int | TypeWord::Bool | TypeWord::Unit | TypeWord::Dyn => TypeHead::Other,
    }
}

fn type_head(sexp: &Sexp) -> TypeHead
    ensures { result ≡ type_head (marked (datum_of sexp.now)) }
{
    match &sexp.node {
        SexpNode::Symbol(name) => match mark_of(name.as_slice()) {
            Mark::Free(Some(word)) => head_of(word),
            Mark::Free(None) | Mark::Reserved(_) => TypeHead::Other,
        },
        SexpNode::Int(_) | SexpNode::Bool(_) | SexpNode::List(_) => TypeHead::Other,
    }
}

fn base(pos: Pos, row: Row) -> TypeExpr
    ensures { type_of result ≡ TypeAt pos (BaseType (row_of row)) }
{
    TypeExpr {
        pos,
        node: TypeNode::Base(row),
    }
}

// The type that a symbol writes.
fn type_symbol(pos: Pos, name: &Name) -> Result<TypeExpr, FrontFault>
    ensures { Answers result type_of (walk_type (marked_symbol pos name.now (mark_of name.now))) }
{
    match mark_of(name.as_slice()) {
        Mark::Free(Some(TypeWord::Int)) => Ok(base(pos, Row::Int)),
        Mark::Free(Some(TypeWord::Bool)) => Ok(base(pos, Row::Bool)),
        Mark::Free(Some(TypeWord::Unit)) => Ok(base(pos, Row::Unit)),
        Mark::Free(Some(TypeWord::Dyn)) => Ok(base(pos, Row::Dyn)),
        _ => bad_form(pos),
    }
}

/// The type that an s-expression writes.
#[cycle(read_type)]
pub fn type_expr(alloc: Global, sexp: &Sexp) -> Result<TypeExpr, FrontFault>
    ensures { Answers result type_of (walk_type (marked (datum_of sexp.now))) }
{
    match &sexp.node {
        SexpNode::Symbol(name) => type_symbol(sexp.pos, name),
        SexpNode::Int(_) | SexpNode::Bool(_) => bad_form(sexp.pos),
        SexpNode::List(elements) => {
            let node = type_list(alloc, sexp.pos, elements)?;
            Ok(TypeExpr {
                pos: sexp.pos,
                node,
            })
        }
    }
}

// What a list writes as a type.
#[cycle(read_type)]
fn type_list(alloc: Global, pos: Pos, elements: &SexpList) -> Result<TypeNode, FrontFault>
    ensures { Answers result (λ node. TypeAt pos (type_node_of node)) (walk_type (list_at pos (all_marked
        (datums_of elements.now)))) }
{
    let SexpList::Cons(head, _) = elements else {
        return Ok(TypeNode::Base(Row::Unit));
    };
    headed_type(alloc, pos, type_head(head), elements)
}

// What a list with this head writes as a type.
#[cycle(read_type)]
fn headed_type(
    alloc: Global,
    pos: Pos,
    head: TypeHead,
    elements: &SexpList,
) -> Result<TypeNode, FrontFault>
    ensures { Answers result (λ node. TypeAt pos (type_node_of node)) (headed_type head pos (all_marked
        (datums_of elements.now))) }
{
    let SexpList::Cons(_, rest) = elements else {
        return bad_form(pos);
    };
    match head {
        TypeHead::Tuple => {
            if let SexpList::Nil = &**rest {
                return bad_form(pos);
            }
            let parts = types(alloc, MOST_PARTS, rest)?;
            Ok(TypeNode::Tuple(parts))
        }
        TypeHead::Ref => {
            let content = content(alloc, pos, rest)?;
            Ok(TypeNode::Ref(content))
        }
        TypeHead::Vect => {
            let content = content(alloc, pos, rest)?;
            Ok(TypeNode::Vect(content))
        }
        TypeHead::Rec => bad_form(pos),
        TypeHead::Other => function(alloc, pos, elements),
    }
}

// What a list writes as the type of a function: forms of several steps have functions of their own, since what a proof
// costs goes by the calls of a function times its exits.
#[cycle(read_type)]
fn function(alloc: Global, pos: Pos, elements: &SexpList) -> Result<TypeNode, FrontFault>
    ensures { Answers result (λ node. TypeAt pos (type_node_of node)) (headed_type Other pos (all_marked
        (datums_of elements.now))) }
{
    if !is_arrow(elements) {
        return bad_form(pos);
    }
    let signature = arrow_type(alloc, MOST_PARAMETERS, elements)?;
    let result = boxed(alloc, signature.result)?;
    Ok(TypeNode::Fun(signature.parameters, result))
}

// The one type that these elements are, of what a reference or a vector holds.
#[cycle(read_type)]
fn content(alloc: Global, pos: Pos, elements: &SexpList) -> Result<Box<TypeExpr>, FrontFault>
    ensures { Answers result (λ content. type_of content.value) (walk_only pos (all_marked (datums_of
        elements.now))) }
{
    let content = only_type(alloc, pos, elements)?;
    Ok(boxed(alloc, content)?)
}

// The one type that these elements are, in a list at this place.
#[cycle(read_type)]
fn only_type(alloc: Global, pos: Pos, elements: &SexpList) -> Result<TypeExpr, FrontFault>
    ensures { Answers result type_of (walk_only pos (all_marked (datums_of elements.now))) }
{
    let SexpList::Cons(content, rest) = elements else {
        return bad_form(pos);
    };
    let SexpList::Nil = &**rest else {
        return bad_form(pos);
    };
    type_expr(alloc, content)
}

// Types of which there may be so many.
#[cycle(read_type)]
fn types(alloc: Global, room: u64, list: &SexpList) -> Result<TypeExprs, FrontFault>
    ensures { Answers result types_of (walk_types room (all_marked (datums_of list.now))) }
{
    let SexpList::Cons(first, rest) = list else {
        return Ok(TypeExprs::Nil);
    };
    if room == 0 {
        return refused(RefusalKind::TooWide, first.pos);
    }
    let first = boxed(alloc, type_expr(alloc, first)?)?;
    let rest = boxed(alloc, types(alloc, room - 1, rest)?)?;
    Ok(TypeExprs::Cons(first, rest))
}

// The types of so many parameters at most, the arrow and the result's type.
#[cycle(read_type)]
fn arrow_type(alloc: Global, room: u64, list: &SexpList) -> Result<Signature, FrontFault>
    ensures { Answers result signature_of (walk_signature room (all_marked (datums_of list.now))) }
{
    let SexpList::Cons(first, rest) = list else {
        return bad_form(Pos { line: 1, col: 1 });
    };
    if is_arrow_at(first) {
        return Ok(Signature {
            parameters: TypeExprs::Nil,
            result: only_type(alloc, first.pos, rest)?,
        });
    }
    if room == 0 {
        return refused(RefusalKind::TooWide, first.pos);
    }
    let first = boxed(alloc, type_expr(alloc, first)?)?;
    let others = arrow_type(alloc, room - 1, rest)?;
    let parameters = TypeExprs::Cons(first, boxed(alloc, others.parameters)?);
    Ok(Signature {
        parameters,
        result: others.result,
    })
}
