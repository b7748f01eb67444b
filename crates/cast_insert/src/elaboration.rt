// The elaboration of expressions, form by form.
#![tactic(auto, using(crate::proofs::LoopRules::loop_rules), unfolding(cast_rules::specs::Making::then_make))]

ghost use Rattle.std.specs.Prelude.{◌≡◌, ◌≤◌, ◌==◌, ◌∷◌, ◌++◌, [], None, IfOk, OnOk, length, map};
ghost use Rattle.grift_base.specs.Types.{row_at};
ghost use Rattle.grift_base.specs.declared.places.Pos.{Pos};
ghost use Rattle.type_graph.specs.Rows.{places_of};
ghost use Rattle.type_graph.specs.TypeTables.{MayBePart};
ghost use Rattle.core_calc.specs.Terms.{Group, Let, NoBindings, NoMembers, Seq, binding_list, member_list, term_list};
ghost use Rattle.core_calc.specs.Views.{bindings_of, members_of, names_of, term_of, terms_of};
ghost use Rattle.surface_trees.specs.Trees.{AscribeNode, BeginNode, PrimNode, TupleNode};
ghost use Rattle.surface_trees.specs.Views.{expr_of, exprs_of, lambda_of, lets_of, letrecs_of, node_of, type_of};
ghost use Rattle.surface_trees.specs.Views.{name_of_binding, type_of_binding, value_of_binding};
ghost use Rattle.cast_rules.specs.Sources.{how_many, last_place, place_of};
ghost use Rattle.cast_rules.specs.Making.{Makes, typed};
ghost use Rattle.cast_rules.specs.Environments.{plain, with_names};
ghost use Rattle.cast_rules.specs.Calls.{call_by};
ghost use Rattle.cast_rules.specs.Elaboration.{elaborate, elaborate_node, elaborate_all, elaborate_each};
ghost use Rattle.cast_rules.specs.Elaboration.{elaborate_operands, elaborate_sequence, elaborate_bindings};
ghost use Rattle.cast_rules.specs.Elaboration.{elaborate_lambda, elaborate_member, elaborate_members, seq};
ghost use Rattle.cast_rules.specs.Programs.{AreSources, IsSource, IsSourceBody, IsSourceLambda, IsSourceNode};
ghost use Rattle.cast_rules.specs.Programs.{AreSourceBindings, AreSourceMembers, MayBeWritten};
ghost use Rattle.cast_rules.specs.Room.{AreParts, Grows, MayPart};
ghost use Rattle.insert_steps.specs.Scoped.{env_of};
ghost use Rattle.insert_steps.specs.Seen.{operand_seen};
ghost use Rattle.cast_insert.specs.Heads.{head_seen, heads_seen};
ghost use Rattle.insert_steps.specs.Gathered.{given_of};
ghost use Rattle.cast_insert.specs.Bodies.{body_of, bound_of, bound_value, function_of, gathered_of};
ghost use Rattle.cast_insert.specs.Bodies.{lambda_rest, lambda_with, member_with, operation_on, sequence_of};
ghost use Rattle.insert_steps.specs.Views.{Answers, place_if, typed_of, work_of};
ghost use Rattle.insert_steps.specs.Onto.{bindings_onto, members_onto};

use crate::heads::{Head, heads};
use core_calc::terms::{
    Core, CoreBinding, CoreBindings, CoreList, GroupMember, GroupMembers, VarId, VarIds,
};
use grift_base::lists::OutOfMemory;
use grift_base::made::boxed;
use grift_base::operators::PrimOp;
use grift_base::places::{Pos, TypeId};
use grift_base::refusals::{FrontFault, RefusalKind};
use insert_steps::copies::refused;
use insert_steps::joining::{
    Given, Placed, called_dyn, given_first, joined, literal, plain, projected, terms_first, tuple,
    turned, used,
};
use insert_steps::names::{Meaning, Named, Scopes};
use insert_steps::operands::{Operand, answer_type, fitted, operands_of};
use insert_steps::parameters::{bind_names, parameter_types, plain_name, variables_of};
use insert_steps::progress::{Progress, Typed};
use std::alloc::Global;
use surface_trees::exprs::{Binding, Bindings, Expr, ExprList, ExprNode, LambdaExpr, Members};
use surface_trees::types::TypeExpr;
use type_graph::rows::{Row, TypeIds};

/// Terms in order, and the type of the last.
#[derive(Drop)]
struct Sequence {
    terms: CoreList,
    ty: TypeId,
}

/// Bound terms, and what their names mean.
#[derive(Drop)]
struct Bound {
    bindings: CoreBindings,
    names: Vec<Named>,
}

/// The operands of an operator, and the type of the content if there is one.
#[derive(Drop)]
struct Gathered {
    terms: CoreList,
    content: Option<TypeId>,
}

/// The parameters and the body of a member.
#[derive(Drop)]
struct MemberBody {
    variables: VarIds,
    body: Box<Core>,
}

impl Sequence {
    // The sequence as a term.
    fn typed(self, alloc: Global) -> Result<Typed, OutOfMemory>
        ensures { IfOk result (λ e. typed_of e ≡ seq (sequence_of self)) }
    {
        plain(alloc, Core::Seq(self.terms), self.ty)
    }
}

// What is handed on of an expression is its box: a function that is handed the expression itself shows all of it.

// The place of an expression.
fn place(e: &Box<Expr>) -> Pos
    ensures { result ≡ place_of (expr_of e.now.value) }
{
    e.pos
}

// The place of the last expression, or this one where there is none.
fn last_pos(pos: Pos, list: &ExprList) -> Pos
    ensures { result ≡ last_place pos (exprs_of list.now) }
{
    let mut last = pos;
    let mut left = list;
    while let ExprList::Cons(first, rest) = left {
        last = place(first);
        left = rest;
    }
    last
}

// Whether these are so many expressions.
fn has_length(list: &ExprList, wanted: u64) -> bool
    ensures { result ≡ (how_many (exprs_of list.now) == wanted) }
{
    match list {
        ExprList::Nil => wanted == 0,
        ExprList::Cons(_, rest) => wanted != 0 && has_length(rest, wanted - 1),
    }
}

// A function of these parameters with this body.
fn function(
    alloc: Global,
    progress: &mut Progress,
    names: &[Named],
    types: &[TypeId],
    e: Typed,
) -> Result<Typed, OutOfMemory>
    requires types { AreParts progress.old.types (places_of types.now) }
    requires few { length (places_of types.now) ≤ 6 }
    requires answer { MayBePart progress.old.types e.ty.0 }
    ensures made { IfOk result (λ f. function_of (env_of names.now) (places_of types.now) (typed_of e)
        (work_of progress.old) ≡ Makes (typed_of f) (work_of progress.new)) }
    ensures grows { OnOk result (Grows progress.old.types progress.new.types) }
{
    let variables = variables_of(alloc, names)?;
    let parameters = TypeIds::from_slice(alloc, types)?;
    let ty = progress.form(Row::Fun(parameters, e.ty))?;
    plain(alloc, Core::Lambda(variables, e.core, ty), ty)
}

// The steps behind the last expression of a form stand outside of the cycle: there an exit costs less.

// A lambda with this body, whose last expression stands at `pos`.
fn closed(
    alloc: Global,
    progress: &mut Progress,
    pos: Pos,
    wanted: Option<TypeId>,
    names: &[Named],
    types: &[TypeId],
    done: Sequence,
) -> Result<Typed, FrontFault>
    requires types { AreParts progress.old.types (places_of types.now) }
    requires few { length (places_of types.now) ≤ 6 }
    requires wanted { MayPart progress.old.types (place_if wanted) }
    requires part { MayBePart progress.old.types done.ty.0 }
    ensures answer { Answers result typed_of (work_of progress.new) (lambda_with pos (place_if wanted)
        (env_of names.now) (places_of types.now) (sequence_of done) (work_of progress.old)) }
    ensures grows { OnOk result (Grows progress.old.types progress.new.types) }
{
    let inner = done.typed(alloc)?;
    let e = progress.cast_if(alloc, pos, wanted, inner)?;
    Ok(function(alloc, progress, names, types, e)?)
}

// A member with this body, whose last expression stands at `pos`.
fn member_body(
    alloc: Global,
    progress: &mut Progress,
    pos: Pos,
    answer: TypeId,
    names: &[Named],
    done: Sequence,
) -> Result<MemberBody, FrontFault>
    ensures answer { Answers result body_of (work_of progress.new)
        (member_with pos answer.0 (env_of names.now) (sequence_of done) (work_of progress.old)) }
    ensures grows { OnOk result (Grows progress.old.types progress.new.types) }
{
    let inner = done.typed(alloc)?;
    let e = progress.cast_to(alloc, pos, answer, inner)?;
    let variables = variables_of(alloc, names)?;
    Ok(MemberBody {
        variables,
        body: e.core,
    })
}

// An operator on these operands.
fn operated(
    alloc: Global,
    progress: &mut Progress,
    operator: PrimOp,
    given: Gathered,
) -> Result<Typed, FrontFault>
    requires content { MayPart progress.old.types (place_if given.content) }
    ensures answer { Answers result typed_of (work_of progress.new)
        (operation_on operator (gathered_of given) (work_of progress.old)) }
    ensures grows { OnOk result (Grows progress.old.types progress.new.types) }
{
    let ty = answer_type(progress, operator, given.content)?;
    Ok(plain(alloc, Core::Prim(operator, given.terms), ty)?)
}

// These bindings around these terms.
fn let_term(alloc: Global, bindings: CoreBindings, done: Sequence) -> Result<Typed, OutOfMemory>
    ensures { IfOk result (λ e. typed_of e
        ≡ typed (Let (bindings_of bindings) (Seq (terms_of done.terms))) done.ty.0) }
{
    let inner = boxed(alloc, Core::Seq(done.terms))?;
    plain(alloc, Core::Let(bindings, inner), done.ty)
}

// These members around these terms.
fn group_term(alloc: Global, group: GroupMembers, done: Sequence) -> Result<Typed, OutOfMemory>
    ensures { IfOk result (λ e. typed_of e
        ≡ typed (Group (members_of group) (Seq (terms_of done.terms))) done.ty.0) }
{
    let inner = boxed(alloc, Core::Seq(done.terms))?;
    plain(alloc, Core::Group(group, inner), done.ty)
}

fn push(names: &mut Vec<Named>, named: Named) -> Result<(), OutOfMemory>
    ensures { OnOk result (names.new.items ≡ names.old.items ++ named ∷ []) }
{
    names.push(named)?;
    Ok(())
}

// Puts a term in front of the others.
fn push_term(alloc: Global, terms: &mut CoreList, core: Box<Core>) -> Result<(), OutOfMemory>
    ensures { OnOk result (term_list (terms_of terms.new) ≡ term_of core.value ∷ term_list (terms_of terms.old)) }
{
    terms.push_front(alloc, Box::into_inner(core))?;
    Ok(())
}

// Puts a bound term in front of the others.
fn push_binding(
    alloc: Global,
    bindings: &mut CoreBindings,
    name: VarId,
    core: Box<Core>,
) -> Result<(), OutOfMemory>
    ensures { OnOk result (binding_list (bindings_of bindings.new)
        ≡ record { name = name.0; bound = term_of core.value } ∷ binding_list (bindings_of bindings.old)) }
{
    let value = Box::into_inner(core);
    bindings.push_front(alloc, CoreBinding { name, value })?;
    Ok(())
}

// Puts a member whose name means this in front of the others.
fn push_member(
    alloc: Global,
    members: &mut GroupMembers,
    meaning: Meaning,
    member: MemberBody,
) -> Result<(), OutOfMemory>
    ensures { OnOk result (member_list (members_of members.new) ≡ record {
      name = meaning.variable.0;
      parameters = names_of member.variables;
      body = term_of member.body.value;
      type = meaning.ty.0;
    } ∷ member_list (members_of members.old)) }
{
    let body = Box::into_inner(member.body);
    members.push_front(
        alloc,
        GroupMember {
            name: meaning.variable,
            params: member.variables,
            body,
            ty: meaning.ty,
        },
    )?;
    Ok(())
}

// The name of a binding, which means this variable of this type.
fn binding_name(
    alloc: Global,
    binding: &Box<Binding>,
    variable: VarId,
    ty: TypeId,
) -> Result<Named, OutOfMemory>
    ensures { IfOk result (λ named. env_of (named ∷ []) ≡ (
      name_of_binding binding.now.value,
      plain (place_of (value_of_binding binding.now.value)) variable.0 ty.0,
    ) ∷ []) }
{
    plain_name(alloc, &binding.name, binding.value.pos, variable, ty)
}

// Bindings that were gathered with the last one first, in their order.
fn turned_bindings(bindings: CoreBindings) -> CoreBindings
    ensures { bindings_of result ≡ bindings_onto (binding_list (bindings_of bindings)) NoBindings }
{
    bindings.reversed()
}

// Members that were gathered with the last one first, in their order.
fn turned_members(members: GroupMembers) -> GroupMembers
    ensures { members_of result ≡ members_onto (member_list (members_of members)) NoMembers }
{
    members.reversed()
}

/// An expression.
#[cycle(elaborate)]
pub(crate) fn elaborate(
    alloc: Global,
    progress: &mut Progress,
    scopes: &mut Scopes,
    e: &Expr,
) -> Result<Typed, FrontFault>
    requires { IsSource (expr_of e.now) }
    ensures answer { Answers result typed_of (work_of progress.new)
        (elaborate (expr_of e.now) scopes.old (work_of progress.old)) }
    ensures scopes { OnOk result (scopes.new ≡ scopes.old) }
    ensures grows { OnOk result (Grows progress.old.types progress.new.types) }
    ensures part { IfOk result (λ e. MayBePart progress.new.types e.ty.0) }
{
    let pos = e.pos;
    let typed = node(alloc, progress, scopes, pos, &e.node)?;
    progress.not_too_large(pos, typed.ty)?;
    Ok(typed)
}

// An expression inside another.
#[cycle(elaborate)]
fn inside(
    alloc: Global,
    progress: &mut Progress,
    scopes: &mut Scopes,
    e: &Box<Expr>,
) -> Result<Typed, FrontFault>
    requires { IsSource (expr_of e.now.value) }
    ensures answer { Answers result typed_of (work_of progress.new)
        (elaborate (expr_of e.now.value) scopes.old (work_of progress.old)) }
    ensures scopes { OnOk result (scopes.new ≡ scopes.old) }
    ensures grows { OnOk result (Grows progress.old.types progress.new.types) }
    ensures part { IfOk result (λ e. MayBePart progress.new.types e.ty.0) }
{
    elaborate(alloc, progress, scopes, e)
}

// An expression, without the test of its type's size.
#[cycle(elaborate)]
fn node(
    alloc: Global,
    progress: &mut Progress,
    scopes: &mut Scopes,
    pos: Pos,
    node: &ExprNode,
) -> Result<Typed, FrontFault>
    requires { IsSourceNode (node_of node.now) }
    ensures answer { Answers result typed_of (work_of progress.new)
        (elaborate_node (node_of node.now) pos scopes.old (work_of progress.old)) }
    ensures scopes { OnOk result (scopes.new ≡ scopes.old) }
    ensures grows { OnOk result (Grows progress.old.types progress.new.types) }
{
    match node {
        ExprNode::Int(n) => literal(alloc, progress, Core::Int(*n), Row::Int),
        ExprNode::Bool(b) => literal(alloc, progress, Core::Bool(*b), Row::Bool),
        ExprNode::Unit => literal(alloc, progress, Core::Unit, Row::Unit),
        ExprNode::Name(name) => used(alloc, progress, pos, scopes.find(name)),
        ExprNode::Lambda(l) => lambda(alloc, progress, scopes, l),
        ExprNode::Call(function, arguments) => {
            let f = inside(alloc, progress, scopes, function)?;
            call(alloc, progress, scopes, pos, place(function), f, arguments)
        }
        ExprNode::Let(..) => let_form(alloc, progress, scopes, node),
        ExprNode::Letrec(..) => letrec_form(alloc, progress, scopes, node),
        ExprNode::If(..) => if_form(alloc, progress, scopes, pos, node),
        ExprNode::Begin(inner) => begin_form(alloc, progress, scopes, inner),
        ExprNode::Ascribe(e, t) => ascribed(alloc, progress, scopes, pos, e, t),
        ExprNode::Tuple(parts) => tuple_form(alloc, progress, scopes, parts),
        ExprNode::Proj(whole, part, part_pos) => {
            let e = inside(alloc, progress, scopes, whole)?;
            projected(alloc, progress, place(whole), *part_pos, e, *part)
        }
        ExprNode::Prim(operator, list) => operation(alloc, progress, scopes, *operator, list),
    }
}

// Forms of several steps have functions of their own: what a proof costs goes by the calls of a function times its
// exits.

// A `let`; no other form comes here.
#[cycle(elaborate)]
fn let_form(
    alloc: Global,
    progress: &mut Progress,
    scopes: &mut Scopes,
    node: &ExprNode,
) -> Result<Typed, FrontFault>
    requires { IsSourceNode (node_of node.now) }
    ensures answer { (place : Pos) → Answers result typed_of (work_of progress.new)
        (elaborate_node (node_of node.now) place scopes.old (work_of progress.old)) }
    ensures scopes { OnOk result (scopes.new ≡ scopes.old) }
    ensures grows { OnOk result (Grows progress.old.types progress.new.types) }
{
    let ExprNode::Let(list, inner) = node else {
        return Err(FrontFault::OutOfMemory);
    };
    let bound = bindings(alloc, progress, scopes, list)?;
    let done = body(alloc, progress, scopes, bound.names.as_slice(), inner)?;
    Ok(let_term(alloc, bound.bindings, done)?)
}

// A `letrec`; no other form comes here.
#[cycle(elaborate)]
fn letrec_form(
    alloc: Global,
    progress: &mut Progress,
    scopes: &mut Scopes,
    node: &ExprNode,
) -> Result<Typed, FrontFault>
    requires { IsSourceNode (node_of node.now) }
    ensures answer { (place : Pos) → Answers result typed_of (work_of progress.new)
        (elaborate_node (node_of node.now) place scopes.old (work_of progress.old)) }
    ensures scopes { OnOk result (scopes.new ≡ scopes.old) }
    ensures grows { OnOk result (Grows progress.old.types progress.new.types) }
{
    let ExprNode::Letrec(list, inner) = node else {
        return Err(FrontFault::OutOfMemory);
    };
    let heads = heads(alloc, progress, scopes, list)?;
    let group = members(alloc, progress, scopes, list, heads.as_slice())?;
    let done = in_order(alloc, progress, scopes, inner)?;
    scopes.leave(heads.len())?;
    Ok(group_term(alloc, group, done)?)
}

// An expression at a written type.
#[cycle(elaborate)]
fn ascribed(
    alloc: Global,
    progress: &mut Progress,
    scopes: &mut Scopes,
    pos: Pos,
    e: &Box<Expr>,
    written: &TypeExpr,
) -> Result<Typed, FrontFault>
    requires { IsSourceNode (AscribeNode (expr_of e.now.value) (type_of written.now)) }
    ensures answer { Answers result typed_of (work_of progress.new)
        (elaborate_node (AscribeNode (expr_of e.now.value) (type_of written.now)) pos scopes.old
        (work_of progress.old)) }
    ensures scopes { OnOk result (scopes.new ≡ scopes.old) }
    ensures grows { OnOk result (Grows progress.old.types progress.new.types) }
{
    let e = inside(alloc, progress, scopes, e)?;
    let ty = progress.written(alloc, written)?;
    progress.cast_to(alloc, pos, ty, e)
}

// A `begin`.
#[cycle(elaborate)]
fn begin_form(
    alloc: Global,
    progress: &mut Progress,
    scopes: &mut Scopes,
    inner: &ExprList,
) -> Result<Typed, FrontFault>
    requires { IsSourceNode (BeginNode (exprs_of inner.now)) }
    ensures answer { (place : Pos) → Answers result typed_of (work_of progress.new)
        (elaborate_node (BeginNode (exprs_of inner.now)) place scopes.old (work_of progress.old)) }
    ensures scopes { OnOk result (scopes.new ≡ scopes.old) }
    ensures grows { OnOk result (Grows progress.old.types progress.new.types) }
{
    let done = in_order(alloc, progress, scopes, inner)?;
    Ok(done.typed(alloc)?)
}

// A tuple of these parts.
#[cycle(elaborate)]
fn tuple_form(
    alloc: Global,
    progress: &mut Progress,
    scopes: &mut Scopes,
    parts: &ExprList,
) -> Result<Typed, FrontFault>
    requires { IsSourceNode (TupleNode (exprs_of parts.now)) }
    ensures answer { (place : Pos) → Answers result typed_of (work_of progress.new)
        (elaborate_node (TupleNode (exprs_of parts.now)) place scopes.old (work_of progress.old)) }
    ensures scopes { OnOk result (scopes.new ≡ scopes.old) }
    ensures grows { OnOk result (Grows progress.old.types progress.new.types) }
{
    let given = all(alloc, progress, scopes, parts)?;
    tuple(alloc, progress, given)
}

// An operator and its operands.
#[cycle(elaborate)]
fn operation(
    alloc: Global,
    progress: &mut Progress,
    scopes: &mut Scopes,
    operator: PrimOp,
    list: &ExprList,
) -> Result<Typed, FrontFault>
    requires { IsSourceNode (PrimNode operator (exprs_of list.now)) }
    ensures answer { (place : Pos) → Answers result typed_of (work_of progress.new)
        (elaborate_node (PrimNode operator (exprs_of list.now)) place scopes.old (work_of progress.old)) }
    ensures scopes { OnOk result (scopes.new ≡ scopes.old) }
    ensures grows { OnOk result (Grows progress.old.types progress.new.types) }
{
    let wanted = operands_of(operator);
    let given = operands(alloc, progress, scopes, list, wanted, None)?;
    operated(alloc, progress, operator, given)
}

// An `if`; no other form comes here.
#[cycle(elaborate)]
fn if_form(
    alloc: Global,
    progress: &mut Progress,
    scopes: &mut Scopes,
    pos: Pos,
    node: &ExprNode,
) -> Result<Typed, FrontFault>
    requires { IsSourceNode (node_of node.now) }
    ensures answer { Answers result typed_of (work_of progress.new)
        (elaborate_node (node_of node.now) pos scopes.old (work_of progress.old)) }
    ensures scopes { OnOk result (scopes.new ≡ scopes.old) }
    ensures grows { OnOk result (Grows progress.old.types progress.new.types) }
{
    let ExprNode::If(condition, on_true, on_false) = node else {
        return Err(FrontFault::OutOfMemory);
    };
    let test = inside(alloc, progress, scopes, condition)?;
    let truth = progress.cast_to_row(alloc, place(condition), Row::Bool, test)?;
    let first = inside(alloc, progress, scopes, on_true)?;
    let second = inside(alloc, progress, scopes, on_false)?;
    let first = Placed {
        pos: place(on_true),
        e: first,
    };
    let second = Placed {
        pos: place(on_false),
        e: second,
    };
    joined(alloc, progress, pos, truth, first, second)
}

// A call of this function, whose expression stands at `function_pos`.
#[cycle(elaborate)]
fn call(
    alloc: Global,
    progress: &mut Progress,
    scopes: &mut Scopes,
    pos: Pos,
    function_pos: Pos,
    function: Typed,
    arguments: &ExprList,
) -> Result<Typed, FrontFault>
    requires arguments { AreSources (exprs_of arguments.now) }
    requires few { how_many (exprs_of arguments.now) ≤ 6 }
    ensures answer { Answers result typed_of (work_of progress.new)
        (call_by pos function_pos (typed_of function) (how_many (exprs_of arguments.now))
        (elaborate_each (exprs_of arguments.now) scopes.old) (elaborate_all (exprs_of arguments.now) scopes.old)
        (row_at progress.old.types function.ty.0) (work_of progress.old)) }
    ensures scopes { OnOk result (scopes.new ≡ scopes.old) }
    ensures grows { OnOk result (Grows progress.old.types progress.new.types) }
{
    match progress.row(alloc, function.ty)? {
        Row::Fun(parameters, answer) => {
            if !has_length(arguments, parameters.len()) {
                return refused(RefusalKind::WrongCount, pos);
            }
            let terms = each(alloc, progress, scopes, arguments, parameters.as_slice())?;
            Ok(plain(alloc, Core::Call(function.core, terms), answer)?)
        }
        Row::Dyn => {
            let given = all(alloc, progress, scopes, arguments)?;
            called_dyn(alloc, progress, function_pos, function, given)
        }
        _ => refused(RefusalKind::NotFunction, function_pos),
    }
}

// Arguments or parts, each at its own type. There are eight at most.
#[cycle(elaborate)]
fn all(
    alloc: Global,
    progress: &mut Progress,
    scopes: &mut Scopes,
    list: &ExprList,
) -> Result<Given, FrontFault>
    requires { AreSources (exprs_of list.now) }
    ensures answer { Answers result given_of (work_of progress.new)
        (elaborate_all (exprs_of list.now) scopes.old (work_of progress.old)) }
    ensures scopes { OnOk result (scopes.new ≡ scopes.old) }
    ensures grows { OnOk result (Grows progress.old.types progress.new.types) }
    ensures parts { IfOk result (λ given. AreParts progress.new.types (given_of given).types) }
    ensures count { IfOk result (λ given. length (given_of given).types ≡ how_many (exprs_of list.now)) }
{
    let ExprList::Cons(first, rest) = list else {
        return Ok(Given {
            terms: CoreList::Nil,
            types: Vec::new(alloc),
        });
    };
    let e = inside(alloc, progress, scopes, first)?;
    let given = all(alloc, progress, scopes, rest)?;
    Ok(given_first(alloc, e, given)?)
}

// Arguments, each cast to the type that is wanted. There are six at most.
#[cycle(elaborate)]
fn each(
    alloc: Global,
    progress: &mut Progress,
    scopes: &mut Scopes,
    list: &ExprList,
    wanted: &[TypeId],
) -> Result<CoreList, FrontFault>
    requires { AreSources (exprs_of list.now) }
    ensures answer { Answers result terms_of (work_of progress.new)
        (elaborate_each (exprs_of list.now) scopes.old (places_of wanted.now) (work_of progress.old)) }
    ensures scopes { OnOk result (scopes.new ≡ scopes.old) }
    ensures grows { OnOk result (Grows progress.old.types progress.new.types) }
{
    let ExprList::Cons(first, rest) = list else {
        return Ok(CoreList::Nil);
    };
    let [ty, more @ ..] = wanted else {
        return Ok(CoreList::Nil);
    };
    let e = inside(alloc, progress, scopes, first)?;
    let argument = progress.cast_to(alloc, place(first), *ty, e)?;
    let others = each(alloc, progress, scopes, rest, more)?;
    Ok(terms_first(alloc, argument, others)?)
}

// Operands as their operator wants them, where the content's type may be known. There are three at most.
#[cycle(elaborate)]
fn operands(
    alloc: Global,
    progress: &mut Progress,
    scopes: &mut Scopes,
    list: &ExprList,
    wanted: &[Operand],
    content: Option<TypeId>,
) -> Result<Gathered, FrontFault>
    requires operands { AreSources (exprs_of list.now) }
    requires content { MayPart progress.old.types (place_if content) }
    ensures answer { Answers result gathered_of (work_of progress.new)
        (elaborate_operands (exprs_of list.now) (map operand_seen wanted.now) (place_if content) scopes.old
        (work_of progress.old)) }
    ensures scopes { OnOk result (scopes.new ≡ scopes.old) }
    ensures grows { OnOk result (Grows progress.old.types progress.new.types) }
    ensures content { IfOk result (λ gathered. MayPart progress.new.types (place_if gathered.content)) }
{
    let ExprList::Cons(first, rest) = list else {
        return Ok(Gathered {
            terms: CoreList::Nil,
            content,
        });
    };
    let [operand, more @ ..] = wanted else {
        return Ok(Gathered {
            terms: CoreList::Nil,
            content,
        });
    };
    let e = inside(alloc, progress, scopes, first)?;
    let one = fitted(alloc, progress, place(first), content, e, *operand)?;
    let others = operands(alloc, progress, scopes, rest, more, one.content)?;
    Ok(Gathered {
        terms: terms_first(alloc, one.held, others.terms)?,
        content: others.content,
    })
}

// A lambda.
#[cycle(elaborate)]
fn lambda(
    alloc: Global,
    progress: &mut Progress,
    scopes: &mut Scopes,
    l: &LambdaExpr,
) -> Result<Typed, FrontFault>
    requires { IsSourceLambda (lambda_of l.now) }
    ensures answer { Answers result typed_of (work_of progress.new)
        (elaborate_lambda (lambda_of l.now) scopes.old (work_of progress.old)) }
    ensures scopes { OnOk result (scopes.new ≡ scopes.old) }
    ensures grows { OnOk result (Grows progress.old.types progress.new.types) }
{
    let types = parameter_types(alloc, progress, l.params.as_slice())?;
    let wanted = progress.written_if(alloc, &l.result)?;
    let names = bind_names(
        alloc,
        progress,
        l.pos,
        l.params.as_slice(),
        types.as_slice(),
    )?;
    lambda_body(
        alloc,
        progress,
        scopes,
        l.pos,
        &l.body,
        types.as_slice(),
        wanted,
        names.as_slice(),
    )
}

// A lambda whose parameters have these names and types.
#[cycle(elaborate)]
fn lambda_body(
    alloc: Global,
    progress: &mut Progress,
    scopes: &mut Scopes,
    pos: Pos,
    inner: &ExprList,
    types: &[TypeId],
    wanted: Option<TypeId>,
    names: &[Named],
) -> Result<Typed, FrontFault>
    requires body { IsSourceBody (exprs_of inner.now) }
    requires types { AreParts progress.old.types (places_of types.now) }
    requires few { length (places_of types.now) ≤ 6 }
    requires wanted { MayPart progress.old.types (place_if wanted) }
    ensures answer { Answers result typed_of (work_of progress.new)
        (lambda_rest pos (exprs_of inner.now) (places_of types.now) (place_if wanted) (env_of names.now) scopes.old
        (work_of progress.old)) }
    ensures scopes { OnOk result (scopes.new ≡ scopes.old) }
    ensures grows { OnOk result (Grows progress.old.types progress.new.types) }
{
    let done = body(alloc, progress, scopes, names, inner)?;
    closed(
        alloc,
        progress,
        last_pos(pos, inner),
        wanted,
        names,
        types,
        done,
    )
}

// A body where these names are bound.
#[cycle(elaborate)]
fn body(
    alloc: Global,
    progress: &mut Progress,
    scopes: &mut Scopes,
    names: &[Named],
    inner: &ExprList,
) -> Result<Sequence, FrontFault>
    requires { IsSourceBody (exprs_of inner.now) }
    ensures answer { Answers result sequence_of (work_of progress.new)
        (elaborate_sequence (exprs_of inner.now) (with_names (env_of names.now) scopes.old) (work_of progress.old)) }
    ensures scopes { OnOk result (scopes.new ≡ scopes.old) }
    ensures grows { OnOk result (Grows progress.old.types progress.new.types) }
    ensures part { IfOk result (λ sequence. MayBePart progress.new.types sequence.ty.0) }
{
    scopes.enter(alloc, names)?;
    let done = in_order(alloc, progress, scopes, inner)?;
    scopes.leave(names.len())?;
    Ok(done)
}

// Expressions one after another.
#[cycle(elaborate)]
fn in_order(
    alloc: Global,
    progress: &mut Progress,
    scopes: &mut Scopes,
    list: &ExprList,
) -> Result<Sequence, FrontFault>
    requires { IsSourceBody (exprs_of list.now) }
    ensures answer { Answers result sequence_of (work_of progress.new)
        (elaborate_sequence (exprs_of list.now) scopes.old (work_of progress.old)) }
    ensures scopes { OnOk result (scopes.new ≡ scopes.old) }
    ensures grows { OnOk result (Grows progress.old.types progress.new.types) }
    ensures part { IfOk result (λ sequence. MayBePart progress.new.types sequence.ty.0) }
{
    let mut terms = CoreList::new();
    let mut left = list;
    loop {
        let ExprList::Cons(first, rest) = left else {
            // No body is empty.
            let ty = progress.form(Row::Unit)?;
            return Ok(Sequence {
                terms: turned(terms),
                ty,
            });
        };
        let e = inside(alloc, progress, scopes, first)?;
        let ty = e.ty;
        push_term(alloc, &mut terms, e.core)?;
        if let ExprList::Nil = &**rest {
            return Ok(Sequence {
                terms: turned(terms),
                ty,
            });
        }
        left = rest;
    }
}

// The bindings of a `let`, outside their names.
#[cycle(elaborate)]
fn bindings(
    alloc: Global,
    progress: &mut Progress,
    scopes: &mut Scopes,
    list: &Bindings,
) -> Result<Bound, FrontFault>
    requires { AreSourceBindings (lets_of list.now) }
    ensures answer { Answers result bound_of (work_of progress.new)
        (elaborate_bindings (lets_of list.now) scopes.old (work_of progress.old)) }
    ensures scopes { OnOk result (scopes.new ≡ scopes.old) }
    ensures grows { OnOk result (Grows progress.old.types progress.new.types) }
{
    let mut done = CoreBindings::new();
    let mut names = Vec::new(alloc);
    let mut left = list;
    while let Bindings::Cons(first, rest) = left {
        let bound = bound_value(alloc, progress, scopes, first)?;
        let variable = progress.fresh()?;
        let named = binding_name(alloc, first, variable, bound.ty)?;
        push(&mut names, named)?;
        push_binding(alloc, &mut done, variable, bound.core)?;
        left = rest;
    }
    Ok(Bound {
        bindings: turned_bindings(done),
        names,
    })
}

// The value of a binding, at its written type if it has one.
#[cycle(elaborate)]
fn bound_value(
    alloc: Global,
    progress: &mut Progress,
    scopes: &mut Scopes,
    binding: &Box<Binding>,
) -> Result<Typed, FrontFault>
    requires value { IsSource (value_of_binding binding.now.value) }
    requires written { MayBeWritten (type_of_binding binding.now.value) }
    ensures answer { Answers result typed_of (work_of progress.new)
        (bound_value (type_of_binding binding.now.value) (value_of_binding binding.now.value) scopes.old
        (work_of progress.old)) }
    ensures scopes { OnOk result (scopes.new ≡ scopes.old) }
    ensures grows { OnOk result (Grows progress.old.types progress.new.types) }
{
    let Binding { name: _, ty, value } = &**binding;
    let e = elaborate(alloc, progress, scopes, value)?;
    let wanted = progress.written_if(alloc, ty)?;
    progress.cast_if(alloc, value.pos, wanted, e)
}

// The members of a `letrec` with these heads.
#[cycle(elaborate)]
fn members(
    alloc: Global,
    progress: &mut Progress,
    scopes: &mut Scopes,
    list: &Members,
    heads: &[Head],
) -> Result<GroupMembers, FrontFault>
    requires { AreSourceMembers (letrecs_of list.now) }
    ensures answer { Answers result members_of (work_of progress.new)
        (elaborate_members (letrecs_of list.now) (heads_seen heads.now) scopes.old (work_of progress.old)) }
    ensures scopes { OnOk result (scopes.new ≡ scopes.old) }
    ensures grows { OnOk result (Grows progress.old.types progress.new.types) }
{
    let mut done = GroupMembers::new();
    let mut left = list;
    let mut heads_left = heads;
    while let Members::Cons(first, rest) = left {
        let [head, more @ ..] = heads_left else {
            return Ok(turned_members(done));
        };
        let member = member(alloc, progress, scopes, &first.fun, head)?;
        push_member(alloc, &mut done, head.meaning, member)?;
        left = rest;
        heads_left = more;
    }
    Ok(turned_members(done))
}

// A member with this head.
#[cycle(elaborate)]
fn member(
    alloc: Global,
    progress: &mut Progress,
    scopes: &mut Scopes,
    l: &LambdaExpr,
    head: &Head,
) -> Result<MemberBody, FrontFault>
    requires { IsSourceLambda (lambda_of l.now) }
    ensures answer { Answers result body_of (work_of progress.new)
        (elaborate_member (lambda_of l.now) (head_seen head.now) scopes.old (work_of progress.old)) }
    ensures scopes { OnOk result (scopes.new ≡ scopes.old) }
    ensures grows { OnOk result (Grows progress.old.types progress.new.types) }
{
    let types = head.parameters.as_slice();
    let names = bind_names(alloc, progress, l.pos, l.params.as_slice(), types)?;
    let done = body(alloc, progress, scopes, names.as_slice(), &l.body)?;
    let last = last_pos(l.pos, &l.body);
    member_body(alloc, progress, last, head.answer, names.as_slice(), done)
}
