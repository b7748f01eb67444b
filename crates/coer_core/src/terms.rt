// Terms whose casts are numbers of rows.

ghost use Rattle.std.specs.Prelude.{◌≡◌, OnErr, OnOk};
ghost use Rattle.coer_core.specs.Terms.{NoRowBindings, NoRowMembers, NoRowTerms, RowTermThen};
ghost use Rattle.coer_core.specs.TermLists.{bindings_onto, members_onto, terms_onto};
ghost use Rattle.coer_core.specs.Views.{bindings_with, members_with, row_bindings_of, row_members_of, row_term_of};
ghost use Rattle.coer_core.specs.Views.{row_terms_of};

use core_calc::drop_parts;
use core_calc::terms::{VarId, VarIds};
use grift_base::drop_along;
use grift_base::lists::OutOfMemory;
use grift_base::operators::PrimOp;
use grift_base::places::{LabelId, TypeId};
use std::alloc::Global;
use std::mem;

/// A term whose casts are numbers of rows.
#[cycle(coer)]
pub enum CoerTerm {
    /// An integer as it is written.
    Int(i64),
    /// A truth value as it is written.
    Bool(bool),
    /// The one value of the unit type, as it is written.
    Unit,
    /// A name.
    Var(VarId),
    /// A function: its parameters, its body and its type.
    Lambda(VarIds, Box<CoerTerm>, TypeId),
    /// Functions that know each other, and a body that knows them.
    Group(CoerMembers, Box<CoerTerm>),
    /// Names bound at once, outside each other's scope, and a body.
    Let(CoerBindings, Box<CoerTerm>),
    /// A call: the function and its arguments.
    Call(Box<CoerTerm>, CoerList),
    /// A condition, the term where it is true, and that where it is false.
    If(Box<CoerTerm>, Box<CoerTerm>, Box<CoerTerm>),
    /// Terms one after another; the last one gives the value.
    Seq(CoerList),
    /// The cast of this number.
    Coerce(Box<CoerTerm>, u32),
    /// A part of a tuple, counted from 0.
    Proj(Box<CoerTerm>, i64),
    /// A part of the tuple that Dyn holds; the label is blamed where it holds none with that part.
    ProjDyn(Box<CoerTerm>, i64, LabelId),
    /// A tuple, by its parts.
    Tuple(CoerList),
    /// An operator and its operands.
    Prim(PrimOp, CoerList),
}

impl Drop for CoerTerm {
    #[cycle(coer)]
    fn drop(self) {
        drop_parts!(self, CoerTerm; Unit; Int(_), Bool(_), Var(_), Lambda(a, b, _), Group(a, b), Let(a, b),
            Call(a, b), If(a, b, c), Seq(a), Coerce(a, _), Proj(a, _), ProjDyn(a, _, _), Tuple(a), Prim(_, b))
    }
}

/// Terms in order.
#[cycle(coer)]
pub enum CoerList {
    /// No term.
    Nil,
    /// The first one, and those behind it.
    Cons(Box<CoerTerm>, Box<CoerList>),
}

/// A function of a group: its name, its parameters, its body and its type.
#[cycle(coer)]
pub struct CoerMember {
    pub name: VarId,
    pub params: VarIds,
    pub body: CoerTerm,
    pub ty: TypeId,
}

// By hand, so that each place where one goes is one call.
impl Drop for CoerMember {
    #[cycle(coer)]
    fn drop(self) {
        let CoerMember {
            name: _,
            params,
            body,
            ty: _,
        } = self;
        drop(params);
        drop(body);
    }
}

/// The functions of a group in order.
#[cycle(coer)]
pub enum CoerMembers {
    /// No function.
    Nil,
    /// The first one, and those behind it.
    Cons(Box<CoerMember>, Box<CoerMembers>),
}

/// A name and the term that it is bound to.
#[cycle(coer)]
pub struct CoerBinding {
    pub name: VarId,
    pub value: CoerTerm,
}

// By hand, so that each place where one goes is one call.
impl Drop for CoerBinding {
    #[cycle(coer)]
    fn drop(self) {
        let CoerBinding { name: _, value } = self;
        drop(value);
    }
}

/// Bindings in order.
#[cycle(coer)]
pub enum CoerBindings {
    /// No binding.
    Nil,
    /// The first one, and those behind it.
    Cons(Box<CoerBinding>, Box<CoerBindings>),
}

// Each list is dropped by a loop, since it may be longer than the process's stack is deep.

impl Drop for CoerList {
    #[cycle(coer)]
    fn drop(mut self) {
        drop_along!(self, CoerList)
    }
}

impl Drop for CoerMembers {
    #[cycle(coer)]
    fn drop(mut self) {
        drop_along!(self, CoerMembers)
    }
}

impl Drop for CoerBindings {
    #[cycle(coer)]
    fn drop(mut self) {
        drop_along!(self, CoerBindings)
    }
}

// Lists are built from the front and turned round, so that nothing walks them for each element.

impl CoerList {
    /// The empty list.
    pub fn new() -> CoerList
        ensures { row_terms_of result ≡ NoRowTerms }
    {
        CoerList::Nil
    }

    /// Puts a term in front of the others.
    pub fn push_front(&mut self, alloc: Global, item: CoerTerm) -> Result<(), OutOfMemory>
        ensures ok { OnOk result (row_terms_of self.new ≡ RowTermThen (row_term_of item) (row_terms_of self.old)) }
        ensures err { OnErr result (self.new ≡ self.old) }
    {
        let first = Box::new(alloc, item)?;
        let mut rest = Box::new(alloc, CoerList::Nil)?;
        *rest = mem::replace(self, CoerList::Nil);
        *self = CoerList::Cons(first, rest);
        Ok(())
    }

    /// The same terms in the other order.
    pub fn reversed(mut self) -> CoerList
        ensures { row_terms_of result ≡ terms_onto (row_terms_of self) NoRowTerms }
    {
        let mut turned = CoerList::Nil;
        loop {
            match self {
                CoerList::Nil => return turned,
                CoerList::Cons(first, mut rest) => {
                    self = mem::replace(&mut *rest, turned);
                    turned = CoerList::Cons(first, rest);
                }
            }
        }
    }
}

impl CoerMembers {
    /// The empty list.
    pub fn new() -> CoerMembers
        ensures { row_members_of result ≡ NoRowMembers }
    {
        CoerMembers::Nil
    }

    /// Puts a function in front of the others.
    pub fn push_front(&mut self, alloc: Global, item: CoerMember) -> Result<(), OutOfMemory>
        ensures ok { OnOk result (row_members_of self.new ≡ members_with item (row_members_of self.old)) }
        ensures err { OnErr result (self.new ≡ self.old) }
    {
        let first = Box::new(alloc, item)?;
        let mut rest = Box::new(alloc, CoerMembers::Nil)?;
        *rest = mem::replace(self, CoerMembers::Nil);
        *self = CoerMembers::Cons(first, rest);
        Ok(())
    }

    /// The same functions in the other order.
    pub fn reversed(mut self) -> CoerMembers
        ensures { row_members_of result ≡ members_onto (row_members_of self) NoRowMembers }
    {
        let mut turned = CoerMembers::Nil;
        loop {
            match self {
                CoerMembers::Nil => return turned,
                CoerMembers::Cons(first, mut rest) => {
                    self = mem::replace(&mut *rest, turned);
                    turned = CoerMembers::Cons(first, rest);
                }
            }
        }
    }
}

impl CoerBindings {
    /// The empty list.
    pub fn new() -> CoerBindings
        ensures { row_bindings_of result ≡ NoRowBindings }
    {
        CoerBindings::Nil
    }

    /// Puts a binding in front of the others.
    pub fn push_front(&mut self, alloc: Global, item: CoerBinding) -> Result<(), OutOfMemory>
        ensures ok { OnOk result (row_bindings_of self.new ≡ bindings_with item (row_bindings_of self.old)) }
        ensures err { OnErr result (self.new ≡ self.old) }
    {
        let first = Box::new(alloc, item)?;
        let mut rest = Box::new(alloc, CoerBindings::Nil)?;
        *rest = mem::replace(self, CoerBindings::Nil);
        *self = CoerBindings::Cons(first, rest);
        Ok(())
    }

    /// The same bindings in the other order.
    pub fn reversed(mut self) -> CoerBindings
        ensures { row_bindings_of result ≡ bindings_onto (row_bindings_of self) NoRowBindings }
    {
        let mut turned = CoerBindings::Nil;
        loop {
            match self {
                CoerBindings::Nil => return turned,
                CoerBindings::Cons(first, mut rest) => {
                    self = mem::replace(&mut *rest, turned);
                    turned = CoerBindings::Cons(first, rest);
                }
            }
        }
    }
}
