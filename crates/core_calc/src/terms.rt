// Terms and values of the calculus.

ghost use Rattle.std.specs.Prelude.{◌≡◌, ◌==◌, ◌∷◌, [], length, min, reverse, slice_get};
ghost use Rattle.std.specs.Prelude.{OnOk, OnErr, MatchOption, None, Some};
ghost use Rattle.core_calc.specs.Terms.{term_list, member_list, binding_list, value_list};
ghost use Rattle.core_calc.specs.Views.{term_of, terms_of, member_of, members_of};
ghost use Rattle.core_calc.specs.Views.{binding_of, bindings_of, value_of, values_of};

use grift_base::drop_along;
use grift_base::lists::{Items, OutOfMemory};
use grift_base::operators::PrimOp;
use grift_base::places::{LabelId, TypeId};
use std::alloc::Global;
use std::mem;

/// The number of a name, which its binder has alone.
#[derive(Clone, Copy, PartialEq, Eq)]
pub struct VarId(pub u32);

/// Names in order.
pub type VarIds = Items<VarId>;

/// A term of the calculus.
#[cycle(core)]
pub enum Core {
    /// An integer as it is written.
    Int(i64),
    /// A truth value as it is written.
    Bool(bool),
    /// The one value of the unit type, as it is written.
    Unit,
    /// A name.
    Var(VarId),
    /// A function: its parameters, its body and its type.
    Lambda(VarIds, Box<Core>, TypeId),
    /// Functions that know each other, and a body that knows them.
    Group(GroupMembers, Box<Core>),
    /// Names bound at once, outside each other's scope, and a body.
    Let(CoreBindings, Box<Core>),
    /// A call as it is written: the function and its arguments.
    Call(Box<Core>, CoreList),
    /// A call whose function and arguments were values.
    Enter(Box<Core>, CoreList),
    /// A condition, the term where it is true, and that where it is false.
    If(Box<Core>, Box<Core>, Box<Core>),
    /// Terms one after another; the last one gives the value.
    Seq(CoreList),
    /// A cast from a type to a type, which blames its label where it fails.
    Cast(Box<Core>, TypeId, TypeId, LabelId),
    /// A part of a tuple, counted from 0.
    Proj(Box<Core>, i64),
    /// A part of the tuple that Dyn holds; the label is blamed where it holds none with that part.
    ProjDyn(Box<Core>, i64, LabelId),
    /// A tuple, by its parts.
    Tuple(CoreList),
    /// An operator and its operands.
    Prim(PrimOp, CoreList),
    /// A value.
    Value(Value),
}

/// What a term or a value does when it is dropped: of the case that it is, each part that has a name here is dropped.
/// The body of a `drop` calls this with the value and all cases of its type: those without parts, and those with parts.
#[macro_export]
macro_rules! drop_parts {
    ($value:ident, $type:ident; $($bare:ident),*; $($case:ident($($part:tt),*)),*) => {
        match $value {
            $($type::$bare => {})*
            $($type::$case($($part),*) => { $($crate::drop_part!($part);)* })*
        }
    };
}

/// Drops a part that has a name.
#[macro_export]
macro_rules! drop_part {
    (_) => {};
    ($part:ident) => {
        drop($part)
    };
}

/// What a struct does when it is dropped: these fields are dropped, and nothing is done for the others, which stand
/// behind them.
#[macro_export]
macro_rules! drop_fields {
    ($value:ident, $type:ident, $($field:ident),*; $($plain:ident),*) => {{
        let $type { $($field,)* $($plain: _),* } = $value;
        $(drop($field);)*
    }};
}

impl Drop for Core {
    #[cycle(core)]
    fn drop(self) {
        drop_parts!(self, Core; Unit; Int(_), Bool(_), Var(_), Lambda(a, b, _), Group(a, b), Let(a, b),
            Call(a, b), Enter(a, b), If(a, b, c), Seq(a), Cast(a, _, _, _), Proj(a, _), ProjDyn(a, _, _),
            Tuple(a), Prim(_, b), Value(a))
    }
}

/// Terms in order.
#[cycle(core)]
pub enum CoreList {
    /// No term.
    Nil,
    /// The first one, and those behind it.
    Cons(Box<Core>, Box<CoreList>),
}

/// A function of a group: its name, its parameters, its body and its type.
#[cycle(core)]
pub struct GroupMember {
    pub name: VarId,
    pub params: VarIds,
    pub body: Core,
    pub ty: TypeId,
}

// By hand, so that each place where one goes is one call.
impl Drop for GroupMember {
    #[cycle(core)]
    fn drop(self) {
        let GroupMember {
            name: _,
            params,
            body,
            ty: _,
        } = self;
        drop(params);
        drop(body);
    }
}

/// The functions of a group in order.
#[cycle(core)]
pub enum GroupMembers {
    /// No function.
    Nil,
    /// The first one, and those behind it.
    Cons(Box<GroupMember>, Box<GroupMembers>),
}

/// A name and the term that it is bound to.
#[cycle(core)]
pub struct CoreBinding {
    pub name: VarId,
    pub value: Core,
}

// By hand, so that each place where one goes is one call.
impl Drop for CoreBinding {
    #[cycle(core)]
    fn drop(self) {
        let CoreBinding { name: _, value } = self;
        drop(value);
    }
}

/// Bindings in order.
#[cycle(core)]
pub enum CoreBindings {
    /// No binding.
    Nil,
    /// The first one, and those behind it.
    Cons(Box<CoreBinding>, Box<CoreBindings>),
}

/// A value of the calculus.
#[cycle(core)]
pub enum Value {
    /// An integer.
    Int(i64),
    /// A truth value.
    Bool(bool),
    /// The one value of the unit type.
    Unit,
    /// A function: its parameters, its body and its type.
    Fun(VarIds, Box<Core>, TypeId),
    /// A group, and the place of this function in it, from 0.
    GroupMember(GroupMembers, u32),
    /// A tuple, by its parts.
    Tuple(Values),
    /// The place of a cell, from 0, and whether it is a vector.
    Loc(u32, bool),
    /// A value seen through a cast: from a type, under a label, to a type.
    Wrap(Box<Value>, TypeId, LabelId, TypeId),
    /// A value in Dyn, and the type that it keeps.
    Inject(Box<Value>, TypeId),
}

impl Drop for Value {
    #[cycle(core)]
    fn drop(self) {
        drop_parts!(self, Value; Unit; Int(_), Bool(_), Fun(a, b, _), GroupMember(a, _), Tuple(a), Loc(_, _),
            Wrap(a, _, _, _), Inject(a, _))
    }
}

/// Values in order.
#[cycle(core)]
pub enum Values {
    /// No value.
    Nil,
    /// The first one, and those behind it.
    Cons(Box<Value>, Box<Values>),
}

// Each list is dropped by a loop, since it may be longer than the process's stack is deep.

impl Drop for CoreList {
    #[cycle(core)]
    fn drop(mut self) {
        drop_along!(self, CoreList)
    }
}

impl Drop for GroupMembers {
    #[cycle(core)]
    fn drop(mut self) {
        drop_along!(self, GroupMembers)
    }
}

impl Drop for CoreBindings {
    #[cycle(core)]
    fn drop(mut self) {
        drop_along!(self, CoreBindings)
    }
}

impl Drop for Values {
    #[cycle(core)]
    fn drop(mut self) {
        drop_along!(self, Values)
    }
}

// Lists are built from the front and turned round, so that nothing walks them for each element.

impl CoreList {
    /// The empty list.
    pub fn new() -> CoreList
        ensures { term_list (terms_of result) ≡ [] }
    {
        CoreList::Nil
    }

    /// Whether there is no term.
    pub fn is_empty(&self) -> bool
        ensures { result ≡ (length (term_list (terms_of self.now)) == 0) }
    {
        matches!(self, CoreList::Nil)
    }

    /// How many terms there are, or `u64::MAX` where there are more.
    pub fn len(&self) -> u64
        ensures { result ≡ min u64.MAX (length (term_list (terms_of self.now))) }
    {
        let mut count = 0u64;
        let mut left = self;
        loop {
            match left {
                CoreList::Nil => return count,
                CoreList::Cons(_, rest) => {
                    count = count.saturating_add(1);
                    left = rest;
                }
            }
        }
    }

    /// The term at place `i`, counted from 0; none exactly where there are no more than `i` terms.
    pub fn get(&self, i: u64) -> Option<&Core>
        ensures { MatchOption result (slice_get (term_list (terms_of self.now)) i ≡ None)
            (λ item. slice_get (term_list (terms_of self.now)) i ≡ Some (term_of item.now)) }
    {
        let mut place = i;
        let mut left = self;
        while let CoreList::Cons(first, rest) = left {
            if place == 0 {
                return Some(first);
            }
            place -= 1;
            left = rest;
        }
        None
    }

    /// Puts a term in front of the others.
    pub fn push_front(&mut self, alloc: Global, item: Core) -> Result<(), OutOfMemory>
        ensures ok { OnOk result (term_list (terms_of self.new) ≡ term_of item ∷ term_list (terms_of self.old)) }
        ensures err { OnErr result (self.new ≡ self.old) }
    {
        let first = Box::new(alloc, item)?;
        let mut rest = Box::new(alloc, CoreList::Nil)?;
        *rest = mem::replace(self, CoreList::Nil);
        *self = CoreList::Cons(first, rest);
        Ok(())
    }

    /// The same terms in the other order.
    pub fn reversed(mut self) -> CoreList
        ensures { term_list (terms_of result) ≡ reverse (term_list (terms_of self)) }
    {
        let mut turned = CoreList::Nil;
        loop {
            match self {
                CoreList::Nil => return turned,
                CoreList::Cons(first, mut rest) => {
                    self = mem::replace(&mut *rest, turned);
                    turned = CoreList::Cons(first, rest);
                }
            }
        }
    }
}

impl GroupMembers {
    /// The empty list.
    pub fn new() -> GroupMembers
        ensures { member_list (members_of result) ≡ [] }
    {
        GroupMembers::Nil
    }

    /// Whether there is no function.
    pub fn is_empty(&self) -> bool
        ensures { result ≡ (length (member_list (members_of self.now)) == 0) }
    {
        matches!(self, GroupMembers::Nil)
    }

    /// How many functions there are, or `u64::MAX` where there are more.
    pub fn len(&self) -> u64
        ensures { result ≡ min u64.MAX (length (member_list (members_of self.now))) }
    {
        let mut count = 0u64;
        let mut left = self;
        loop {
            match left {
                GroupMembers::Nil => return count,
                GroupMembers::Cons(_, rest) => {
                    count = count.saturating_add(1);
                    left = rest;
                }
            }
        }
    }

    /// The function at place `i`, counted from 0; none exactly where there are no more than `i` functions.
    pub fn get(&self, i: u64) -> Option<&GroupMember>
        ensures { MatchOption result (slice_get (member_list (members_of self.now)) i ≡ None)
            (λ item. slice_get (member_list (members_of self.now)) i ≡ Some (member_of item.now)) }
    {
        let mut place = i;
        let mut left = self;
        while let GroupMembers::Cons(first, rest) = left {
            if place == 0 {
                return Some(first);
            }
            place -= 1;
            left = rest;
        }
        None
    }

    /// Puts a function in front of the others.
    pub fn push_front(&mut self, alloc: Global, item: GroupMember) -> Result<(), OutOfMemory>
        ensures ok { OnOk result
            (member_list (members_of self.new) ≡ member_of item ∷ member_list (members_of self.old)) }
        ensures err { OnErr result (self.new ≡ self.old) }
    {
        let first = Box::new(alloc, item)?;
        let mut rest = Box::new(alloc, GroupMembers::Nil)?;
        *rest = mem::replace(self, GroupMembers::Nil);
        *self = GroupMembers::Cons(first, rest);
        Ok(())
    }

    /// The same functions in the other order.
    pub fn reversed(mut self) -> GroupMembers
        ensures { member_list (members_of result) ≡ reverse (member_list (members_of self)) }
    {
        let mut turned = GroupMembers::Nil;
        loop {
            match self {
                GroupMembers::Nil => return turned,
                GroupMembers::Cons(first, mut rest) => {
                    self = mem::replace(&mut *rest, turned);
                    turned = GroupMembers::Cons(first, rest);
                }
            }
        }
    }
}

impl CoreBindings {
    /// The empty list.
    pub fn new() -> CoreBindings
        ensures { binding_list (bindings_of result) ≡ [] }
    {
        CoreBindings::Nil
    }

    /// Whether there is no binding.
    pub fn is_empty(&self) -> bool
        ensures { result ≡ (length (binding_list (bindings_of self.now)) == 0) }
    {
        matches!(self, CoreBindings::Nil)
    }

    /// How many bindings there are, or `u64::MAX` where there are more.
    pub fn len(&self) -> u64
        ensures { result ≡ min u64.MAX (length (binding_list (bindings_of self.now))) }
    {
        let mut count = 0u64;
        let mut left = self;
        loop {
            match left {
                CoreBindings::Nil => return count,
                CoreBindings::Cons(_, rest) => {
                    count = count.saturating_add(1);
                    left = rest;
                }
            }
        }
    }

    /// The binding at place `i`, counted from 0; none exactly where there are no more than `i` bindings.
    pub fn get(&self, i: u64) -> Option<&CoreBinding>
        ensures { MatchOption result (slice_get (binding_list (bindings_of self.now)) i ≡ None)
            (λ item. slice_get (binding_list (bindings_of self.now)) i ≡ Some (binding_of item.now)) }
    {
        let mut place = i;
        let mut left = self;
        while let CoreBindings::Cons(first, rest) = left {
            if place == 0 {
                return Some(first);
            }
            place -= 1;
            left = rest;
        }
        None
    }

    /// Puts a binding in front of the others.
    pub fn push_front(&mut self, alloc: Global, item: CoreBinding) -> Result<(), OutOfMemory>
        ensures ok { OnOk result
            (binding_list (bindings_of self.new) ≡ binding_of item ∷ binding_list (bindings_of self.old)) }
        ensures err { OnErr result (self.new ≡ self.old) }
    {
        let first = Box::new(alloc, item)?;
        let mut rest = Box::new(alloc, CoreBindings::Nil)?;
        *rest = mem::replace(self, CoreBindings::Nil);
        *self = CoreBindings::Cons(first, rest);
        Ok(())
    }

    /// The same bindings in the other order.
    pub fn reversed(mut self) -> CoreBindings
        ensures { binding_list (bindings_of result) ≡ reverse (binding_list (bindings_of self)) }
    {
        let mut turned = CoreBindings::Nil;
        loop {
            match self {
                CoreBindings::Nil => return turned,
                CoreBindings::Cons(first, mut rest) => {
                    self = mem::replace(&mut *rest, turned);
                    turned = CoreBindings::Cons(first, rest);
                }
            }
        }
    }
}

impl Values {
    /// The empty list.
    pub fn new() -> Values
        ensures { value_list (values_of result) ≡ [] }
    {
        Values::Nil
    }

    /// Whether there is no value.
    pub fn is_empty(&self) -> bool
        ensures { result ≡ (length (value_list (values_of self.now)) == 0) }
    {
        matches!(self, Values::Nil)
    }

    /// How many values there are, or `u64::MAX` where there are more.
    pub fn len(&self) -> u64
        ensures { result ≡ min u64.MAX (length (value_list (values_of self.now))) }
    {
        let mut count = 0u64;
        let mut left = self;
        loop {
            match left {
                Values::Nil => return count,
                Values::Cons(_, rest) => {
                    count = count.saturating_add(1);
                    left = rest;
                }
            }
        }
    }

    /// The value at place `i`, counted from 0; none exactly where there are no more than `i` values.
    pub fn get(&self, i: u64) -> Option<&Value>
        ensures { MatchOption result (slice_get (value_list (values_of self.now)) i ≡ None)
            (λ item. slice_get (value_list (values_of self.now)) i ≡ Some (value_of item.now)) }
    {
        let mut place = i;
        let mut left = self;
        while let Values::Cons(first, rest) = left {
            if place == 0 {
                return Some(first);
            }
            place -= 1;
            left = rest;
        }
        None
    }

    /// Puts a value in front of the others.
    pub fn push_front(&mut self, alloc: Global, item: Value) -> Result<(), OutOfMemory>
        ensures ok { OnOk result (value_list (values_of self.new) ≡ value_of item ∷ value_list (values_of self.old)) }
        ensures err { OnErr result (self.new ≡ self.old) }
    {
        let first = Box::new(alloc, item)?;
        let mut rest = Box::new(alloc, Values::Nil)?;
        *rest = mem::replace(self, Values::Nil);
        *self = Values::Cons(first, rest);
        Ok(())
    }

    /// The same values in the other order.
    pub fn reversed(mut self) -> Values
        ensures { value_list (values_of result) ≡ reverse (value_list (values_of self)) }
    {
        let mut turned = Values::Nil;
        loop {
            match self {
                Values::Nil => return turned,
                Values::Cons(first, mut rest) => {
                    self = mem::replace(&mut *rest, turned);
                    turned = Values::Cons(first, rest);
                }
            }
        }
    }
}
