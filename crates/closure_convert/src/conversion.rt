// Bodies and procedures of terms.

ghost use Rattle.std.specs.Prelude.{◌≡◌, ◌+◌, ◌++◌, [], ℕ, List, IfOk, MatchOption, OnOk, length};
ghost use Rattle.core_calc.specs.Views.{names_of};
ghost use Rattle.coer_core.specs.Counts.{free_names};
ghost use Rattle.coer_core.specs.Counts.{free_names_of_members, names_besides, row_binding_names, row_member_count};
ghost use Rattle.coer_core.specs.Counts.{row_member_names};
ghost use Rattle.coer_core.specs.Terms.{RowGroup, RowLambda, RowLet, RowTerm};
ghost use Rattle.coer_core.specs.Views.{row_bindings_of, row_members_of, row_term_of, row_terms_of};
ghost use Rattle.flat_ir.specs.declared.code.Operation.TheVariants.{Move};
ghost use Rattle.flat_ir.specs.Bodies.{Body, Give, LetGroup};
ghost use Rattle.flat_ir.specs.Views.{body_of, procs_of as procs_in_memory};
ghost use Rattle.closure_convert.specs.Conversion.{Scope, alone, atom, bind_operands, captures, code, converted};
ghost use Rattle.closure_convert.specs.Conversion.{gather, gather_let, made, made_in, meanings_of, numbered};
ghost use Rattle.closure_convert.specs.Conversion.{placed, procs_in, procs_of, sequence};
ghost use Rattle.closure_convert.specs.Converting.{Adds, AddsBindings, AddsTerm, AddsTerms, Hides, PutsBody, as_procs};
ghost use Rattle.closure_convert.specs.Converting.{bodies, group_procs, parts_of, seen, state};
ghost use Rattle.closure_convert.specs.Keeping.{Kept, Opened};
ghost use Rattle.closure_convert.specs.Programs.{HasNoFreeNames};
ghost use Rattle.closure_convert.specs.Scopes.{Reaches, known, with_all_free};
ghost use Rattle.closure_convert.specs.Waits.{Puts, ahead};

use crate::names::Names;
use crate::numbers::{Kind, narrow};
use crate::waits::Waits;
use coer_core::terms::{CoerBindings, CoerList, CoerMembers, CoerTerm};
use core_calc::terms::{VarId, VarIds};
use flat_ir::code::{FlatBody, Operand, Operands, Operation};
use flat_ir::programs::{FlatProc, FlatProcs};
use grift_base::lists::OutOfMemory;
use grift_base::made::boxed_made;
use std::alloc::Global;
use std::mem;

/// What is known of the function that is converted, and the procedures so far.
#[derive(Drop)]
pub struct Converter {
    alloc: Global,
    names: Names,
    procs: FlatProcs,
}

// A function of a group: how many parameters it has, and its body.
#[derive(Drop)]
struct Function {
    params: u32,
    body: FlatBody,
}

impl Converter {
    /// The procedures of a term, of which the last is the one that a program begins with, and its number.
    pub fn program(alloc: Global, term: &CoerTerm) -> Result<(FlatProcs, u32), OutOfMemory>
        ensures procs { IfOk result (λ r. HasNoFreeNames (row_term_of term.now)
            → procs_in_memory r.0 ≡ converted (row_term_of term.now)) }
        ensures entry { IfOk result (λ r. r.1 ≡ made (row_term_of term.now)) }
    {
        let mut converter = Converter {
            alloc,
            names: Names::new(alloc),
            procs: FlatProcs::new(alloc),
        };
        let body = converter.code(term, 0)?;
        let number = narrow(converter.procs.len())?;
        let entry = FlatProc {
            params: 0,
            captured: 0,
            group: 0,
            place: 0,
            body,
        };
        converter.procs.push(entry)?;
        Ok((converter.procs, number))
    }

    // The operand that a term is, if it takes no code.
    fn atom(&mut self, term: &CoerTerm) -> Result<Option<Operand>, OutOfMemory>
        ensures kept { OnOk result (Kept self.old.names self.new.names) }
        ensures adds { IfOk result (λ r. MatchOption r (self.new ≡ self.old)
            (λ _. AddsTerm self.old self.new (row_term_of term.now))) }
        ensures atom { IfOk result (λ r. (outer : Scope) → Reaches self.new.names.captured outer
            → atom (row_term_of term.now) (seen self.old outer) ≡ r) }
    {
        match term {
            CoerTerm::Int(n) => Ok(Some(Operand::Int(*n))),
            CoerTerm::Bool(b) => Ok(Some(Operand::Bool(*b))),
            CoerTerm::Unit => Ok(Some(Operand::Unit)),
            CoerTerm::Var(name) => Ok(Some(self.names.operand(name.0)?)),
            CoerTerm::Lambda(..)
            | CoerTerm::Group(..)
            | CoerTerm::Let(..)
            | CoerTerm::Call(..)
            | CoerTerm::If(..)
            | CoerTerm::Seq(_)
            | CoerTerm::Coerce(..)
            | CoerTerm::Proj(..)
            | CoerTerm::ProjDyn(..)
            | CoerTerm::Tuple(_)
            | CoerTerm::Prim(..) => Ok(None),
        }
    }

    // The operand for a term: itself where it takes no code, else the local name that its value gets.
    #[cycle(conversion)]
    fn place(&mut self, waits: &mut Waits, term: &CoerTerm) -> Result<Operand, OutOfMemory>
        ensures kept { OnOk result (Kept self.old.names self.new.names) }
        ensures adds { OnOk result (AddsTerm self.old self.new (row_term_of term.now)) }
        ensures placed { IfOk result (λ o. (outer : Scope) → Reaches self.new.names.captured outer
            → (rest : Operand → ℕ → Body)
            → ahead waits.new.waits.items (rest o waits.new.depth)
            ≡ ahead waits.old.waits.items (placed (atom (row_term_of term.now) (seen self.old outer)) waits.old.depth
            (code (row_term_of term.now) (seen self.old outer) waits.old.depth (length self.old.procs)) rest)) }
    {
        if let Some(operand) = self.atom(term)? {
            return Ok(operand);
        }
        let inner = self.code(term, waits.depth)?;
        waits.bind(inner)
    }

    // The operands for terms.
    #[cycle(conversion)]
    fn gather(&mut self, waits: &mut Waits, terms: &CoerList) -> Result<Operands, OutOfMemory>
        ensures kept { OnOk result (Kept self.old.names self.new.names) }
        ensures adds { OnOk result (AddsTerms self.old self.new (row_terms_of terms.now)) }
        ensures gathered { IfOk result (λ os. (outer : Scope) → Reaches self.new.names.captured outer
            → (front : List Operand) (finish : List Operand → Body)
            → ahead waits.new.waits.items (finish (front ++ os))
            ≡ ahead waits.old.waits.items (gather (row_terms_of terms.now) (seen self.old outer) waits.old.depth
            (length self.old.procs) front finish)) }
    {
        let mut operands = Operands::new(self.alloc);
        let mut left = terms;
        while let CoerList::Cons(first, rest) = left {
            operands.push(self.place(waits, first)?)?;
            left = rest;
        }
        Ok(operands)
    }

    // The names of bindings, and the operands for their terms.
    #[cycle(conversion)]
    fn gather_bindings(
        &mut self,
        waits: &mut Waits,
        bindings: &CoerBindings,
    ) -> Result<(VarIds, Operands), OutOfMemory>
        ensures kept { OnOk result (Kept self.old.names self.new.names) }
        ensures adds { OnOk result (AddsBindings self.old self.new (row_bindings_of bindings.now)) }
        ensures names { IfOk result (λ r. names_of r.0 ≡ row_binding_names (row_bindings_of bindings.now)) }
        ensures same { IfOk result (λ r. length r.0 ≡ length r.1) }
        ensures gathered { IfOk result (λ r. (outer : Scope) → Reaches self.new.names.captured outer
            → (finish : List Operand → ℕ → Body)
            → ahead waits.new.waits.items (finish r.1 waits.new.depth)
            ≡ ahead waits.old.waits.items (gather_let (row_bindings_of bindings.now)
            (seen self.old outer) waits.old.depth (length self.old.procs)
            [] finish)) }
    {
        let mut names = VarIds::new(self.alloc);
        let mut operands = Operands::new(self.alloc);
        let mut left = bindings;
        while let CoerBindings::Cons(first, rest) = left {
            operands.push(self.place(waits, &first.value)?)?;
            names.push(first.name)?;
            left = rest;
        }
        Ok((names, operands))
    }

    // Of terms one after another the last gives the value.
    #[cycle(conversion)]
    fn sequence(&mut self, waits: &mut Waits, terms: &CoerList) -> Result<FlatBody, OutOfMemory>
        ensures kept { OnOk result (Kept self.old.names self.new.names) }
        ensures adds { OnOk result (AddsTerms self.old self.new (row_terms_of terms.now)) }
        ensures body { IfOk result (λ b. PutsBody self.new.names waits.old waits.new (body_of b) (λ outer.
            sequence (row_terms_of terms.now) (seen self.old outer) waits.old.depth (length self.old.procs))) }
    {
        let mut left = terms;
        while let CoerList::Cons(first, rest) = left {
            match **rest {
                CoerList::Nil => {
                    let body = self.code(first, waits.depth)?;
                    return Ok(body);
                }
                CoerList::Cons(..) => {
                    self.place(waits, first)?;
                    left = rest;
                }
            }
        }
        Ok(moved(Operand::Unit))
    }

    // A function, whose body knows what is known and its parameters.
    #[cycle(conversion)]
    fn function(&mut self, params: &VarIds, body: &CoerTerm) -> Result<Function, OutOfMemory>
        ensures kept { OnOk result (Kept self.old.names self.new.names) }
        ensures adds { OnOk result (Adds (known self.old.names) (state self.old) (state self.new)
            (names_besides (names_of params.now) (free_names (row_term_of body.now))) (procs_of (row_term_of body.now))
            (made (row_term_of body.now))) }
        ensures params { IfOk result (λ f. f.params ≡ length (names_of params.now)) }
        ensures body { IfOk result (λ f. (outer : Scope) → Reaches self.new.names.captured outer
            → body_of f.body ≡ code (row_term_of body.now)
            (bind_operands (names_of params.now) (numbered (λ i. Operand.Local i) (names_of params.now) 0)
            (seen self.old outer))
            (length (names_of params.now)) (length self.old.procs)) }
    {
        let count = params.len();
        let mark = self.names.mark();
        let operands = Kind::Local.operands(self.alloc, 0, count)?;
        self.names.bind_all(params.as_slice(), operands.as_slice())?;
        let params = narrow(count)?;
        let body = self.code(body, params)?;
        self.names.undo(mark)?;
        Ok(Function { params, body })
    }

    // The functions of a group.
    #[cycle(conversion)]
    fn functions(&mut self, members: &CoerMembers) -> Result<Vec<Function>, OutOfMemory>
        ensures kept { OnOk result (Kept self.old.names self.new.names) }
        ensures adds { OnOk result (Adds (known self.old.names) (state self.old) (state self.new)
            (free_names_of_members (row_members_of members.now)) (procs_in (row_members_of members.now))
            (made_in (row_members_of members.now))) }
        ensures count { IfOk result (λ fs. length fs.items ≡ row_member_count (row_members_of members.now)) }
        ensures bodies { IfOk result (λ fs. (outer : Scope) → Reaches self.new.names.captured outer
            → parts_of fs.items ≡ bodies (seen self.old outer) (row_members_of members.now) (length self.old.procs)) }
    {
        let mut functions = Vec::new(self.alloc);
        let mut left = members;
        while let CoerMembers::Cons(first, rest) = left {
            functions.push(self.function(&first.params, &first.body)?)?;
            left = rest;
        }
        Ok(functions)
    }

    // The procedures of a group's functions, which capture so many names.
    fn add_procs(&mut self, functions: Vec<Function>, captured: u32) -> Result<(), OutOfMemory>
        ensures names { OnOk result (self.new.names ≡ self.old.names) }
        ensures procs { OnOk result (procs_in_memory self.new.procs ≡ procs_in_memory self.old.procs
            ++ as_procs captured (length functions.items) 0 (parts_of functions.items)) }
        ensures count { OnOk result (length self.new.procs ≡ length self.old.procs + length functions.items) }
    {
        let group = narrow(functions.len() as u64)?;
        let mut place: u32 = 0;
        for function in functions {
            self.procs.push(FlatProc {
                params: function.params,
                captured,
                group,
                place,
                body: function.body,
            })?;
            place = narrow(place as u64 + 1)?;
        }
        Ok(())
    }

    // The operands of names.
    fn meanings(&mut self, names: &[u32]) -> Result<Operands, OutOfMemory>
        ensures kept { OnOk result (Kept self.old.names self.new.names) }
        ensures captured { OnOk result (self.new.names.captured
            ≡ with_all_free (known self.old.names) self.old.names.captured names.now) }
        ensures procs { OnOk result (self.new.procs ≡ self.old.procs) }
        ensures meanings { IfOk result (λ os. (outer : Scope) → Reaches self.new.names.captured outer
            → os ≡ meanings_of names.now (seen self.old outer)) }
    {
        let mut operands = Operands::new(self.alloc);
        for name in names {
            operands.push(self.names.operand(*name)?)?;
        }
        Ok(operands)
    }

    // Functions become procedures, and get the next local names; inside them this was known.
    fn close(
        &mut self,
        waits: &mut Waits,
        inside: &Names,
        functions: Vec<Function>,
    ) -> Result<(), OutOfMemory>
        ensures kept { OnOk result (Kept self.old.names self.new.names) }
        ensures captured { OnOk result (self.new.names.captured
            ≡ with_all_free (known self.old.names) self.old.names.captured inside.now.captured) }
        ensures procs { OnOk result (procs_in_memory self.new.procs ≡ procs_in_memory self.old.procs
            ++ as_procs (length inside.now.captured) (length functions.items) 0 (parts_of functions.items)) }
        ensures count { OnOk result (length self.new.procs ≡ length self.old.procs + length functions.items) }
        ensures waits { OnOk result ((outer : Scope) → Reaches self.new.names.captured outer
            → Puts waits.old.waits.items waits.new.waits.items (λ rest.
            LetGroup waits.old.depth (length self.old.procs) (length functions.items)
            (meanings_of inside.now.captured (seen self.old outer)) rest)) }
        ensures depth { OnOk result (waits.new.depth ≡ waits.old.depth + length functions.items) }
    {
        let names = inside.captured();
        let first = narrow(self.procs.len())?;
        let count = narrow(functions.len() as u64)?;
        let captured = self.meanings(names)?;
        self.add_procs(functions, narrow(names.len() as u64)?)?;
        waits.bind_group(first, count, captured)
    }

    // A function that stands alone gets the next local name.
    #[cycle(conversion)]
    fn lambda(
        &mut self,
        waits: &mut Waits,
        params: &VarIds,
        body: &CoerTerm,
    ) -> Result<(), OutOfMemory>
        ensures kept { OnOk result (Kept self.old.names self.new.names) }
        ensures adds { OnOk result (Adds (known self.old.names) (state self.old) (state self.new)
            (names_besides (names_of params.now) (free_names (row_term_of body.now))) (procs_of (RowLambda
            (names_of params.now) (row_term_of body.now) 0))
            (made (row_term_of body.now) + 0 + 1)) }
        ensures waits { OnOk result ((outer : Scope) → Reaches self.new.names.captured outer
            → Puts waits.old.waits.items waits.new.waits.items (λ rest.
            LetGroup waits.old.depth ((length self.old.procs) + (made (row_term_of body.now) + 0)) 1
            (meanings_of (captures [] (alone (names_of params.now) (row_term_of body.now) 0))
            (seen self.old outer)) rest)) }
    {
        let outside = mem::replace(&mut self.names, Names::new(self.alloc));
        let function = self.function(params, body)?;
        let inside = mem::replace(&mut self.names, outside);
        let mut functions = Vec::new(self.alloc);
        functions.push(function)?;
        self.close(waits, &inside, functions)
    }

    // The functions of a group get the next local names, and their own names mean these.
    #[cycle(conversion)]
    fn group(&mut self, waits: &mut Waits, members: &CoerMembers) -> Result<(), OutOfMemory>
        ensures opened { OnOk result (Opened self.old.names self.new.names) }
        ensures hides { OnOk result (Hides (row_member_names (row_members_of members.now))
            (known self.new.names) (known self.old.names)) }
        ensures adds { OnOk result (Adds (known self.old.names) (state self.old) (state self.new)
            (names_besides (row_member_names (row_members_of members.now)) (free_names_of_members
            (row_members_of members.now)))
            (λ next. group_procs (row_members_of members.now) next) (made_in
            (row_members_of members.now) + row_member_count (row_members_of members.now))) }
        ensures body { OnOk result ((outer : Scope) → Reaches self.new.names.captured outer
            → (body : RowTerm)
            → ahead waits.new.waits.items (code body (seen self.new outer) waits.new.depth
            (length self.new.procs))
            ≡ ahead waits.old.waits.items (code (RowGroup (row_members_of members.now) body) (seen self.old outer)
            waits.old.depth (length self.old.procs))) }
    {
        let names = member_names(self.alloc, members)?;
        let count = names.len();
        if count == 0 {
            return Ok(());
        }
        let mut inside = Names::new(self.alloc);
        let siblings = Kind::Sibling.operands(self.alloc, 0, count)?;
        inside.bind_all(names.as_slice(), siblings.as_slice())?;
        let outside = mem::replace(&mut self.names, inside);
        let functions = self.functions(members)?;
        let inside = mem::replace(&mut self.names, outside);
        let locals = Kind::Local.operands(self.alloc, waits.depth, count)?;
        self.close(waits, &inside, functions)?;
        self.names.bind_all(names.as_slice(), locals.as_slice())
    }

    // The names of bindings mean the operands for their terms.
    #[cycle(conversion)]
    fn bindings(&mut self, waits: &mut Waits, bindings: &CoerBindings) -> Result<(), OutOfMemory>
        ensures opened { OnOk result (Opened self.old.names self.new.names) }
        ensures hides { OnOk result (Hides (row_binding_names (row_bindings_of bindings.now))
            (known self.new.names) (known self.old.names)) }
        ensures adds { OnOk result (AddsBindings self.old self.new (row_bindings_of bindings.now)) }
        ensures body { OnOk result ((outer : Scope) → Reaches self.new.names.captured outer
            → (body : RowTerm)
            → ahead waits.new.waits.items (code body (seen self.new outer) waits.new.depth
            (length self.new.procs))
            ≡ ahead waits.old.waits.items (code (RowLet (row_bindings_of bindings.now) body) (seen self.old outer)
            waits.old.depth (length self.old.procs))) }
    {
        let (names, operands) = self.gather_bindings(waits, bindings)?;
        self.names.bind_all(names.as_slice(), operands.as_slice())
    }

    // The body that gives a term's value, where this is the next local name.
    #[cycle(conversion)]
    fn code(&mut self, term: &CoerTerm, depth: u32) -> Result<FlatBody, OutOfMemory>
        ensures kept { OnOk result (Kept self.old.names self.new.names) }
        ensures adds { OnOk result (AddsTerm self.old self.new (row_term_of term.now)) }
        ensures body { IfOk result (λ b. (outer : Scope) → Reaches self.new.names.captured outer
            → body_of b ≡ code (row_term_of term.now) (seen self.old outer) depth (length self.old.procs)) }
    {
        let mark = self.names.mark();
        let mut waits = Waits::new(self.alloc, depth);
        let last = self.last(&mut waits, term)?;
        self.names.undo(mark)?;
        waits.ahead_of(last)
    }

    // The last body for a term, behind what is bound in front of it. What is bound on the way stays bound.
    #[cycle(conversion)]
    fn last(&mut self, waits: &mut Waits, term: &CoerTerm) -> Result<FlatBody, OutOfMemory>
        ensures opened { OnOk result (Opened self.old.names self.new.names) }
        ensures adds { OnOk result (AddsTerm self.old self.new (row_term_of term.now)) }
        ensures body { IfOk result (λ b. PutsBody self.new.names waits.old waits.new (body_of b) (λ outer.
            code (row_term_of term.now) (seen self.old outer) waits.old.depth (length self.old.procs))) }
    {
        let last = match term {
            CoerTerm::Int(n) => moved(Operand::Int(*n)),
            CoerTerm::Bool(b) => moved(Operand::Bool(*b)),
            CoerTerm::Unit => moved(Operand::Unit),
            CoerTerm::Var(name) => moved(self.names.operand(name.0)?),
            CoerTerm::Lambda(params, body, _) => {
                let made = Operand::Local(waits.depth);
                self.lambda(waits, params, body)?;
                moved(made)
            }
            CoerTerm::Group(members, body) => {
                self.group(waits, members)?;
                self.last(waits, body)?
            }
            CoerTerm::Let(bindings, body) => {
                self.bindings(waits, bindings)?;
                self.last(waits, body)?
            }
            CoerTerm::Call(function, arguments) => {
                let function = self.place(waits, function)?;
                let operands = self.gather(waits, arguments)?;
                FlatBody::Call(function, operands)
            }
            CoerTerm::If(condition, on_true, on_false) => {
                let operand = self.place(waits, condition)?;
                let one = boxed_made(self.alloc, self.code(on_true, waits.depth))?;
                let other = boxed_made(self.alloc, self.code(on_false, waits.depth))?;
                FlatBody::Choose(operand, one, other)
            }
            CoerTerm::Seq(terms) => self.sequence(waits, terms)?,
            CoerTerm::Coerce(term, number) => {
                let operand = self.place(waits, term)?;
                FlatBody::Give(Operation::Cast(operand, *number))
            }
            CoerTerm::Proj(term, k) => {
                let operand = self.place(waits, term)?;
                FlatBody::Give(Operation::Proj(operand, *k))
            }
            CoerTerm::ProjDyn(term, k, label) => {
                let operand = self.place(waits, term)?;
                FlatBody::Give(Operation::ProjDyn(operand, *k, *label))
            }
            CoerTerm::Tuple(parts) => {
                let operands = self.gather(waits, parts)?;
                FlatBody::Give(Operation::Tuple(operands))
            }
            CoerTerm::Prim(operator, terms) => {
                let operands = self.gather(waits, terms)?;
                FlatBody::Give(Operation::Prim(*operator, operands))
            }
        };
        Ok(last)
    }
}

// The body that gives an operand.
fn moved(operand: Operand) -> FlatBody
    ensures { body_of result ≡ Give (Move operand) }
{
    FlatBody::Give(Operation::Move(operand))
}

// The names of a group's functions.
fn member_names(alloc: Global, members: &CoerMembers) -> Result<VarIds, OutOfMemory>
    ensures { IfOk result (λ names. names_of names ≡ row_member_names (row_members_of members.now)) }
{
    let mut names = VarIds::new(alloc);
    let mut left = members;
    while let CoerMembers::Cons(first, rest) = left {
        names.push(first.name)?;
        left = rest;
    }
    Ok(names)
}
