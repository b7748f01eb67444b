// What the elaboration has so far, and its small steps.
#![tactic(auto, using(crate::proofs::Rules::rules), unfolding(cast_rules::specs::Making::then_make))]

ghost use Rattle.std.specs.Prelude.{◌≡◌, ◌<◌, Some, true, IfOk, OnOk, []};
ghost use Rattle.grift_base.specs.Types.{parts_of, row_at};
ghost use Rattle.type_graph.specs.Forming.{intern};
ghost use Rattle.type_graph.specs.Rows.{row_of};
ghost use Rattle.type_graph.specs.TypeTables.{FitsTable, IsOrderedTable, MayBePart};
ghost use Rattle.surface_trees.specs.Views.{type_of, written_of};
ghost use Rattle.cast_rules.specs.Making.{Makes, form, fresh, label_at, list_entry, not_too_large, are_consistent};
ghost use Rattle.cast_rules.specs.Making.{cast_at, cast_to, cast_if, cast_to_row, written, written_if};
ghost use Rattle.cast_rules.specs.Programs.{IsWrittenType, MayBeWritten};
ghost use Rattle.cast_rules.specs.Room.{Grows, MayPart};
ghost use Rattle.insert_steps.specs.Views.{Answers, entry_of, place_if, typed_of, work_of};

use crate::casts::{CastEntry, CastList};
use crate::copies::refused;
use crate::written::{form_type, put};
use consistency::checks::consistent;
use core_calc::terms::{Core, VarId};
use grift_base::lists::OutOfMemory;
use grift_base::made::boxed;
use grift_base::places::{LabelId, LabelTable, Pos, TypeId};
use grift_base::refusals::{FrontFault, RefusalKind};
use std::alloc::Global;
use surface_trees::types::TypeExpr;
use type_graph::rows::Row;
use type_graph::tables::TypeTable;

/// The most nodes of a type.
const MOST_NODES: u64 = 1000;

/// What the elaboration has so far.
#[derive(Drop)]
pub struct Progress {
    pub types: TypeTable,
    pub labels: LabelTable,
    pub casts: CastList,
    pub next: u32,
}

/// A term, its type, and where it is a cast the place of its entry in the list of casts.
#[derive(Drop)]
pub struct Typed {
    pub core: Box<Core>,
    pub ty: TypeId,
    pub entry: Option<u32>,
}

impl Progress {
    /// The type with this row.
    pub fn form(&mut self, row: Row) -> Result<TypeId, OutOfMemory>
        requires { FitsTable self.old.types (row_of row) }
        ensures made { IfOk result (λ ty. form (intern (row_of row)) (work_of self.old)
            ≡ Makes ty.0 (work_of self.new)) }
        ensures grows { OnOk result (Grows self.old.types self.new.types) }
        ensures leaf { parts_of (row_of row) ≡ [] → IfOk result (λ ty. MayBePart self.new.types ty.0) }
    {
        put(&mut self.types, row)
    }

    /// The row of a type.
    pub fn row(&self, alloc: Global, ty: TypeId) -> Result<Row, OutOfMemory>
        ensures row { IfOk result (λ row. row_at self.now.types ty.0 ≡ Some (row_of row)) }
        ensures table { IsOrderedTable self.now.types }
    {
        if ty.0 >= self.types.len() {
            return Err(OutOfMemory);
        }
        self.types.row(ty).duplicate(alloc)
    }

    /// A variable that nothing else binds.
    pub fn fresh(&mut self) -> Result<VarId, OutOfMemory>
        ensures made { IfOk result (λ variable. fresh (work_of self.old) ≡ Makes variable.0 (work_of self.new)) }
        ensures grows { OnOk result (Grows self.old.types self.new.types) }
    {
        let variable = VarId(self.next);
        if self.next == u32::MAX {
            return Err(OutOfMemory);
        }
        self.next += 1;
        Ok(variable)
    }

    /// The label of a place.
    pub fn label(&mut self, pos: Pos) -> Result<LabelId, OutOfMemory>
        ensures made { IfOk result (λ label. label_at pos (work_of self.old) ≡ Makes label.0 (work_of self.new)) }
        ensures grows { OnOk result (Grows self.old.types self.new.types) }
    {
        // No label stands twice.
        self.labels.len();
        let label = self.labels.intern(pos)?;
        Ok(label)
    }

    /// The place of a new entry in the list of casts.
    pub fn list(&mut self, entry: CastEntry) -> Result<u32, OutOfMemory>
        ensures made { IfOk result (λ place. list_entry (entry_of entry) (work_of self.old)
            ≡ Makes place (work_of self.new)) }
        ensures grows { OnOk result (Grows self.old.types self.new.types) }
    {
        let place = self.casts.len();
        if place >= u64::from(u32::MAX) {
            return Err(OutOfMemory);
        }
        self.casts.push(entry)?;
        Ok(place as u32)
    }

    /// Refuses a type with too many nodes, at this place.
    pub fn not_too_large(&self, pos: Pos, ty: TypeId) -> Result<(), FrontFault>
        ensures answer { Answers result (λ done. true) (work_of self.now) (not_too_large pos ty.0 (work_of self.now)) }
        ensures part { OnOk result (MayBePart self.now.types ty.0) }
    {
        if ty.0 >= self.types.len() {
            return Err(FrontFault::OutOfMemory);
        }
        if self.types.size(ty) > MOST_NODES {
            return refused(RefusalKind::TypeTooLarge, pos);
        }
        Ok(())
    }

    /// Refuses two types that aren't consistent, at this place.
    pub fn are_consistent(
        &self,
        alloc: Global,
        pos: Pos,
        a: TypeId,
        b: TypeId,
    ) -> Result<(), FrontFault>
        ensures { Answers result (λ done. true) (work_of self.now) (are_consistent pos a.0 b.0 (work_of self.now)) }
    {
        if a.0 >= self.types.len() || b.0 >= self.types.len() {
            return Err(FrontFault::OutOfMemory);
        }
        if !consistent(alloc, &self.types, a, b)? {
            return refused(RefusalKind::NotConsistent, pos);
        }
        Ok(())
    }

    /// The cast of a term to a type, with the label of this place.
    pub fn cast_at(
        &mut self,
        alloc: Global,
        pos: Pos,
        e: Typed,
        ty: TypeId,
    ) -> Result<Typed, OutOfMemory>
        ensures made { IfOk result (λ cast. cast_at pos (typed_of e) ty.0 (work_of self.old)
            ≡ Makes (typed_of cast) (work_of self.new)) }
        ensures grows { OnOk result (Grows self.old.types self.new.types) }
        ensures ty { IfOk result (λ cast. cast.ty ≡ ty) }
    {
        let label = self.label(pos)?;
        let entry = self.list(CastEntry::Cast {
            label,
            from: e.ty,
            to: ty,
            inside: e.entry,
        })?;
        let core = boxed(alloc, Core::Cast(e.core, e.ty, ty, label))?;
        Ok(Typed {
            core,
            ty,
            entry: Some(entry),
        })
    }

    /// The term where it has this type, else its cast; refused at this place where the types aren't consistent.
    pub fn cast_to(
        &mut self,
        alloc: Global,
        pos: Pos,
        ty: TypeId,
        e: Typed,
    ) -> Result<Typed, FrontFault>
        ensures answer { Answers result typed_of (work_of self.new) (cast_to pos ty.0 (typed_of e) (work_of self.old)) }
        ensures grows { OnOk result (Grows self.old.types self.new.types) }
        ensures ty { IfOk result (λ cast. cast.ty.0 ≡ ty.0) }
    {
        if e.ty.0 == ty.0 {
            return Ok(e);
        }
        self.are_consistent(alloc, pos, e.ty, ty)?;
        Ok(self.cast_at(alloc, pos, e, ty)?)
    }

    /// The same where a type is wanted.
    pub fn cast_if(
        &mut self,
        alloc: Global,
        pos: Pos,
        wanted: Option<TypeId>,
        e: Typed,
    ) -> Result<Typed, FrontFault>
        requires e { MayBePart self.old.types e.ty.0 }
        requires wanted { MayPart self.old.types (place_if wanted) }
        ensures answer { Answers result typed_of (work_of self.new)
            (cast_if pos (place_if wanted) (typed_of e) (work_of self.old)) }
        ensures grows { OnOk result (Grows self.old.types self.new.types) }
        ensures part { IfOk result (λ cast. MayBePart self.new.types cast.ty.0) }
    {
        match wanted {
            Some(ty) => self.cast_to(alloc, pos, ty, e),
            None => Ok(e),
        }
    }

    /// The cast to the type with this row.
    pub fn cast_to_row(
        &mut self,
        alloc: Global,
        pos: Pos,
        row: Row,
        e: Typed,
    ) -> Result<Typed, FrontFault>
        requires { FitsTable self.old.types (row_of row) }
        ensures answer { Answers result typed_of (work_of self.new)
            (cast_to_row pos (row_of row) (typed_of e) (work_of self.old)) }
        ensures grows { OnOk result (Grows self.old.types self.new.types) }
    {
        let ty = self.form(row)?;
        self.cast_to(alloc, pos, ty, e)
    }

    /// A written type, where the work comes to it.
    pub fn written(&mut self, alloc: Global, t: &TypeExpr) -> Result<TypeId, FrontFault>
        requires { IsWrittenType (type_of t.now) }
        ensures answer { Answers result (λ ty. ty.0) (work_of self.new) (written (type_of t.now) (work_of self.old)) }
        ensures grows { OnOk result (Grows self.old.types self.new.types) }
        ensures part { IfOk result (λ ty. MayBePart self.new.types ty.0) }
    {
        let ty = form_type(alloc, &mut self.types, t)?;
        self.not_too_large(t.pos, ty)?;
        Ok(ty)
    }

    /// A type where one is written.
    pub fn written_if(
        &mut self,
        alloc: Global,
        t: &Option<TypeExpr>,
    ) -> Result<Option<TypeId>, FrontFault>
        requires { MayBeWritten (written_of t.now) }
        ensures answer { Answers result place_if (work_of self.new) (written_if (written_of t.now) (work_of self.old)) }
        ensures grows { OnOk result (Grows self.old.types self.new.types) }
        ensures part { IfOk result (λ ty. MayPart self.new.types (place_if ty)) }
    {
        match t {
            Some(t) => Ok(Some(self.written(alloc, t)?)),
            None => Ok(None),
        }
    }
}
