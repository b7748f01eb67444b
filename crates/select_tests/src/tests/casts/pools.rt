// Tables of types and coercions that fit each other.

ghost use Rattle.std.specs.Prelude.{◌≡◌};

use crate::tests::casts::random::Random;
use crate::tests::casts::samples::{Sample, sample_of};
use coercion_compose::compositions::compose;
use coercion_norm::cast_rows::CastRows;
use coercion_norm::casts::coerce;
use coercion_norm::nodes::CoercionId;
use coercion_norm::placing::place_rows;
use coercion_norm::tables::CoercionTable;
use grift_base::places::{LabelId, TypeId};
use grift_base::words::Statics;
use machine_words::FIRST_ADDRESS;
use std::alloc::Global;
use std::marker::Model;
use std::process::Abort;
use type_graph::tables::TypeTable;

#[derive(Drop)]
pub(crate) struct Pool {
    types: TypeTable,
    table: CoercionTable,
}

impl Model for Pool {
    ghost use Rattle.grift_base.specs.Types.{TypeRows};
    ghost use Rattle.coercion_norm.specs.CoercionTables.{FitsTypes, NodeTable};

    ghost Value = { TypeRows × NodeTable };

    ghost view = { λ a. (a.types, a.table) };

    ghost invariant = { λ a. FitsTypes a.types a.table };
}

impl Pool {
    // No coercions but Id.
    pub(crate) fn new(rt: &impl Abort, alloc: Global, types: TypeTable) -> Pool {
        let table = CoercionTable::new(alloc).expect(rt, "memory");
        Pool { types, table }
    }

    pub(crate) fn table(&self) -> &CoercionTable {
        &self.table
    }

    // The height of a coercion.
    pub(crate) fn height(&self, rt: &impl Abort, c: CoercionId) -> u32 {
        assert!(rt; c.0 < self.table.len(), "no coercion is there");
        self.table.height(c)
    }

    // The coercion of a cast.
    pub(crate) fn cast(
        &mut self,
        rt: &impl Abort,
        alloc: Global,
        from: TypeId,
        to: TypeId,
        label: LabelId,
    ) -> CoercionId {
        let types = self.types.len();
        assert!(rt; from.0 < types && to.0 < types, "no type is there");
        coerce(alloc, &mut self.table, &self.types, from, to, label).expect(rt, "memory")
    }

    // The composition of two coercions.
    pub(crate) fn compose(
        &mut self,
        rt: &impl Abort,
        alloc: Global,
        c: CoercionId,
        d: CoercionId,
    ) -> CoercionId {
        let coercions = self.table.len();
        assert!(rt; c.0 < coercions && d.0 < coercions, "no coercion is there");
        compose(alloc, &mut self.table, &self.types, c, d).expect(rt, "memory")
    }

    // The objects of all types and coercions.
    pub(crate) fn place(&self, rt: &impl Abort, alloc: Global) -> Statics {
        let placed = place_rows(
            alloc,
            &self.types,
            &self.table,
            &CastRows::new(alloc),
            FIRST_ADDRESS,
        );
        placed.expect(rt, "memory")
    }
}

// Random numbers, random types, and a pool of these.
#[derive(Drop)]
pub(crate) struct Setting {
    pub random: Random,
    pub sample: Sample,
    pub pool: Pool,
}

impl Setting {
    // The types of a seed, and no coercions but Id.
    pub(crate) fn new(rt: &impl Abort, alloc: Global, seed: u64) -> Setting {
        let mut random = Random::new(seed);
        let mut types = TypeTable::new(alloc).expect(rt, "memory");
        let sample = sample_of(rt, alloc, &mut random, &mut types);
        let pool = Pool::new(rt, alloc, types);
        Setting {
            random,
            sample,
            pool,
        }
    }
}
