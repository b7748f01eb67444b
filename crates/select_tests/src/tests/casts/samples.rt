// Types of height at most three, of which many differ only in where they have Dyn.

use crate::tests::casts::random::Random;
use grift_base::places::TypeId;
use std::alloc::Global;
use std::process::Abort;
use type_graph::rows::{Row, TypeIds};
use type_graph::tables::TypeTable;

// Functions, tuples, references and vectors.
pub(crate) const CLASSES: u64 = 4;

// How many types there are of a height and a class.
const VARIANTS: u64 = 6;

// How many types there are of a height.
const LEVEL: u64 = 24;

// The types of height 0, 1, 2 and 3 in order, each height by its classes; and Dyn. In a class of height 0 all types are
// one.
#[derive(Drop)]
pub(crate) struct Sample {
    made: Vec<TypeId>,
    dynamic: TypeId,
}

// Puts a row into a table that it fits.
pub(crate) fn put(rt: &impl Abort, types: &mut TypeTable, row: Row) -> TypeId {
    assert!(rt; types.fits(&row), "the row does not fit");
    types.intern(row).expect(rt, "memory")
}

// Random types of a table.
pub(crate) fn sample_of(
    rt: &impl Abort,
    alloc: Global,
    random: &mut Random,
    types: &mut TypeTable,
) -> Sample {
    let dynamic = put(rt, types, Row::Dyn);
    let made = Vec::new(alloc);
    let mut sample = Sample { made, dynamic };
    sample.add_types(rt, alloc, random, types);
    sample
}

impl Sample {
    // Types of all heights and classes, one after the other.
    fn add_types(
        &mut self,
        rt: &impl Abort,
        alloc: Global,
        random: &mut Random,
        types: &mut TypeTable,
    ) {
        for place in 0..LEVEL * 4 {
            let row = self.row(rt, alloc, random, place / LEVEL, place % LEVEL / VARIANTS);
            self.made.push(put(rt, types, row)).expect(rt, "memory");
        }
    }

    // A row of a height and a class.
    fn row(
        &self,
        rt: &impl Abort,
        alloc: Global,
        random: &mut Random,
        height: u64,
        class: u64,
    ) -> Row {
        if height != 0 {
            return self.high_row(rt, alloc, random, height - 1, class);
        }
        match class {
            1 => Row::Bool,
            2 => Row::Unit,
            _ => Row::Int,
        }
    }

    // A row of a class whose highest part is of a height. Rows of both have equally many parts: those of base types as
    // many as there may be, the others few.
    fn high_row(
        &self,
        rt: &impl Abort,
        alloc: Global,
        random: &mut Random,
        below: u64,
        class: u64,
    ) -> Row {
        let (parameters, parts) = if below == 0 { (6, 8) } else { (1, 2) };
        match class {
            0 => {
                let parameters = self.parts(rt, alloc, random, below, parameters);
                let result = self.part(rt, random, below, 3);
                Row::Fun(parameters, result)
            }
            1 => Row::Tuple(self.parts(rt, alloc, random, below, parts)),
            2 => Row::Ref(self.part(rt, random, below, 0)),
            _ => Row::Vect(self.part(rt, random, below, 1)),
        }
    }

    // So many parts, of one class after the other.
    fn parts(
        &self,
        rt: &impl Abort,
        alloc: Global,
        random: &mut Random,
        below: u64,
        many: u64,
    ) -> TypeIds {
        let mut parts = TypeIds::new(alloc);
        for k in 0..many {
            let part = self.part(rt, random, below, k % CLASSES);
            parts.push(part).expect(rt, "memory");
        }
        parts
    }

    // A part: mostly of a height and a class, now and then Dyn or any type of at most that height.
    fn part(&self, rt: &impl Abort, random: &mut Random, below: u64, class: u64) -> TypeId {
        match random.below(8) {
            0 | 1 => self.dynamic,
            2 => self.type_at(rt, random.below(LEVEL)),
            _ => self.one_of(rt, random, below, class),
        }
    }

    // One of the types of a height and a class.
    pub(crate) fn one_of(
        &self,
        rt: &impl Abort,
        random: &mut Random,
        height: u64,
        class: u64,
    ) -> TypeId {
        let first = height
            .wrapping_mul(LEVEL)
            .wrapping_add(class.wrapping_mul(VARIANTS));
        self.type_at(rt, first.wrapping_add(random.below(VARIANTS)))
    }

    // The type at a place.
    fn type_at(&self, rt: &impl Abort, place: u64) -> TypeId {
        match self.made.as_slice().get(place as usize) {
            Some(made) => *made,
            None => panic!(rt; "no such type is made"),
        }
    }

    // Two types: mostly of one height and class, now and then one of them Dyn, or any two.
    pub(crate) fn pair(&self, rt: &impl Abort, random: &mut Random) -> (TypeId, TypeId) {
        let height = random.below(4);
        let class = random.below(CLASSES);
        let first = self.one_of(rt, random, height, class);
        let second = self.one_of(rt, random, height, class);
        match random.below(8) {
            0 => (self.dynamic, second),
            1 => (first, self.dynamic),
            2 => (self.type_at(rt, random.below(LEVEL * 4)), second),
            _ => (first, second),
        }
    }
}
