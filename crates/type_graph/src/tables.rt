// Tables of types.

ghost use Rattle.std.specs.Prelude.{◌≡◌, ◌≤◌, ◌<◌, ◌+◌, ◌↔◌, max, min, [], All, Contains, IfNone, IfOk, IfSome, IsTrue};
ghost use Rattle.std.specs.Prelude.{OnErr, OnOk, length};
ghost use Rattle.grift_base.specs.Tables.{Interns};
ghost use Rattle.grift_base.specs.Types.{parts_of, row_at};
ghost use Rattle.type_graph.specs.Rows.{places_of, row_of};
ghost use Rattle.type_graph.specs.Forming.{intern};
ghost use Rattle.type_graph.specs.Trees.{AreSame, height, size};
ghost use Rattle.type_graph.specs.TypeTables.{FitsTable, IsMeasure, IsMeasureOfParts, IsOrderedTable, MayBePart};

use crate::rows::Row;
use grift_base::lists::OutOfMemory;
use grift_base::places::{MOST_ENTRIES, TypeId};
use indexmap::IndexMap;
use std::alloc::Global;
use std::marker::Model;

/// The greatest height of a type.
pub const MOST_HEIGHT: u32 = 65534;

/// The least size that is not told apart from greater ones.
pub const SIZE_SHOWN: u64 = 1001;

/// What is kept beside a row, so that it is one look-up.
#[derive(Clone, Copy)]
pub struct Measure {
    height: u32,
    size: u64,
}

impl Measure {
    // A type without parts.
    const LEAF: Measure = Measure { height: 0, size: 1 };

    // The measure of a type that has one part more than that of `self`.
    fn with_part(self, part: Measure) -> Measure
        requires low { part.height < MOST_HEIGHT }
        requires small { self.size ≤ SIZE_SHOWN }
        requires part_small { part.size ≤ SIZE_SHOWN }
        ensures height { result.height ≡ max self.height (part.height + 1) }
        ensures size { result.size ≡ min SIZE_SHOWN (self.size + part.size) }
    {
        Measure {
            height: self.height.max(part.height + 1),
            size: SIZE_SHOWN.min(self.size + part.size),
        }
    }
}

/// Distinct rows, in order of first use.
pub struct TypeTable {
    rows: IndexMap<Row, Measure>,
}

// By hand, so that what is proved of an exit at which a table is alive has one call, and not all that a map is made of.
impl Drop for TypeTable {
    fn drop(self) {
        let TypeTable { rows: _rows } = self;
    }
}

impl Model for TypeTable {
    ghost use Rattle.std.specs.Prelude.{map};
    ghost use Rattle.grift_base.specs.Types.{TypeRows};
    ghost use Rattle.indexmap.specs.IndexMap.{keys, values};
    ghost use Rattle.type_graph.specs.Rows.{row_of};
    ghost use Rattle.type_graph.specs.TypeTables.{IsKept};

    ghost Value = { TypeRows };

    ghost view = { λ a. map row_of (keys a.rows) };

    ghost invariant = { λ a. IsKept (map row_of (keys a.rows)) (values a.rows) };
}

impl TypeTable {
    /// The empty table, which will take its memory from `alloc`.
    pub fn new(alloc: Global) -> Result<TypeTable, OutOfMemory>
        ensures { IfOk result (λ types. types ≡ []) }
    {
        Ok(TypeTable {
            rows: IndexMap::new(alloc),
        })
    }

    /// How many rows there are. No row stands twice, and types are trees.
    pub fn len(&self) -> u32
        ensures len { result ≡ length self.now }
        ensures table { IsOrderedTable self.now }
    {
        self.rows.len() as u32
    }

    /// The row at a place.
    pub fn row(&self, t: TypeId) -> &Row
        requires { t.0 < length self.now }
        ensures { row_at self.now t.0 ≡ Some (row_of result.now) }
    {
        let (row, _) = self.rows.get_index(t.0 as usize).unwrap();
        row
    }

    /// The place of a row, if it is there.
    pub fn place_of(&self, row: &Row) -> Option<TypeId>
        ensures found { IfSome result (λ t. row_at self.now t.0 ≡ Some (row_of row.now)) }
        ensures absent { IfNone result (¬ Contains self.now (row_of row.now)) }
    {
        let place = self.rows.get_index_of(row)?;
        Some(TypeId(place as u32))
    }

    // What is kept beside a row.
    fn measure(&self, t: TypeId) -> Measure
        requires { t.0 < length self.now }
        ensures { IsMeasure self.now t.0 result }
    {
        let (_, measure) = self.rows.get_index(t.0 as usize).unwrap();
        *measure
    }

    // The measure of a type with these parts.
    fn measure_of_parts(&self, parts: &[TypeId]) -> Measure
        requires { All (MayBePart self.now) (places_of parts.now) }
        ensures { IsMeasureOfParts self.now (places_of parts.now) result }
    {
        let mut measure = Measure::LEAF;
        for part in parts {
            measure = measure.with_part(self.measure(*part));
        }
        measure
    }

    // The measure of a row.
    fn measure_of_row(&self, row: &Row) -> Measure
        requires { FitsTable self.now (row_of row.now) }
        ensures { IsMeasureOfParts self.now (parts_of (row_of row.now)) result }
    {
        match row {
            Row::Int | Row::Bool | Row::Unit | Row::Dyn => Measure::LEAF,
            Row::Fun(parameters, result) => self
                .measure_of_parts(parameters.as_slice())
                .with_part(self.measure(*result)),
            Row::Tuple(parts) => self.measure_of_parts(parts.as_slice()),
            Row::Ref(content) | Row::Vect(content) => self.measure_of_parts(&[*content]),
        }
    }

    /// Whether a type may be a part of another: whether it is there, and not too high.
    pub fn may_be_part(&self, t: TypeId) -> bool
        ensures { IsTrue result ↔ MayBePart self.now t.0 }
    {
        t.0 < self.len() && self.height(t) < MOST_HEIGHT
    }

    // Whether these types may be parts of another.
    fn may_be_parts(&self, parts: &[TypeId]) -> bool
        ensures { IsTrue result ↔ All (MayBePart self.now) (places_of parts.now) }
    {
        for part in parts {
            if !self.may_be_part(*part) {
                return false;
            }
        }
        true
    }

    /// Whether a row may be put into the table: whether its parts are there, and it is neither too wide nor too high.
    pub fn fits(&self, row: &Row) -> bool
        ensures { IsTrue result ↔ FitsTable self.now (row_of row.now) }
    {
        match row {
            Row::Int | Row::Bool | Row::Unit | Row::Dyn => true,
            Row::Fun(parameters, result) => {
                parameters.len() <= 6
                    && self.may_be_parts(parameters.as_slice())
                    && self.may_be_part(*result)
            }
            Row::Tuple(parts) => {
                !parts.is_empty() && parts.len() <= 8 && self.may_be_parts(parts.as_slice())
            }
            Row::Ref(content) | Row::Vect(content) => self.may_be_part(*content),
        }
    }

    /// The place of this row, which goes last where it is not there yet. `OutOfMemory` comes only where it would be
    /// added: no memory is left for it, or `MOST_ENTRIES` rows are there.
    pub fn intern(&mut self, row: Row) -> Result<TypeId, OutOfMemory>
        requires { FitsTable self.old (row_of row) }
        ensures interned { OnOk result (Interns self.old (row_of row) self.new) }
        ensures place { IfOk result (λ t. row_at self.new t.0 ≡ Some (row_of row)) }
        ensures ok { IfOk result (λ t. intern (row_of row) self.old ≡ (t.0, self.new)) }
        ensures err { OnErr result (self.new ≡ self.old) }
        ensures absent { OnErr result (¬ Contains self.old (row_of row)) }
    {
        let place = self.len();
        if let Some(there) = self.place_of(&row) {
            return Ok(there);
        }
        if u64::from(place) >= MOST_ENTRIES {
            return Err(OutOfMemory);
        }
        let measure = self.measure_of_row(&row);
        self.rows.insert(row, measure)?;
        Ok(TypeId(place))
    }

    /// Whether two types are the same: whether they agree to every depth.
    pub fn same(&self, a: TypeId, b: TypeId) -> bool
        requires a { a.0 < length self.now }
        requires b { b.0 < length self.now }
        ensures { IsTrue result ↔ AreSame self.now a.0 b.0 }
    {
        // The table is one: `len` says that no row stands twice and that its types are trees.
        self.len();
        a == b
    }

    /// 0 for a type without parts, else one more than the height of the highest part.
    pub fn height(&self, t: TypeId) -> u32
        requires { t.0 < length self.now }
        ensures { result ≡ height self.now t.0 }
    {
        self.measure(t).height
    }

    /// The number of nodes of a type written as a tree, or `SIZE_SHOWN` where that is greater.
    pub fn size(&self, t: TypeId) -> u64
        requires { t.0 < length self.now }
        ensures { result ≡ min SIZE_SHOWN (size self.now t.0) }
    {
        self.measure(t).size
    }
}
