// Tables of coercions.

ghost use Rattle.std.specs.Prelude.{◌≡◌, ◌≤◌, ◌<◌, ◌∷◌, [], All, Contains, IfNone, IfOk, IfSome, OnErr, OnOk, Some};
ghost use Rattle.std.specs.Prelude.{length, slice_get};
ghost use Rattle.grift_base.specs.Tables.{Interns};
ghost use Rattle.grift_base.specs.Types.{TypeRows};
ghost use Rattle.type_graph.specs.Trees.{height};
ghost use Rattle.coercion_norm.specs.Coercions.{Id, all_id, is_id};
ghost use Rattle.coercion_norm.specs.Composition.{middle};
ghost use Rattle.coercion_norm.specs.Heights.{coercion_height, highest};
ghost use Rattle.coercion_norm.specs.Nodes.{AreTableNodes, Grows, IdNode, IsTree, KindHasWidth, coercion_places, grown};
ghost use Rattle.coercion_norm.specs.Nodes.{node_of, tree_of, trees};
ghost use Rattle.coercion_norm.specs.CoercionTables.{FitsTypes, IsSound, MayBeNode, NodeTable};

use crate::middles::MiddleKind;
use crate::nodes::{CoercionId, CoercionNode, middle_node};
use grift_base::lists::OutOfMemory;
use grift_base::places::MOST_ENTRIES;
use indexmap::IndexMap;
use std::alloc::Global;
use std::marker::Model;
use type_graph::tables::TypeTable;

/// Distinct coercions, in order of first use, each behind its parts.
pub struct CoercionTable {
    nodes: IndexMap<CoercionNode, u32>,
}

// By hand, so that what is proved of an exit at which a table is alive has one call, and not all that a map is made of.
impl Drop for CoercionTable {
    fn drop(self) {
        let CoercionTable { nodes } = self;
        drop(nodes);
    }
}

impl Model for CoercionTable {
    ghost use Rattle.std.specs.Prelude.{map};
    ghost use Rattle.indexmap.specs.IndexMap.{keys, values};
    ghost use Rattle.coercion_norm.specs.Nodes.{node_of};
    ghost use Rattle.coercion_norm.specs.CoercionTables.{IsKept, NodeTable};

    ghost Value = { NodeTable };

    ghost view = { λ a. record { nodes = map node_of (keys a.nodes); heights = values a.nodes } };

    ghost invariant = { λ a. IsKept (record { nodes = map node_of (keys a.nodes); heights = values a.nodes }) };
}

impl CoercionTable {
    /// The table that has `Id` alone, which will take its memory from `alloc`.
    pub fn new(alloc: Global) -> Result<CoercionTable, OutOfMemory>
        ensures nodes { IfOk result (λ table. table.nodes ≡ IdNode ∷ []) }
        ensures fits { IfOk result (λ table. (types : TypeRows) → FitsTypes types table) }
    {
        let mut nodes = IndexMap::new(alloc);
        nodes.insert(CoercionNode::Id, 0)?;
        Ok(CoercionTable { nodes })
    }

    /// How many nodes there are. `Id` stands first, no node stands twice, and parts stand before wholes.
    pub fn len(&self) -> u32
        ensures len { result ≡ length self.now.nodes }
        ensures nodes { AreTableNodes self.now.nodes }
    {
        self.nodes.len() as u32
    }

    /// The node at a place.
    pub fn node(&self, c: CoercionId) -> &CoercionNode
        requires { c.0 < length self.now.nodes }
        ensures { slice_get self.now.nodes c.0 ≡ Some (node_of result.now) }
    {
        let (node, _) = self.nodes.get_index(c.0 as usize).unwrap();
        node
    }

    /// The height of the coercion at a place: 0 for `Id` and `Fail`; for a middle one more than that of its highest
    /// part; else that of the part or that of the type, whichever is greater. It is told for every table of types that
    /// the table fits.
    pub fn height(&self, c: CoercionId) -> u32
        requires { c.0 < length self.now.nodes }
        ensures kept { slice_get self.now.heights c.0 ≡ Some result }
        ensures height { (types : TypeRows) → FitsTypes types self.now
            → result ≡ coercion_height (height types) (tree_of self.now.nodes c.0) }
    {
        let (_, height) = self.nodes.get_index(c.0 as usize).unwrap();
        *height
    }

    /// The place of a node, if it is there.
    pub fn place_of(&self, node: &CoercionNode) -> Option<CoercionId>
        ensures found { IfSome result (λ c. slice_get self.now.nodes c.0 ≡ Some (node_of node.now)) }
        ensures absent { IfNone result (¬ Contains self.now.nodes (node_of node.now)) }
    {
        let place = self.nodes.get_index_of(node)?;
        Some(CoercionId(place as u32))
    }

    // The height of the highest of these coercions.
    fn highest(&self, types: &TypeTable, parts: &[CoercionId]) -> u32
        requires fits { FitsTypes types.now self.now }
        requires there { All (λ part. part < length self.now.nodes) (coercion_places parts.now) }
        ensures { result ≡ highest (height types.now) (trees (tree_of self.now.nodes) (coercion_places parts.now)) }
    {
        let mut highest = 0u32;
        for part in parts {
            highest = highest.max(self.height(*part));
        }
        highest
    }

    // The height of a node that may go into the table.
    fn height_of_node(&self, types: &TypeTable, node: &CoercionNode) -> u32
        requires fits { FitsTypes types.now self.now }
        requires node { MayBeNode types.now self.now.nodes (node_of node.now) }
        ensures { result
            ≡ coercion_height (height types.now) (grown (tree_of self.now.nodes) (Some (node_of node.now))) }
    {
        match node {
            CoercionNode::Id | CoercionNode::Fail(_) => 0,
            CoercionNode::Fun(arguments, result) => {
                1 + self
                    .highest(types, arguments.as_slice())
                    .max(self.height(*result))
            }
            CoercionNode::Tup(parts) => 1 + self.highest(types, parts.as_slice()),
            CoercionNode::Ref(read, write) | CoercionNode::Vec(read, write) => {
                1 + self.height(*read).max(self.height(*write))
            }
            CoercionNode::Inject(g, kept) => self.height(*g).max(types.height(*kept)),
            CoercionNode::Project(wanted, _, i) => types.height(*wanted).max(self.height(*i)),
        }
    }

    /// The place of this node, which goes last where it is not there yet. `OutOfMemory` comes only where it would be
    /// added: no memory is left for it, or `MOST_ENTRIES` nodes are there.
    pub fn intern_node(
        &mut self,
        types: &TypeTable,
        node: CoercionNode,
    ) -> Result<CoercionId, OutOfMemory>
        requires fits { FitsTypes types.now self.old }
        requires node { MayBeNode types.now self.old.nodes (node_of node) }
        ensures interned { OnOk result (Interns self.old.nodes (node_of node) self.new.nodes) }
        ensures place { IfOk result (λ c. slice_get self.new.nodes c.0 ≡ Some (node_of node)) }
        ensures tree { IfOk result (λ c.
            IsTree self.new.nodes c.0 (grown (tree_of self.old.nodes) (Some (node_of node)))) }
        ensures fits { FitsTypes types.now self.new }
        ensures grows { Grows self.old.nodes self.new.nodes }
        ensures err { OnErr result (self.new ≡ self.old) }
        ensures absent { OnErr result (¬ Contains self.old.nodes (node_of node)) }
    {
        let place = self.len();
        if let Some(there) = self.place_of(&node) {
            return Ok(there);
        }
        if u64::from(place) >= MOST_ENTRIES {
            return Err(OutOfMemory);
        }
        let height = self.height_of_node(types, &node);
        self.nodes.insert(node, height)?;
        Ok(CoercionId(place))
    }

    /// The place of `Id`.
    pub fn id(&self) -> CoercionId
        ensures { IsTree self.now.nodes result.0 Id }
    {
        self.len();
        CoercionId(0)
    }

    // Whether these coercions are all `Id`.
    fn all_id(&self, parts: &[CoercionId]) -> bool
        requires { All (λ part. part < length self.now.nodes) (coercion_places parts.now) }
        ensures { result ≡ all_id (trees (tree_of self.now.nodes) (coercion_places parts.now)) }
    {
        for part in parts {
            if !self.is_id(*part) {
                return false;
            }
        }
        true
    }

    /// Whether the coercion at a place is `Id`.
    pub fn is_id(&self, c: CoercionId) -> bool
        requires { c.0 < length self.now.nodes }
        ensures { result ≡ is_id (tree_of self.now.nodes c.0) }
    {
        self.len();
        matches!(self.node(c), CoercionNode::Id)
    }

    /// The middle of these parts, or `Id` where all are `Id`.
    pub fn intern_middle(
        &mut self,
        alloc: Global,
        types: &TypeTable,
        kind: MiddleKind,
        parts: &[CoercionId],
    ) -> Result<CoercionId, OutOfMemory>
        requires fits { FitsTypes types.now self.old }
        requires there { All (λ part. part < length self.old.nodes) (coercion_places parts.now) }
        requires width { KindHasWidth kind (length parts.now) }
        requires sound { IsSound types.now (middle kind (trees (tree_of self.old.nodes) (coercion_places parts.now))) }
        ensures made { IfOk result (λ c.
            IsTree self.new.nodes c.0 (middle kind (trees (tree_of self.old.nodes) (coercion_places parts.now)))) }
        ensures fits { FitsTypes types.now self.new }
        ensures grows { Grows self.old.nodes self.new.nodes }
    {
        if self.all_id(parts) {
            return Ok(self.id());
        }
        let node = middle_node(alloc, kind, parts)?;
        self.intern_node(types, node)
    }
}
