// How long the texts of coercions may become, which is asked before they are written: a coercion whose parts stand in
// a few nodes of a table may have a text that no memory holds.

ghost use Rattle.std.specs.Prelude.{◌<◌, All, length};
ghost use Rattle.coercion_norm.specs.CoercionTables.{FitsTypes};
ghost use Rattle.coercion_norm.specs.Nodes.{node_of, node_types};

use coercion_norm::nodes::{CoercionId, CoercionNode};
use coercion_norm::tables::CoercionTable;
use grift_base::lists::OutOfMemory;
use grift_base::places::TypeId;
use std::alloc::Global;
use type_graph::tables::{SIZE_SHOWN, TypeTable};

// The most bytes that a listing of casts may have.
const MOST_BYTES: u64 = 1_073_741_824;

// More bytes than a coercion has beside its parts and its type: two labels' worth, brackets, words and arrows.
const NODE_ROOM: u64 = 64;

// More bytes than a type has beside its parts.
const ROW_ROOM: u64 = 16;

// More nodes than the largest type of a cast: a function of six parameters, each as large as a type may be.
const LARGE_TYPE: u64 = 8 * SIZE_SHOWN;

// How many bytes the texts of the coercions of a table have at most, by their places.
#[derive(Drop)]
pub(crate) struct Rooms {
    each: Vec<u64>,
}

impl Rooms {
    pub(crate) fn new(alloc: Global) -> Rooms {
        Rooms {
            each: Vec::new(alloc),
        }
    }

    // Asks whether the text of a coercion may be written behind so many bytes; if not, `OutOfMemory` is the answer.
    pub(crate) fn ask(
        &mut self,
        alloc: Global,
        table: &CoercionTable,
        types: &TypeTable,
        written: u64,
        c: CoercionId,
    ) -> Result<(), OutOfMemory>
        requires { FitsTypes types.now table.now }
    {
        self.fill(alloc, table, types)?;
        if written.saturating_add(self.room(c)) > MOST_BYTES {
            return Err(OutOfMemory);
        }
        Ok(())
    }

    // The room of a coercion that was met.
    fn room(&self, c: CoercionId) -> u64 {
        self.each.get(c.0 as usize).copied().unwrap_or(0)
    }

    // Meets the coercions of the table that weren't met yet.
    fn fill(
        &mut self,
        alloc: Global,
        table: &CoercionTable,
        types: &TypeTable,
    ) -> Result<(), OutOfMemory>
        requires { FitsTypes types.now table.now }
    {
        let met = self.each.len();
        for place in met..table.len() as usize {
            let node = table.node(CoercionId(place as u32));
            let room = self.room_of_node(alloc, types, node)?;
            self.each.push(room)?;
        }
        Ok(())
    }

    // The room of a node, by those of its parts.
    fn room_of_node(
        &self,
        alloc: Global,
        types: &TypeTable,
        node: &CoercionNode,
    ) -> Result<u64, OutOfMemory>
        requires { All (λ type. type < length types.now) (node_types (node_of node.now)) }
    {
        let mut room = NODE_ROOM;
        for part in node.parts(alloc)?.as_slice() {
            room = room.saturating_add(self.room(*part));
        }
        match node {
            CoercionNode::Inject(_, kept) => Ok(room.saturating_add(type_room(types, *kept))),
            CoercionNode::Project(wanted, _, _) => {
                Ok(room.saturating_add(type_room(types, *wanted)))
            }
            _ => Ok(room),
        }
    }
}

// How many bytes the text of a type of a cast has at most.
fn type_room(types: &TypeTable, t: TypeId) -> u64
    requires { t.0 < length types.now }
{
    let size = types.size(t);
    if size < SIZE_SHOWN {
        ROW_ROOM * size
    } else {
        ROW_ROOM * LARGE_TYPE
    }
}
