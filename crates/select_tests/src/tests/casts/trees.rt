// Coercions in a machine's memory against those of a table.

use coercion_norm::nodes::{CoercionId, CoercionNode};
use coercion_norm::tables::CoercionTable;
use grift_base::lists::OutOfMemory;
use grift_base::places::{LabelId, TypeId};
use grift_base::words::Words;
use object_layout::kinds::Kind;
use object_layout::wholes::header_at;
use rv_emulator::flat::FlatRam;
use rv_emulator::machine::Machine;
use std::alloc::Global;
use std::process::Abort;

// How many nodes of a coercion are looked at.
const MOST_NODES: u32 = 100_000;

// A memory, a table of coercions, and the addresses of types.
#[derive(Clone, Copy)]
pub(crate) struct Reading<'a> {
    pub machine: &'a Machine<FlatRam>,
    pub table: &'a CoercionTable,
    pub type_at: &'a [u64],
}

// A coercion, and the word that is to hold it.
#[derive(Clone, Copy)]
struct Pending {
    coercion: CoercionId,
    word: u64,
}

// A coercion that is pending, if there is memory for it.
fn push_pending(pending: &mut Vec<Pending>, one: Pending) -> Result<(), OutOfMemory> {
    Ok(pending.push(one)?)
}

// One more is pending.
fn await_one(rt: &impl Abort, pending: &mut Vec<Pending>, coercion: CoercionId, word: u64) {
    push_pending(pending, Pending { coercion, word }).expect(rt, "memory");
}

impl<'a> Reading<'a> {
    // Whether the word holds the coercion.
    pub(crate) fn holds(
        &self,
        rt: &impl Abort,
        alloc: Global,
        coercion: CoercionId,
        word: u64,
    ) -> bool {
        let mut pending = Vec::new(alloc);
        await_one(rt, &mut pending, coercion, word);
        self.all_agree(rt, alloc, &mut pending)
    }

    // Whether what is pending agrees, and all that comes to be pending.
    fn all_agree(&self, rt: &impl Abort, alloc: Global, pending: &mut Vec<Pending>) -> bool {
        for _ in 0..MOST_NODES {
            match pending.pop() {
                None => return true,
                Some(next) => {
                    if !self.agrees(rt, alloc, next, pending) {
                        return false;
                    }
                }
            }
        }
        false
    }

    // Whether an object is as the coercion's node says; its parts go to those that are pending.
    fn agrees(
        &self,
        rt: &impl Abort,
        alloc: Global,
        here: Pending,
        pending: &mut Vec<Pending>,
    ) -> bool {
        if here.coercion.0 >= self.table.len() {
            return false;
        }
        let node = self.table.node(here.coercion);
        let high = self.table.height(here.coercion);
        if !self.stands(node, high, here.word) {
            return false;
        }
        self.awaits(rt, alloc, node, here.word, pending)
    }

    // Whether an object has a node's header, and the type and the label that the node names.
    fn stands(&self, node: &CoercionNode, high: u32, at: u64) -> bool {
        let (kind, high, count, named, label) = match node {
            CoercionNode::Id => return at == 0,
            CoercionNode::Fail(label) => (Kind::Fail, 0, 1, None, Some((1, *label))),
            CoercionNode::Fun(parameters, _) => {
                (
                    Kind::Fun,
                    high,
                    parameters.len().wrapping_add(1),
                    None,
                    None,
                )
            }
            CoercionNode::Tup(parts) => (Kind::Tup, high, parts.len(), None, None),
            CoercionNode::Ref(..) => (Kind::Ref, high, 2, None, None),
            CoercionNode::Vec(..) => (Kind::Vec, high, 2, None, None),
            CoercionNode::Inject(_, kept) => (Kind::Inject, high, 2, Some((2, *kept)), None),
            CoercionNode::Project(wanted, label, _) => {
                (
                    Kind::Project,
                    high,
                    3,
                    Some((1, *wanted)),
                    Some((2, *label)),
                )
            }
        };
        self.begins(at, kind, high, count) && self.names(at, named) && self.blames(at, label)
    }

    // Whether there are words for a node's parts, which are then to hold these.
    fn awaits(
        &self,
        rt: &impl Abort,
        alloc: Global,
        node: &CoercionNode,
        at: u64,
        pending: &mut Vec<Pending>,
    ) -> bool {
        let mut place = if matches!(node, CoercionNode::Project(..)) {
            3
        } else {
            1
        };
        let parts = node.parts(alloc).expect(rt, "memory");
        for coercion in parts.as_slice() {
            let Some(word) = self.word(at, place) else {
                return false;
            };
            await_one(rt, pending, *coercion, word);
            place = place.wrapping_add(1);
        }
        true
    }

    // The word at a place behind a header; place 0 is the header.
    pub(crate) fn word(&self, at: u64, place: u64) -> Option<u64> {
        self.machine.word(at.wrapping_add(place.wrapping_mul(8)))
    }

    // Whether an object begins with this header.
    fn begins(&self, at: u64, kind: Kind, high: u32, count: u64) -> bool {
        match header_at(self.machine, at) {
            None => false,
            Some(header) => {
                header.kind == kind.number()
                    && u32::from(header.height) == high
                    && u64::from(header.count) == count
            }
        }
    }

    // Whether a word, where one is named, is the address of a type.
    fn names(&self, at: u64, named: Option<(u64, TypeId)>) -> bool {
        match named {
            None => true,
            Some((place, type_id)) => match self.type_at.get(type_id.0 as usize) {
                None => false,
                Some(address) => self.says(at, place, *address),
            },
        }
    }

    // Whether a word, where one is named, is the number of a label.
    fn blames(&self, at: u64, label: Option<(u64, LabelId)>) -> bool {
        match label {
            None => true,
            Some((place, label)) => self.says(at, place, u64::from(label.0)),
        }
    }

    // Whether a word is a number.
    fn says(&self, at: u64, place: u64, number: u64) -> bool {
        matches!(self.word(at, place), Some(word) if word == number)
    }
}
