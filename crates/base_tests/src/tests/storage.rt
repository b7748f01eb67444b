// Objects in storage, and walks over them.

use grift_base::lists::OutOfMemory;
use grift_base::words::{WordList, Words};
use object_layout::headers::{Header, pack, unpack};
use object_layout::kinds::Kind;
use object_layout::walks::{SpaceReport, WalkFault, walk};
use object_layout::wholes::{Area, whole_object};
use std::alloc::Global;

// The first address of the memories here.
const FIRST: u64 = 65_536;

// Words from `FIRST` on.
#[derive(Drop)]
struct Storage {
    words: WordList,
}

impl Words for Storage {
    ghost use Rattle.std.specs.Prelude.{ℕ, ◌+◌, ◌*◌, ◌-◌, ◌/◌, length, slice_index};

    ghost first = { λ _. 65536 };

    ghost end = { λ s. 65536 + 8 * length s.words };

    ghost word_at = { λ s at. slice_index s.words ((at - 65536) / 8) };

    fn word(&self, at: u64) -> Option<u64> {
        if at % 8 != 0 || at < FIRST {
            return None;
        }
        self.words.get((at - FIRST) / 8).copied()
    }
}

// A word of a memory.
#[derive(Clone, Copy)]
enum Piece {
    // a header with a kind, a height and a count
    Header(Kind, u16, u32),
    // one that has another bit besides
    OddHeader(Kind, u16, u32),
    Word(u64),
}

impl Piece {
    fn word(self) -> u64 {
        match self {
            Piece::Header(kind, height, count) => header(kind, height, count),
            Piece::OddHeader(kind, height, count) => header(kind, height, count) | 256,
            Piece::Word(word) => word,
        }
    }
}

fn header(kind: Kind, height: u16, count: u32) -> u64 {
    pack(Header {
        kind: kind.number(),
        height,
        count,
    })
}

// An object: its kind, its height, how many words stand behind its header, and these.
type Object = (Kind, u16, u32, &'static [u64]);

// A memory of these objects, of which the word at a place may be another.
fn storage_of(
    alloc: Global,
    objects: &[Object],
    change: Option<(usize, Piece)>,
) -> Result<Storage, OutOfMemory> {
    let mut words = Vec::new(alloc);
    for (kind, height, count, behind) in objects {
        words.push(header(*kind, *height, *count))?;
        words.extend_from_slice(behind)?;
    }
    if let Some((place, piece)) = change {
        if let Some(word) = words.get_mut(place) {
            *word = piece.word();
        }
    }
    Ok(Storage {
        words: WordList::from_vec(words),
    })
}

// One type of each of two heights, and behind them, from 65,560 on, an object of each kind that may stand in a region.
const EACH_KIND: &[Object] = &[
    (Kind::IntType, 0, 0, &[]),
    (Kind::RefType, 1, 1, &[65_536]),
    (Kind::Closure, 0, 1, &[65_536]),
    (Kind::Boxed, 0, 1, &[7]),
    (Kind::Fail, 0, 1, &[0]),
    (Kind::Fun, 1, 2, &[0, 65_592]),
    (Kind::Tup, 2, 1, &[65_608]),
    (Kind::Ref, 1, 2, &[0, 0]),
    (Kind::Vec, 1, 2, &[0, 65_592]),
    (Kind::Inject, 1, 2, &[65_648, 65_544]),
    (Kind::Project, 1, 3, &[65_544, 3, 65_592]),
    (Kind::Dyn, 0, 2, &[65_536, 5]),
    (Kind::Proxy, 0, 2, &[65_560, 65_608]),
    (Kind::Proxy, 0, 2, &[65_776, 65_632]),
    (Kind::Tuple, 0, 2, &[1, 2]),
    (Kind::Vector, 0, 0, &[]),
];

// A box of one word.
const BOX: &[Object] = &[(Kind::Boxed, 0, 1, &[42])];

// What is walked in a memory of objects of which one word may be changed, from one address up to another. None where
// these are in the wrong order, or no memory is left.
fn walked(
    alloc: Global,
    objects: &[Object],
    change: Option<(usize, Piece)>,
    from: u64,
    end: u64,
) -> Option<Result<SpaceReport, WalkFault>> {
    if end < from {
        return None;
    }
    let memory = storage_of(alloc, objects, change).ok()?;
    Some(walk(&memory, from, end))
}

// What a walk reports: bytes, objects, proxies, those of them that are stacked, and the greatest height.
type Report = (u64, u64, u64, u64, u32);

fn reported(
    alloc: Global,
    objects: &[Object],
    from: u64,
    end: u64,
) -> Option<Result<Report, WalkFault>> {
    match walked(alloc, objects, None, from, end)? {
        Ok(
            SpaceReport {
                bytes,
                objects,
                proxies,
                stacked,
                highest,
            },
        ) => Some(Ok((bytes, objects, proxies, stacked, highest))),
        Err(fault) => Some(Err(fault)),
    }
}

// The objects of a memory, the first address, the last, and what is walked.
const WALKS: &[(&[Object], u64, u64, Result<Report, WalkFault>)] = &[
    (EACH_KIND, 65_560, 65_856, Ok((296, 14, 2, 1, 2))),
    (EACH_KIND, 65_560, 65_840, Err(WalkFault::Torn(65_824))),
    (EACH_KIND, 65_560, 65_560, Ok((0, 0, 0, 0, 0))),
    (BOX, 65_536, 65_552, Ok((16, 1, 0, 0, 0))),
    (BOX, 65_536, 65_544, Err(WalkFault::Torn(65_536))),
];

#[test]
fn rows_are_reported(rt: HostRuntime) {
    for (objects, from, end, wanted) in WALKS {
        assert!(rt;
            reported(rt.alloc(), objects, *from, *end) == Some(*wanted),
            "up to {end}"
        );
    }
}

// The place of a word among those of `EACH_KIND`, what it becomes, and where the row is torn then.
const CHANGES: &[(usize, Piece, u64)] = &[
    (3, Piece::Header(Kind::IntType, 0, 0), 65_560),
    (3, Piece::Header(Kind::Closure, 0, 0), 65_560),
    (3, Piece::Word(7), 65_560),
    (3, Piece::OddHeader(Kind::Closure, 0, 1), 65_560),
    (9, Piece::Header(Kind::Fun, 0, 2), 65_608),
    (11, Piece::Word(65_720), 65_608),
    (11, Piece::Word(65_576), 65_608),
    (12, Piece::Header(Kind::Tup, 2, 9), 65_632),
    (21, Piece::Word(65_536), 65_696),
    (22, Piece::Word(65_560), 65_696),
    (24, Piece::Word(65_592), 65_720),
    (26, Piece::Word(65_736), 65_720),
    (31, Piece::Word(65_752), 65_776),
    (31, Piece::Word(65_808), 65_776),
    (32, Piece::Word(0), 65_776),
    (32, Piece::Word(65_592), 65_776),
    (36, Piece::Header(Kind::Tuple, 0, 4), 65_824),
    (39, Piece::Header(Kind::Vector, 0, 1), 65_848),
];

#[test]
fn each_condition_tears_where_it_breaks(rt: HostRuntime) {
    for (place, piece, torn) in CHANGES {
        let answer = walked(
            rt.alloc(),
            EACH_KIND,
            Some((*place, *piece)),
            65_560,
            65_856,
        );
        assert!(rt;
            answer == Some(Err(WalkFault::Torn(*torn))),
            "{place} for {torn}"
        );
    }
}

// A type of each kind.
const TYPES: &[Object] = &[
    (Kind::IntType, 0, 0, &[]),
    (Kind::BoolType, 0, 0, &[]),
    (Kind::UnitType, 0, 0, &[]),
    (Kind::DynType, 0, 0, &[]),
    (Kind::FunType, 1, 2, &[65_536, 65_544]),
    (Kind::TupleType, 1, 1, &[65_536]),
    (Kind::RefType, 1, 1, &[65_536]),
    (Kind::VecType, 1, 1, &[65_536]),
];

// Whether a whole type stands at an address in statics, and none in a region.
fn is_whole_in_statics_alone(alloc: Global, at: u64) -> Result<bool, OutOfMemory> {
    let memory = storage_of(alloc, TYPES, None)?;
    let in_statics = whole_object(&memory, Area::Statics, 65_640, at);
    let in_region = whole_object(&memory, Area::Region, 65_640, at);
    Ok(in_statics.is_some() && in_region.is_none())
}

#[test]
fn types_are_whole_in_statics_alone(rt: HostRuntime) {
    for at in [
        65_536, 65_544, 65_552, 65_560, 65_568, 65_592, 65_608, 65_624,
    ] {
        assert!(rt;
            matches!(is_whole_in_statics_alone(rt.alloc(), at), Ok(true)),
            "{at}"
        );
    }
}

#[test]
fn headers_are_unpacked(rt: HostRuntime) {
    let boxed = Header {
        kind: 5,
        height: 2,
        count: 1,
    };
    for (word, unpacked) in [
        (0x0000_0001_0002_0305, None),
        (0x0000_0001_0002_0005, Some(boxed)),
    ] {
        assert!(rt; unpack(word) == unpacked, "{word:#018x}");
    }
}
