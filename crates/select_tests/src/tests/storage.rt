// Storage and environment calls.

use crate::tests::machines::{LABEL, Run, all_are_so, answer, silent};
use crate::tests::programs::{End, Op, Proc};
use grift_base::verdicts::Trap;
use low_ir::code::LowSource::{Number, Word};
use low_ir::code::WordOp;
use rv_emulator::stops::Stop;

// An object of three words, of which the last is answered.
const BUILDS: &[Proc] = &[Proc {
    params: 0,
    words: 1,
    steps: &[
        Op::Build(0, &[Number(1), Number(2), Number(3)]),
        Op::Load(0, Word(0), 16),
    ],
    end: End::Return(Word(0)),
}];

// Room for 300 words is asked for and taken, and then for one more.
const REQUESTS: &[Proc] = &[Proc {
    params: 0,
    words: 1,
    steps: &[
        Op::Request(0, Number(300)),
        Op::Take(Number(300)),
        Op::Request(0, Number(1)),
    ],
    end: End::Return(Number(9)),
}];

// Lets another procedure write 5 into the second word of an object, and answers both of its words.
const READS_BACK: &[Proc] = &[
    Proc {
        params: 0,
        words: 3,
        steps: &[
            Op::Build(0, &[Number(7), Number(9)]),
            Op::Call(1, 1, &[Word(0)]),
            Op::Load(1, Word(0), 0),
            Op::Load(2, Word(0), 8),
            Op::Compute(WordOp::Sll, 1, Word(1), Number(8)),
            Op::Compute(WordOp::Add, 1, Word(1), Word(2)),
        ],
        end: End::Return(Word(1)),
    },
    Proc {
        params: 1,
        words: 1,
        steps: &[Op::Store(Number(5), Word(0), 8)],
        end: End::Return(Number(0)),
    },
];

// An object or requested room fills a region exactly, and one word more doesn't fit.
const REGIONS: &[Run] = &[
    silent!(BUILDS, (24, 16), answer!(3)),
    silent!(BUILDS, (16, 16), Stop::RegionOut),
    silent!(REQUESTS, (2408, 16), answer!(9)),
    silent!(REQUESTS, (2400, 16), Stop::RegionOut),
    silent!(REQUESTS, (2392, 16), Stop::RegionOut),
    silent!(READS_BACK, (16, 64), answer!(0x705)),
];

#[test]
fn regions_are_filled(rt: HostRuntime) {
    all_are_so(&rt, rt.alloc(), REGIONS);
}

// An environment call with two words, of which the second that it hands back is answered.
macro_rules! calls {
    ($kind:expr, $a:expr, $b:expr, $prints:expr, $stop:expr) => {
        Run {
            program: &[Proc {
                params: 0,
                words: 2,
                steps: &[Op::Environment($kind, Number($a), Number($b), 0, 1)],
                end: End::Return(Word(1)),
            }],
            sizes: (0, 64),
            prints: $prints,
            stop: $stop,
        }
    };
}

// Calls that go on, and calls that end.
const CALLS: &[Run] = &[
    calls!(1, u64::MAX, 5, "-1", answer!(5)),
    calls!(2, 65, 5, "A", answer!(5)),
    calls!(0, 0, 42, "", answer!(42)),
    calls!(3, 0, 0, "", Stop::Blamed(LABEL)),
    calls!(4, 2, 5, "", Stop::Trapped(Trap::Index)),
    calls!(5, 2, 5, "", Stop::RegionOut),
    calls!(6, 2, 5, "", Stop::StackOut),
];

#[test]
fn environment_calls_go_on_or_end(rt: HostRuntime) {
    all_are_so(&rt, rt.alloc(), CALLS);
}
