// Codes as images.

ghost use Rattle.std.specs.Prelude.{◌≡◌, pos};
ghost use Rattle.rv_isa.specs.declared.inst.Inst.TheVariants.{Addi};
ghost use Rattle.assembler.specs.Conditions.{CanBeAssembled};

use crate::tests::images::{SMALLEST, are_groups};
use assembler::assembly::assemble;
use assembler::image::Image;
use grift_base::places::{LabelTable, Pos};
use grift_base::words::{Statics, WordList};
use rv_isa::inst::Inst;
use rv_isa::number::{Imm12, Reg};
use rv_machine::real::{RealCode, RealItem, RealItems};
use std::alloc::Global;
use std::process::Abort;

// Puts the number 42 into x11.
fn set() -> Inst
    ensures { result ≡ Addi 11 0 (pos 42) }
{
    Inst::Addi(Reg::new(11), Reg::new(0), Imm12::new(42))
}

// A table of these labels.
fn labels_at(rt: &impl Abort, alloc: Global, places: &[Pos]) -> LabelTable {
    let mut labels = LabelTable::new(alloc);
    for place in places {
        labels.intern(*place).expect(rt, "memory");
    }
    labels
}

// These words of statics.
fn statics_of(rt: &impl Abort, alloc: Global, words: &[u64]) -> Statics {
    let mut statics = Statics::new(alloc);
    statics.words = WordList::from_slice(alloc, words).expect(rt, "memory");
    statics
}

// The code of these items.
fn code_of(rt: &impl Abort, alloc: Global, items: &[RealItem]) -> RealCode
    ensures { result.items ≡ items.now }
{
    let items = RealItems::from_slice(alloc, items).expect(rt, "memory");
    RealCode { items }
}

// The image of these items, with these words of statics and these labels.
fn placed(
    rt: &impl Abort,
    alloc: Global,
    items: &[RealItem],
    words: &[u64],
    places: &[Pos],
) -> Image
    requires { CanBeAssembled items.now }
{
    let code = code_of(rt, alloc, items);
    let statics = statics_of(rt, alloc, words);
    let labels = labels_at(rt, alloc, places);
    assemble(alloc, &code, &statics, &labels).expect(rt, "memory")
}

// Whether two instructions come to the smallest image.
fn two_instructions(rt: &impl Abort, alloc: Global) -> bool {
    let items = [RealItem::Op(set()), RealItem::Op(Inst::Ecall)];
    let image = placed(rt, alloc, &items, &[], &[]);
    are_groups(rt, alloc, image.bytes(), &SMALLEST)
}

#[test]
fn two_instructions_fill_eight_bytes(rt: HostRuntime) {
    assert!(&rt; two_instructions(&rt, rt.alloc()));
}

// Whether one instruction is loaded as these bytes.
fn one_instruction(rt: &impl Abort, alloc: Global, groups: &[u64]) -> bool {
    let image = placed(rt, alloc, &[RealItem::Op(set())], &[], &[]);
    are_groups(rt, alloc, image.loaded(), groups)
}

#[test]
fn an_odd_word_is_followed_by_zeros(rt: HostRuntime) {
    assert!(&rt; one_instruction(&rt, rt.alloc(), &[0x9305_a002_0000_0000]));
}

// Whether an endless jump behind an instruction, with a word of statics, is loaded as these bytes, and the places of
// labels 0 and 1, of which the first is there.
fn endless(
    rt: &impl Abort,
    alloc: Global,
    word: u64,
    label: Pos,
    groups: &[u64],
) -> (bool, [Option<Pos>; 2]) {
    let items = [
        RealItem::Mark(7),
        RealItem::Op(set()),
        RealItem::Jump(Reg::new(0), 7),
    ];
    let image = placed(rt, alloc, &items, &[word], &[label]);
    let told = [image.label(0), image.label(1)];
    (are_groups(rt, alloc, image.loaded(), groups), told)
}

#[test]
fn marks_labels_and_statics(rt: HostRuntime) {
    let label = Pos { line: 3, col: 14 };
    let groups = [0x0102_0304_0506_0708, 0x9305_a002_6ff0_dfff];
    let came_to = endless(&rt, rt.alloc(), 0x0807_0605_0403_0201, label, &groups);
    assert!(rt; came_to == (true, [Some(label), None]));
}
