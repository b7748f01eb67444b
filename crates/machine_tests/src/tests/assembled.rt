// A code whose branches, jumps and addresses name marks on either side of fillers, and what it comes to as an image
// that the assembler made.

ghost use Rattle.std.specs.Prelude.{◌≡◌, ◌++◌, ◌<◌, pos, replicate, IfOk, OnOk};
ghost use Rattle.rv_isa.specs.Bits.{IsIn};
ghost use Rattle.rv_isa.specs.declared.inst.Inst.TheVariants.{Addi, Jalr};
ghost use Rattle.rv_machine.specs.declared.real.RealItem.TheVariants.{Op, Branch};
ghost use Rattle.assembler.specs.Conditions.{CanBeAssembled};

use crate::tests::machines::{ended, machine_of};
use assembler::assembly::assemble;
use assembler::image::Image;
use grift_base::lists::OutOfMemory;
use grift_base::places::LabelTable;
use grift_base::verdicts::AnswerKind;
use grift_base::words::Statics;
use machine_words::conditions::Cond;
use rv_emulator::stops::Stop;
use rv_isa::inst::Inst;
use rv_isa::number::{Imm12, Reg};
use rv_machine::real::{RealCode, RealItem, RealItems};
use std::alloc::Global;
use std::process::Abort;

// The register with this number.
fn register(number: u8) -> Reg
    requires { number < 32 }
    ensures { result ≡ number }
{
    Reg::new(i64::from(number))
}

// Adds a number to x11.
fn add(number: i64) -> Inst
    requires { IsIn 2048 number }
    ensures { result ≡ Addi 11 11 number }
{
    Inst::Addi(register(11), register(11), Imm12::new(number))
}

// Goes to the address in a register, and keeps that of the next item in another.
fn go(link: u8, from: u8) -> Inst
    requires link { link < 32 }
    requires from { from < 32 }
    ensures { result ≡ Jalr link from (pos 0) }
{
    Inst::Jalr(register(link), register(from), Imm12::new(0))
}

// A branch by x0 and x0.
fn branch(cond: Cond, mark: u32) -> RealItem
    ensures { result ≡ Branch cond 0 0 mark }
{
    RealItem::Branch(cond, register(0), register(0), mark)
}

// Adds fillers, which no step may reach.
fn put_fillers(items: &mut RealItems, fillers: u64) -> Result<(), OutOfMemory>
    ensures { OnOk result (items.new ≡ items.old ++ replicate fillers (Op (Addi 11 11 (pos 100)))) }
{
    for _ in 0..fillers {
        items.push(RealItem::Op(add(100)))?;
    }
    Ok(())
}

// Three branches aren't taken. Mark 0, behind the fillers, is then reached by two branches, by a jump and by its
// address, with the way back in x5. Each time mark 1, before the fillers, is reached from there by a branch, by a jump
// and by its address, with the way back in x6. This adds 1 + 3 * 20 + 3 to x11.
fn across(alloc: Global, fillers: u64) -> Result<RealCode, OutOfMemory>
    ensures { IfOk result (λ code. CanBeAssembled code.items) }
{
    let mut items = RealItems::from_slice(
        alloc,
        &[
            branch(Cond::Ne, 0),
            branch(Cond::Lt, 0),
            branch(Cond::Ltu, 0),
            RealItem::Address(register(5), 2),
            branch(Cond::Eq, 0),
            RealItem::Mark(2),
            RealItem::Address(register(5), 3),
            branch(Cond::Ge, 0),
            RealItem::Mark(3),
            RealItem::Jump(register(5), 0),
            RealItem::Address(register(7), 0),
            RealItem::Op(go(5, 7)),
            RealItem::Op(Inst::Ecall),
            RealItem::Mark(1),
            RealItem::Op(add(20)),
            RealItem::Op(go(0, 6)),
        ],
    )?;
    put_fillers(&mut items, fillers)?;
    items.extend(&[
        RealItem::Mark(0),
        RealItem::Op(add(1)),
        RealItem::Address(register(6), 4),
        branch(Cond::Geu, 1),
        RealItem::Mark(4),
        RealItem::Jump(register(6), 1),
        RealItem::Address(register(7), 1),
        RealItem::Op(go(6, 7)),
        RealItem::Op(add(3)),
        RealItem::Op(go(0, 5)),
    ])?;
    Ok(RealCode { items })
}

// The image of this code.
fn image_across(rt: &impl Abort, alloc: Global, fillers: u64) -> Image {
    let code = across(alloc, fillers).expect(rt, "memory");
    let image = assemble(alloc, &code, &Statics::new(alloc), &LabelTable::new(alloc));
    image.expect(rt, "memory")
}

// How many bytes of code there are with these many fillers, and what they come to within 1,000 steps.
fn comes_to(rt: &impl Abort, alloc: Global, fillers: u64) -> (u64, Stop) {
    let image = image_across(rt, alloc, fillers);
    let mut machine = machine_of(rt, alloc, &image, 16, 16);
    (image.code_len(), machine.run(1000))
}

// Numbers of fillers, and how many bytes of code there are then. The first of the branches is far from 925 fillers on,
// the last from 1,011 on: each has ten words more then. From 262,120 fillers on both jumps are far, with nine words
// more each.
const LENGTHS: &[(u64, u64)] = &[
    (0, 128),
    (924, 3824),
    (925, 3864),
    (1010, 4368),
    (1011, 4408),
    (262_119, 1_048_840),
    (262_120, 1_048_920),
];

// Each code is as long as its row says, and comes to 256.
fn come_to(rt: &impl Abort, alloc: Global, rows: &[(u64, u64)]) {
    for (fillers, code_len) in rows {
        assert!(rt;
            comes_to(rt, alloc, *fillers) == (*code_len, ended(AnswerKind::Int, 256)),
            "{fillers}"
        );
    }
}

#[test]
fn marks_are_near_and_far(rt: HostRuntime) {
    come_to(&rt, rt.alloc(), LENGTHS);
}
