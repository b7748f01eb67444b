// The words of an item of code.

ghost use Rattle.std.specs.Prelude.{◌≡◌, ◌++◌, ◌∷◌, [], ◌≤◌, ◌<◌, ◌^◌, true, pos, OnOk};
ghost use Rattle.rv_isa.specs.declared.inst.Inst.TheVariants.{Jalr, Addi, Slli};
ghost use Rattle.rv_machine.specs.Branches.{branch_when};
ghost use Rattle.assembler.specs.Expansion.{offset, opposite, chunk_of, far_insts, near_address_insts, near_item_insts};
ghost use Rattle.assembler.specs.Expansion.{far_item_insts, insts_of};
ghost use Rattle.assembler.specs.Imaging.{inst_words};
ghost use Rattle.assembler.specs.Encoded.{AllDecode};
ghost use Rattle.assembler.specs.Tables.{Fits};

use grift_base::lists::{Items, OutOfMemory};
use machine_words::conditions::Cond;
use rv_isa::inst::{Inst, encode};
use rv_isa::number::{Imm12, Imm13, Imm21, Reg, Shift6, Upper};
use rv_machine::branches::branch;
use rv_machine::real::RealItem;

/// The words of instructions in order.
pub type CodeWords = Items<u32>;

// Adds the words of an item that lies at the address `here` and names the mark with the address `target`.
pub(crate) fn put_item(
    words: &mut CodeWords,
    near: bool,
    here: u64,
    target: u64,
    item: &RealItem,
) -> Result<(), OutOfMemory>
    requires fits { Fits near here target item.now }
    requires below { (here < 2 ^ 62) × (target < 2 ^ 62) }
    ensures words { OnOk result (words.new ≡ words.old ++ inst_words (insts_of near here target item.now)) }
    ensures decode { OnOk result (AllDecode (insts_of near here target item.now)) }
{
    if near {
        put_near(words, here, target, item)
    } else {
        put_far(words, target, item)
    }
}

// Adds the words of an item's near form.
fn put_near(
    words: &mut CodeWords,
    here: u64,
    target: u64,
    item: &RealItem,
) -> Result<(), OutOfMemory>
    requires fits { Fits true here target item.now }
    requires below { (here < 2 ^ 62) × (target < 2 ^ 62) }
    ensures words { OnOk result (words.new ≡ words.old ++ inst_words (near_item_insts here target item.now)) }
    ensures decode { OnOk result (AllDecode (near_item_insts here target item.now)) }
{
    match item {
        RealItem::Op(i) => put_one(words, *i),
        RealItem::Mark(_) => Ok(()),
        RealItem::Jump(rd, _) => put_one(words, Inst::Jal(*rd, Imm21::new(offset(here, target)))),
        RealItem::Branch(cond, rs1, rs2, _) => {
            put_one(
                words,
                branch(*cond, *rs1, *rs2, Imm13::new(offset(here, target))),
            )
        }
        RealItem::Address(rd, _) => put_near_address(words, *rd, target),
    }
}

// Adds the words that put an address below 2,147,483,648 that is even into a register.
fn put_near_address(words: &mut CodeWords, rd: Reg, target: u64) -> Result<(), OutOfMemory>
    requires { target < 2147483648 }
    ensures words { OnOk result (words.new ≡ words.old ++ inst_words (near_address_insts rd target)) }
    ensures decode { OnOk result (AllDecode (near_address_insts rd target)) }
{
    put_all(words, &near_address(rd, target))
}

// Adds the words of an item's far form.
fn put_far(words: &mut CodeWords, target: u64, item: &RealItem) -> Result<(), OutOfMemory>
    ensures words { OnOk result (words.new ≡ words.old ++ inst_words (far_item_insts target item.now)) }
    ensures decode { OnOk result (AllDecode (far_item_insts target item.now)) }
{
    match item {
        RealItem::Op(i) => put_one(words, *i),
        RealItem::Mark(_) => Ok(()),
        RealItem::Jump(rd, _) => put_far_jump(words, *rd, target),
        RealItem::Branch(cond, rs1, rs2, _) => put_far_branch(words, *cond, (*rs1, *rs2), target),
        RealItem::Address(rd, _) => put_far_address(words, *rd, target),
    }
}

// Adds the words of a branch to any address.
fn put_far_branch(
    words: &mut CodeWords,
    cond: Cond,
    operands: (Reg, Reg),
    target: u64,
) -> Result<(), OutOfMemory>
    ensures words { OnOk result (words.new ≡ words.old ++ inst_words (branch_when (opposite cond) operands.0 operands.1
        (pos 44) ∷ far_insts target ++ Jalr 0 31 (pos 0) ∷ [])) }
    ensures decode { OnOk result (AllDecode (branch_when (opposite cond) operands.0 operands.1 (pos 44)
        ∷ far_insts target ++ Jalr 0 31 (pos 0) ∷ [])) }
{
    put_one(
        words,
        branch(opposite(cond), operands.0, operands.1, Imm13::new(44)),
    )?;
    put_far_jump(words, Reg::new(0), target)
}

// Adds the words of a jump to any address.
fn put_far_jump(words: &mut CodeWords, rd: Reg, target: u64) -> Result<(), OutOfMemory>
    ensures words { OnOk result (words.new ≡ words.old ++ inst_words (far_insts target ++ Jalr rd 31 (pos 0) ∷ [])) }
    ensures decode { OnOk result (AllDecode (far_insts target ++ Jalr rd 31 (pos 0) ∷ [])) }
{
    put_scratch(words, target)?;
    put_one(words, Inst::Jalr(rd, scratch(), Imm12::new(0)))
}

// Adds the words that put any address into a register.
fn put_far_address(words: &mut CodeWords, rd: Reg, target: u64) -> Result<(), OutOfMemory>
    ensures words { OnOk result (words.new ≡ words.old ++ inst_words (far_insts target ++ Addi rd 31 (pos 0) ∷ [])) }
    ensures decode { OnOk result (AllDecode (far_insts target ++ Addi rd 31 (pos 0) ∷ [])) }
{
    put_scratch(words, target)?;
    put_one(words, Inst::Addi(rd, scratch(), Imm12::new(0)))
}

// Adds the words that put any word into the scratch register.
fn put_scratch(words: &mut CodeWords, word: u64) -> Result<(), OutOfMemory>
    ensures words { OnOk result (words.new ≡ words.old ++ inst_words (far_insts word)) }
    ensures decode { OnOk result (AllDecode (far_insts word)) }
{
    put_all(words, &far_address(word))
}

// Adds the word of an instruction.
fn put_one(words: &mut CodeWords, i: Inst) -> Result<(), OutOfMemory>
    ensures words { OnOk result (words.new ≡ words.old ++ inst_words (i ∷ [])) }
    ensures decode { OnOk result (AllDecode (i ∷ [])) }
{
    words.push(encode(i))?;
    Ok(())
}

// Adds the words of instructions.
fn put_all(words: &mut CodeWords, insts: &[Inst]) -> Result<(), OutOfMemory>
    ensures words { OnOk result (words.new ≡ words.old ++ inst_words insts.now) }
    ensures decode { OnOk result (AllDecode insts.now) }
{
    for i in insts {
        words.push(encode(*i))?;
    }
    Ok(())
}

// The register that far forms change.
fn scratch() -> Reg
    ensures { result ≡ 31 }
{
    Reg::new(31)
}

// The instructions that put any word into the scratch register.
fn far_address(word: u64) -> [Inst; 9]
    ensures { result ≡ far_insts word }
{
    [
        Inst::Lui(scratch(), Upper::new((word >> 44) as i64)),
        Inst::Srli(scratch(), scratch(), Shift6::new(1)),
        add_chunk(word, 3),
        move_up(),
        add_chunk(word, 2),
        move_up(),
        add_chunk(word, 1),
        move_up(),
        add_chunk(word, 0),
    ]
}

// The instruction that moves what is in the scratch register up by eleven bits.
fn move_up() -> Inst
    ensures { result ≡ Slli 31 31 11 }
{
    Inst::Slli(scratch(), scratch(), Shift6::new(11))
}

// The instruction that adds eleven bits of a word, those from place 11 * k on, to the scratch register.
fn add_chunk(word: u64, k: u32) -> Inst
    requires { k ≤ 3 }
    ensures { result ≡ Addi 31 31 (pos (chunk_of word k)) }
{
    let chunk = (word >> (11 * k)) % 2048;
    Inst::Addi(scratch(), scratch(), Imm12::new(chunk as i64))
}

// The instructions that put an address below 2,147,483,648 that is even into a register.
fn near_address(rd: Reg, word: u64) -> [Inst; 3]
    requires { word < 2147483648 }
    ensures { result ≡ near_address_insts rd word }
{
    let half = Imm12::new((word % 4096 / 2) as i64);
    [
        Inst::Lui(scratch(), Upper::new((word / 4096) as i64)),
        Inst::Addi(scratch(), scratch(), half),
        Inst::Addi(rd, scratch(), half),
    ]
}

// From one address to another.
fn offset(here: u64, target: u64) -> i64
    requires { (here < 2 ^ 62) × (target < 2 ^ 62) }
    ensures { result ≡ offset here target }
{
    target as i64 - here as i64
}

// The condition that holds exactly where this one doesn't.
fn opposite(cond: Cond) -> Cond
    ensures { result ≡ opposite cond }
{
    match cond {
        Cond::Eq => Cond::Ne,
        Cond::Ne => Cond::Eq,
        Cond::Lt => Cond::Ge,
        Cond::Ge => Cond::Lt,
        Cond::Ltu => Cond::Geu,
        Cond::Geu => Cond::Ltu,
    }
}
