// Real items that reach the slots of a frame, make it and give it up.

ghost use Rattle.std.specs.Prelude.{◌≡◌, ◌+◌, ◌*◌, ◌<◌, ◌≤◌, ◌^◌, ◌++◌, ◌∷◌, [], pos, OnOk};
ghost use Rattle.rv_isa.specs.Bits.{IsBelow};
ghost use Rattle.rv_isa.specs.declared.inst.Inst.TheVariants.{Addi, Slli};
ghost use Rattle.rv_machine.specs.declared.real.RealItem.TheVariants.{Op};
ghost use Rattle.std.specs.Prelude.{◌==◌, if◌then◌else◌};
ghost use Rattle.placed_code.specs.Slots.{chunk_of, chunk_items, is_half, upper_of, lower_of, long_items, word_items};
ghost use Rattle.placed_code.specs.Slots.{slot_offset, register_for, slot_fetch, slot_save_of, slot_save};
ghost use Rattle.rv_select.specs.Stacks.{frame_size};
ghost use Rattle.placed_code.specs.Slots.{fetch_items, save_items, constant_items, move_items, raise_items};
ghost use Rattle.placed_code.specs.Slots.{leave_items, enter_items, negated};
ghost use Rattle.placed_code.specs.Slots.{final_items};
ghost use Rattle.rv_select.specs.declared.convention.TheConstants.{FIRST_SPILL};

use grift_base::environment::STACK_OUT_CALL;
use grift_base::lists::OutOfMemory;
use machine_words::conditions::Cond;
use rv_isa::inst::Inst;
use rv_isa::number::{Imm12, Reg, Shift6, Upper};
use rv_machine::real::{RealItem, RealItems};
use rv_select::code::VReg;
use rv_select::convention::{
    ALLOCATION, CALL_NUMBER, FIRST_SPILL, LINK, SECOND_SPILL, STACK_END, STACK_POINTER, ZERO,
};

/// What comes of putting items behind others: want of memory, or else nothing.
pub(crate) type Put = Result<(), OutOfMemory>;

// A register, by its number.
pub(crate) fn register(number: u8) -> Reg
    requires { number < 32 }
    ensures { result ≡ number }
{
    Reg::new(i64::from(number))
}

// Whether a register is that of the allocation word.
fn is_allocation(r: Reg) -> bool
    ensures { result ≡ (r == ALLOCATION) }
{
    r.get() == i64::from(ALLOCATION)
}

// A number from 0 to 2,047.
pub(crate) fn small(number: u64) -> Imm12
    requires { number < 2048 }
    ensures { result ≡ pos number }
{
    Imm12::new(number as i64)
}

// The negative of one.
pub(crate) fn negated(number: u32) -> Imm12
    requires { number < 2048 }
    ensures { result ≡ negated number }
{
    Imm12::new(-i64::from(number))
}

// Adds an item.
pub(crate) fn put_real(items: &mut RealItems, item: RealItem) -> Put
    ensures { OnOk result (items.new ≡ items.old ++ item ∷ []) }
{
    items.extend(&[item])
}

// Adds an instruction.
pub(crate) fn put(items: &mut RealItems, i: Inst) -> Put
    ensures { OnOk result (items.new ≡ items.old ++ Op i ∷ []) }
{
    put_real(items, RealItem::Op(i))
}

// ---- words

// The eleven bits of a word from place 11 * k on.
fn chunk(word: u64, k: u32) -> Imm12
    requires { k ≤ 5 }
    ensures { result ≡ pos (chunk_of word k) }
{
    small((word >> (11 * k)) % 2048)
}

// Adds what moves the word in a register up by eleven bits, and adds these.
fn put_chunk(items: &mut RealItems, rd: Reg, chunk: Imm12) -> Put
    ensures { OnOk result (items.new ≡ items.old ++ Op (Slli rd rd 11) ∷ Op (Addi rd rd chunk) ∷ []) }
{
    put(items, Inst::Slli(rd, rd, Shift6::new(11)))?;
    put(items, Inst::Addi(rd, rd, chunk))
}

// Whether a word is a number from -2^31 to 2^31 - 1.
fn is_half(word: u64) -> bool
    ensures { result ≡ is_half word }
{
    word < 0x8000_0000 || word >= 0xFFFF_FFFF_8000_0000
}

// Its upper twenty bits, if the lower twelve are added as a signed number.
fn upper(word: u64) -> Upper
    ensures { result ≡ upper_of word }
{
    let more = if word % 4096 < 2048 { 0 } else { 1 };
    let upper = (word / 4096 + more) % 1048576;
    Upper::new(upper as i64)
}

// Its lower twelve bits.
fn lower(word: u64) -> Imm12
    ensures { result ≡ lower_of word }
{
    let bits = (word % 4096) as i64;
    if bits < 2048 {
        Imm12::new(bits)
    } else {
        Imm12::new(bits - 4096)
    }
}

// Adds what puts a word into a register eleven bits at a time.
fn put_chunks(items: &mut RealItems, rd: Reg, word: u64) -> Put
    ensures { OnOk result (items.new ≡ items.old ++ Op (Addi rd 0 (pos (chunk_of word 5))) ∷ chunk_items rd word 5) }
{
    put(items, Inst::Addi(rd, register(ZERO), chunk(word, 5)))?;
    let mut k = 5;
    while k > 0 {
        k -= 1;
        put_chunk(items, rd, chunk(word, k))?;
    }
    Ok(())
}

// Adds what puts a word into a register, where it isn't below 2048.
fn put_long(items: &mut RealItems, rd: Reg, word: u64) -> Put
    ensures { OnOk result (items.new ≡ items.old ++ long_items rd word) }
{
    if is_half(word) {
        put(items, Inst::Lui(rd, upper(word)))?;
        put(items, Inst::Addiw(rd, rd, lower(word)))
    } else {
        put_chunks(items, rd, word)
    }
}

// Adds what puts a word into a register.
pub(crate) fn put_word(items: &mut RealItems, rd: Reg, word: u64) -> Put
    ensures { OnOk result (items.new ≡ items.old ++ word_items rd word) }
{
    if word < 2048 {
        return put(items, Inst::Addi(rd, register(ZERO), small(word)));
    }
    put_long(items, rd, word)
}

// ---- slots

// Where the slot of a virtual register lies above x2, told the first register of the procedure.
fn slot_offset(first: u32, number: u32) -> u64
    ensures value { result ≡ slot_offset first number }
    ensures below { result < 2 ^ 36 }
{
    8 * (1 + u64::from(number.saturating_sub(first)))
}

// The bytes of a frame with so many slots.
fn frame_size(count: u32) -> u64
    ensures { result ≡ frame_size count }
{
    8 * (1 + u64::from(count))
}

// The real register in which a word is found, or put.
pub(crate) fn register_for(scratch: u8, a: &VReg) -> Reg
    requires { scratch < 32 }
    ensures { result ≡ register_for scratch a.now }
{
    match a {
        VReg::Real(r) => *r,
        VReg::Virtual(_) => register(scratch),
    }
}

// Adds what loads a register from the slot at an offset.
fn put_slot_fetch(items: &mut RealItems, rd: Reg, offset: u64) -> Put
    ensures { OnOk result (items.new ≡ items.old ++ slot_fetch rd offset) }
{
    if offset < 2048 {
        return put(items, Inst::Ld(rd, register(STACK_POINTER), small(offset)));
    }
    put_word(items, rd, offset)?;
    put(items, Inst::Add(rd, rd, register(STACK_POINTER)))?;
    put(items, Inst::Ld(rd, rd, small(0)))
}

// Adds what stores a register in the slot at an offset.
fn put_slot_save_of(items: &mut RealItems, word: Reg, offset: u64) -> Put
    ensures { OnOk result (items.new ≡ items.old ++ slot_save_of word offset) }
{
    if offset < 2048 {
        return put(
            items,
            Inst::Sd(word, register(STACK_POINTER), small(offset)),
        );
    }
    let place = register(SECOND_SPILL);
    put_word(items, place, offset)?;
    put(items, Inst::Add(place, place, register(STACK_POINTER)))?;
    put(items, Inst::Sd(word, place, small(0)))
}

// Adds what stores x28 there.
fn put_slot_save(items: &mut RealItems, offset: u64) -> Put
    ensures { OnOk result (items.new ≡ items.old ++ slot_save offset) }
{
    put_slot_save_of(items, register(FIRST_SPILL), offset)
}

// Adds what loads a virtual register into a real one.
pub(crate) fn put_fetch(items: &mut RealItems, first: u32, scratch: u8, a: &VReg) -> Put
    requires { scratch < 32 }
    ensures { OnOk result (items.new ≡ items.old ++ fetch_items first scratch a.now) }
{
    match a {
        VReg::Real(_) => Ok(()),
        VReg::Virtual(number) => put_slot_fetch(
            items,
            register(scratch),
            slot_offset(first, *number),
        ),
    }
}

// Adds what stores a virtual register that was put into x28.
pub(crate) fn put_save(items: &mut RealItems, first: u32, rd: &VReg) -> Put
    ensures { OnOk result (items.new ≡ items.old ++ save_items first rd.now) }
{
    match rd {
        VReg::Real(_) => Ok(()),
        VReg::Virtual(number) => put_slot_save(items, slot_offset(first, *number)),
    }
}

// Adds what puts a number into a slot.
fn put_in_slot(items: &mut RealItems, offset: u64, word: u64) -> Put
    ensures { OnOk result (items.new ≡ items.old ++ (word_items FIRST_SPILL word ++ slot_save offset)) }
{
    put_word(items, register(FIRST_SPILL), word)?;
    put_slot_save(items, offset)
}

// Adds what puts a number where it belongs.
pub(crate) fn put_constant(items: &mut RealItems, first: u32, rd: &VReg, word: u64) -> Put
    ensures { OnOk result (items.new ≡ items.old ++ constant_items first rd.now word) }
{
    match rd {
        VReg::Real(r) => {
            if is_allocation(*r) {
                put_word(items, register(FIRST_SPILL), word)?;
                put(items, Inst::Addi(*r, register(FIRST_SPILL), small(0)))
            } else {
                put_word(items, *r, word)
            }
        }
        VReg::Virtual(number) => put_in_slot(items, slot_offset(first, *number), word),
    }
}

// Adds what moves a word from a slot into a real register.
fn put_from_slot(items: &mut RealItems, r: Reg, offset: u64) -> Put
    ensures { OnOk result (items.new ≡ items.old
        ++ (if r == ALLOCATION then slot_fetch FIRST_SPILL offset ++ (Op (Addi r FIRST_SPILL (pos 0)) ∷ [])
        else slot_fetch r offset)) }
{
    if is_allocation(r) {
        put_slot_fetch(items, register(FIRST_SPILL), offset)?;
        put(items, Inst::Addi(r, register(FIRST_SPILL), small(0)))
    } else {
        put_slot_fetch(items, r, offset)
    }
}

// Adds what loads x28 from the slot of a virtual register.
fn put_first_fetch(items: &mut RealItems, first: u32, number: u32) -> Put
    ensures { OnOk result (items.new ≡ items.old ++ slot_fetch FIRST_SPILL (slot_offset first number)) }
{
    put_slot_fetch(items, register(FIRST_SPILL), slot_offset(first, number))
}

// Adds what stores x28 there.
fn put_first_save(items: &mut RealItems, first: u32, number: u32) -> Put
    ensures { OnOk result (items.new ≡ items.old ++ slot_save (slot_offset first number)) }
{
    put_slot_save(items, slot_offset(first, number))
}

// Adds what moves a word from a slot to another.
fn put_across(items: &mut RealItems, first: u32, from: u32, to: u32) -> Put
    ensures { OnOk result (items.new ≡ items.old
        ++ (slot_fetch FIRST_SPILL (slot_offset first from) ++ slot_save (slot_offset first to))) }
{
    put_first_fetch(items, first, from)?;
    put_first_save(items, first, to)
}

// Adds what moves a word into a real register.
fn put_to_real(items: &mut RealItems, first: u32, r: Reg, a: &VReg) -> Put
    ensures { OnOk result (items.new ≡ items.old ++ move_items first (VReg.Real r) a.now) }
{
    match a {
        VReg::Real(q) => {
            if r.get() == q.get() {
                Ok(())
            } else {
                put(items, Inst::Addi(r, *q, small(0)))
            }
        }
        VReg::Virtual(v) => put_from_slot(items, r, slot_offset(first, *v)),
    }
}

// Adds what moves a word into a slot.
fn put_to_slot(items: &mut RealItems, first: u32, number: u32, a: &VReg) -> Put
    ensures { OnOk result (items.new ≡ items.old ++ move_items first (VReg.Virtual number) a.now) }
{
    match a {
        VReg::Real(q) => put_slot_save_of(items, *q, slot_offset(first, number)),
        VReg::Virtual(from) => put_across(items, first, *from, number),
    }
}

// Adds what moves a word.
pub(crate) fn put_move(items: &mut RealItems, first: u32, rd: &VReg, a: &VReg) -> Put
    ensures { OnOk result (items.new ≡ items.old ++ move_items first rd.now a.now) }
{
    match rd {
        VReg::Real(r) => put_to_real(items, first, *r, a),
        VReg::Virtual(number) => put_to_slot(items, first, *number, a),
    }
}

// ---- frames

// Adds what makes a frame with so many slots, told the mark behind which the stack lacks room.
pub(crate) fn put_enter(items: &mut RealItems, out: u32, count: u32) -> Put
    ensures { OnOk result (items.new ≡ items.old ++ enter_items out count) }
{
    let size = register(FIRST_SPILL);
    let free = register(SECOND_SPILL);
    let stack = register(STACK_POINTER);
    put_word(items, size, frame_size(count))?;
    put(items, Inst::Sub(free, stack, register(STACK_END)))?;
    put_real(items, RealItem::Branch(Cond::Ltu, free, size, out))?;
    put(items, Inst::Sub(stack, stack, size))?;
    put(items, Inst::Sd(register(LINK), stack, small(0)))
}

// Adds what raises x2 by so many bytes.
fn put_raise(items: &mut RealItems, bytes: u64) -> Put
    ensures { OnOk result (items.new ≡ items.old ++ raise_items bytes) }
{
    let size = register(FIRST_SPILL);
    let stack = register(STACK_POINTER);
    if bytes < 2048 {
        return put(items, Inst::Addi(stack, stack, small(bytes)));
    }
    put_word(items, size, bytes)?;
    put(items, Inst::Add(stack, stack, size))
}

// Adds what loads the link and gives up a frame with so many slots.
pub(crate) fn put_leave(items: &mut RealItems, count: u32) -> Put
    ensures { OnOk result (items.new ≡ items.old ++ leave_items count) }
{
    put(
        items,
        Inst::Ld(register(LINK), register(STACK_POINTER), small(0)),
    )?;
    put_raise(items, frame_size(count))
}

// Adds what stops the machine where the stack lacks room.
pub(crate) fn put_final(items: &mut RealItems, out: u32) -> Put
    ensures { OnOk result (items.new ≡ items.old ++ final_items out) }
{
    put_real(items, RealItem::Mark(out))?;
    put(
        items,
        Inst::Addi(register(CALL_NUMBER), register(ZERO), small(STACK_OUT_CALL)),
    )?;
    put(items, Inst::Ecall)?;
    put(items, Inst::Ebreak)
}
