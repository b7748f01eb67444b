// The items of the parts of a code.

ghost use Rattle.std.specs.Prelude.{◌≡◌, ◌+◌, ◌*◌, ◌<◌, ◌≤◌, ◌++◌, ◌∷◌, [], length, OnOk, IfOk};
ghost use Rattle.rv_select.specs.Run.{fits_item};
ghost use Rattle.rv_select.specs.Select.{put_item, source_reg, source_items, args_items, params_items, stores_items};
ghost use Rattle.rv_select.specs.Select.{compute_items, load_items, store_items, build_items, request_items};
ghost use Rattle.rv_select.specs.Select.{take_items, environment_items, call_at_items, branch_items};
ghost use Rattle.rv_select.specs.Select.{tail_call_at_items, out_items, answer_items};

use crate::code::{VReg, VirtualItem, VirtualItems};
use crate::convention::{
    ALLOCATION, ANSWER, CALL_NUMBER, FIRST_ARGUMENT, FIRST_SCRATCH, REGION_END, SECOND_ARGUMENT,
    SECOND_SCRATCH, THIRD_SCRATCH, ZERO,
};
use grift_base::environment::{END_CALL, REGION_OUT_CALL};
use grift_base::lists::OutOfMemory;
use low_ir::code::{LowSource, LowSources, WordOp};
use machine_words::conditions::Cond;
use rv_isa::number::Reg;

/// What comes of putting items behind others: want of memory, or else nothing.
pub type Put = Result<(), OutOfMemory>;

// A real register, by its number.
pub fn real(number: u8) -> VReg
    requires { number < 32 }
    ensures { result ≡ VReg.Real number }
{
    VReg::Real(Reg::new(i64::from(number)))
}

// The register of a procedure's word, told its first register.
pub fn local(first: u32, word: u32) -> Result<VReg, OutOfMemory>
    ensures { IfOk result (λ r. r ≡ VReg.Virtual (first + word)) }
{
    match first.checked_add(word) {
        Some(number) => Ok(VReg::Virtual(number)),
        None => Err(OutOfMemory),
    }
}

// The item that puts a source into a register.
pub fn put_item(first: u32, rd: VReg, a: LowSource) -> Result<VirtualItem, OutOfMemory>
    ensures { IfOk result (λ item. item ≡ put_item first rd a) }
{
    match a {
        LowSource::Word(word) => Ok(VirtualItem::Move(rd, local(first, word)?)),
        LowSource::Number(number) => Ok(VirtualItem::Constant(rd, number)),
    }
}

// The register in which a source is found, told one for numbers.
fn source_reg(first: u32, scratch: u8, a: LowSource) -> Result<VReg, OutOfMemory>
    requires { scratch < 32 }
    ensures { IfOk result (λ r. r ≡ source_reg first scratch a) }
{
    match a {
        LowSource::Word(word) => local(first, word),
        LowSource::Number(number) => Ok(if number == 0 {
            real(ZERO)
        } else {
            real(scratch)
        }),
    }
}

// Adds what puts a source there.
fn put_source(items: &mut VirtualItems, scratch: u8, a: LowSource) -> Put
    requires { scratch < 32 }
    ensures { OnOk result (items.new ≡ items.old ++ source_items scratch a) }
{
    match a {
        LowSource::Word(_) => Ok(()),
        LowSource::Number(number) => {
            if number == 0 {
                Ok(())
            } else {
                items.push(VirtualItem::Constant(real(scratch), number))
            }
        }
    }
}

// Whether a number may stand in an item of an operation.
fn fits_item(op: WordOp, number: u64) -> bool
    ensures { result ≡ fits_item op number }
{
    match op {
        WordOp::Sll | WordOp::Srl | WordOp::Sra => number < 64,
        _ => number < 2048,
    }
}

// Adds an operation.
pub fn put_compute(
    items: &mut VirtualItems,
    first: u32,
    op: WordOp,
    word: u32,
    a: LowSource,
    b: LowSource,
) -> Put
    ensures { OnOk result (items.new ≡ items.old ++ compute_items first op word a b []) }
{
    put_source(items, FIRST_SCRATCH, a)?;
    let rd = local(first, word)?;
    let left = source_reg(first, FIRST_SCRATCH, a)?;
    match b {
        LowSource::Number(number) if fits_item(op, number) => {
            items.push(VirtualItem::ComputeWith(op, rd, left, number as u32))
        }
        _ => {
            put_source(items, SECOND_SCRATCH, b)?;
            items.push(VirtualItem::Compute(op, rd, left, source_reg(first, SECOND_SCRATCH, b)?))
        }
    }
}

// Adds a load.
pub fn put_load(items: &mut VirtualItems, first: u32, word: u32, a: LowSource, offset: u32) -> Put
    ensures { OnOk result (items.new ≡ items.old ++ load_items first word a offset []) }
{
    put_source(items, FIRST_SCRATCH, a)?;
    items.push(VirtualItem::Load(
        local(first, word)?,
        source_reg(first, FIRST_SCRATCH, a)?,
        offset,
    ))
}

// Adds a store of the first source at an address.
pub fn put_store(
    items: &mut VirtualItems,
    first: u32,
    b: LowSource,
    a: LowSource,
    offset: u32,
) -> Put
    ensures { OnOk result (items.new ≡ items.old ++ store_items first b a offset []) }
{
    put_source(items, FIRST_SCRATCH, a)?;
    put_source(items, SECOND_SCRATCH, b)?;
    items.push(VirtualItem::Store(
        source_reg(first, SECOND_SCRATCH, b)?,
        source_reg(first, FIRST_SCRATCH, a)?,
        offset,
    ))
}

// Adds the items that hand words on.
pub fn put_args(items: &mut VirtualItems, first: u32, args: &LowSources) -> Put
    requires { length args.now ≤ 8 }
    ensures { OnOk result (items.new ≡ items.old ++ args_items first 0 args.now) }
{
    let args = args.as_slice();
    for i in 0..args.len() {
        items.push(put_item(first, real(FIRST_ARGUMENT + i as u8), args[i])?)?;
    }
    Ok(())
}

// Adds the mark of a procedure, and the items that put the words that it is handed into its first registers.
pub fn put_head(items: &mut VirtualItems, number: u32, first: u32, words: u32, params: u32) -> Put
    requires { params ≤ 8 }
    ensures { OnOk result (
        items.new ≡ items.old ++ (VirtualItem.Procedure number first words ∷ params_items first 0 params)) }
{
    items.push(VirtualItem::Procedure(number, first, words))?;
    for i in 0..params {
        items.push(VirtualItem::Move(local(first, i)?, real(FIRST_ARGUMENT + i as u8)))?;
    }
    Ok(())
}

// Adds the items that store words behind the allocation word.
fn put_stores(items: &mut VirtualItems, first: u32, args: &LowSources) -> Put
    requires { length args.now < 256 }
    ensures { OnOk result (items.new ≡ items.old ++ stores_items first 0 args.now) }
{
    let args = args.as_slice();
    for i in 0..args.len() {
        put_source(items, FIRST_SCRATCH, args[i])?;
        let word = source_reg(first, FIRST_SCRATCH, args[i])?;
        items.push(VirtualItem::Store(word, real(ALLOCATION), 8 * i as u32))?;
    }
    Ok(())
}

// Adds the items that make an object, told the mark behind which there is no room.
pub fn put_build(
    items: &mut VirtualItems,
    first: u32,
    out: u32,
    word: u32,
    args: &LowSources,
) -> Put
    requires { length args.now < 256 }
    ensures { OnOk result (items.new ≡ items.old ++ build_items first out word args.now []) }
{
    let (free, size) = (real(FIRST_SCRATCH), real(SECOND_SCRATCH));
    let alloc = real(ALLOCATION);
    items.push(VirtualItem::Compute(WordOp::Sub, free, real(REGION_END), alloc))?;
    items.push(VirtualItem::Constant(size, 8 * args.len()))?;
    items.push(VirtualItem::Branch(Cond::Ltu, free, size, out))?;
    put_stores(items, first, args)?;
    items.push(VirtualItem::Move(local(first, word)?, alloc))?;
    items.push(VirtualItem::Compute(WordOp::Add, alloc, alloc, size))
}

// Adds the items that ask for room.
pub fn put_request(items: &mut VirtualItems, first: u32, out: u32, word: u32, a: LowSource) -> Put
    ensures { OnOk result (items.new ≡ items.old ++ request_items first out word a []) }
{
    let free = real(FIRST_SCRATCH);
    let alloc = real(ALLOCATION);
    put_source(items, THIRD_SCRATCH, a)?;
    items.push(VirtualItem::Compute(WordOp::Sub, free, real(REGION_END), alloc))?;
    items.push(VirtualItem::ComputeWith(WordOp::Srl, free, free, 3))?;
    items.push(VirtualItem::Branch(Cond::Ltu, free, source_reg(first, THIRD_SCRATCH, a)?, out))?;
    items.push(VirtualItem::Move(local(first, word)?, alloc))
}

// Adds the items that move the allocation word.
pub fn put_take(items: &mut VirtualItems, first: u32, a: LowSource) -> Put
    ensures { OnOk result (items.new ≡ items.old ++ take_items first a []) }
{
    let bytes = real(FIRST_SCRATCH);
    let alloc = real(ALLOCATION);
    put_source(items, THIRD_SCRATCH, a)?;
    items.push(VirtualItem::ComputeWith(
        WordOp::Sll,
        bytes,
        source_reg(first, THIRD_SCRATCH, a)?,
        3,
    ))?;
    items.push(VirtualItem::Compute(WordOp::Add, alloc, alloc, bytes))
}

// Adds an environment call.
pub fn put_environment(
    items: &mut VirtualItems,
    first: u32,
    number: u64,
    handed: (LowSource, LowSource),
    words: (u32, u32),
) -> Put
    ensures { OnOk result (
        items.new ≡ items.old ++ environment_items first number handed.0 handed.1 words.0 words.1 []) }
{
    let (one, two) = (real(FIRST_ARGUMENT), real(SECOND_ARGUMENT));
    items.push(put_item(first, one, handed.0)?)?;
    items.push(put_item(first, two, handed.1)?)?;
    items.push(VirtualItem::Constant(real(CALL_NUMBER), number))?;
    items.push(VirtualItem::Environment)?;
    items.push(VirtualItem::Move(local(first, words.0)?, one))?;
    items.push(VirtualItem::Move(local(first, words.1)?, two))
}

// Adds a call: what hands words on, the item that calls, and what puts the answer into a word.
pub fn put_call(
    items: &mut VirtualItems,
    first: u32,
    word: u32,
    args: &LowSources,
    call: VirtualItem,
) -> Put
    requires { length args.now ≤ 8 }
    ensures { OnOk result (items.new ≡ items.old ++ args_items first 0 args.now
        ++ call ∷ VirtualItem.Move (VReg.Virtual (first + word)) (VReg.Real ANSWER) ∷ []) }
{
    put_args(items, first, args)?;
    items.push(call)?;
    items.push(VirtualItem::Move(local(first, word)?, real(ANSWER)))
}

// Adds a call of the procedure with a code address.
pub fn put_call_at(
    items: &mut VirtualItems,
    first: u32,
    word: u32,
    at: LowSource,
    args: &LowSources,
) -> Put
    requires { length args.now ≤ 8 }
    ensures { OnOk result (items.new ≡ items.old ++ call_at_items first word at args.now []) }
{
    put_source(items, THIRD_SCRATCH, at)?;
    let from = source_reg(first, THIRD_SCRATCH, at)?;
    put_call(
        items,
        first,
        word,
        args,
        VirtualItem::CallAt(from, args.len() as u32),
    )
}

// Adds a branch to a mark, taken where the condition holds.
pub fn put_branch(
    items: &mut VirtualItems,
    first: u32,
    cond: Cond,
    operands: (LowSource, LowSource),
    mark: u32,
) -> Put
    ensures { OnOk result (items.new ≡ items.old ++ branch_items first cond operands.0 operands.1 mark []) }
{
    let (a, b) = operands;
    put_source(items, FIRST_SCRATCH, a)?;
    put_source(items, SECOND_SCRATCH, b)?;
    let left = source_reg(first, FIRST_SCRATCH, a)?;
    items.push(VirtualItem::Branch(cond, left, source_reg(first, SECOND_SCRATCH, b)?, mark))
}

// Adds the procedure's answer.
pub fn put_return(items: &mut VirtualItems, first: u32, a: LowSource) -> Put
    ensures { OnOk result (
        items.new ≡ items.old ++ (put_item first (VReg.Real ANSWER) a ∷ VirtualItem.Return ∷ [])) }
{
    items.push(put_item(first, real(ANSWER), a)?)?;
    items.push(VirtualItem::Return)
}

// Adds that the procedure with a code address goes on in place of this one.
pub fn put_tail_call_at(
    items: &mut VirtualItems,
    first: u32,
    at: LowSource,
    args: &LowSources,
) -> Put
    requires { length args.now ≤ 8 }
    ensures { OnOk result (items.new ≡ items.old ++ tail_call_at_items first at args.now) }
{
    put_source(items, THIRD_SCRATCH, at)?;
    put_args(items, first, args)?;
    items.push(VirtualItem::TailCallAt(source_reg(first, THIRD_SCRATCH, at)?, args.len() as u32))
}

// Adds the place where a request finds no room.
pub fn put_out(items: &mut VirtualItems, out: u32) -> Put
    ensures { OnOk result (items.new ≡ items.old ++ out_items out) }
{
    items.push(VirtualItem::Mark(out))?;
    items.push(VirtualItem::Constant(real(FIRST_ARGUMENT), 0))?;
    items.push(VirtualItem::Constant(real(SECOND_ARGUMENT), 0))?;
    items.push(VirtualItem::Constant(real(CALL_NUMBER), REGION_OUT_CALL))?;
    items.push(VirtualItem::Environment)?;
    items.push(VirtualItem::Jump(out))
}

// Adds the call of the procedure that the program begins with, and the program's answer.
pub fn put_start(items: &mut VirtualItems, entry: u32) -> Put
    ensures { OnOk result (items.new ≡ items.old ++ (VirtualItem.Call entry 0 ∷ answer_items)) }
{
    items.push(VirtualItem::Call(entry, 0))?;
    items.push(VirtualItem::Move(real(SECOND_ARGUMENT), real(ANSWER)))?;
    items.push(VirtualItem::Constant(real(FIRST_ARGUMENT), 0))?;
    items.push(VirtualItem::Constant(real(CALL_NUMBER), END_CALL))?;
    items.push(VirtualItem::Environment)?;
    items.push(VirtualItem::Return)
}
