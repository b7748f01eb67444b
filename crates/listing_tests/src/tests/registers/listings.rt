// Loads and stores in the listing of a program whose words live in registers, and in one where each has a slot.

ghost use Rattle.std.specs.Prelude.{◌≡◌, true};
ghost use Rattle.rv_select.specs.Fitting.{each_fits};
ghost use Rattle.rv_select.specs.WellFormed.{IsWellFormed};
ghost use Rattle.rv_select.specs.declared.code.Place.TheVariants.{Slot};
ghost use Rattle.placed_code.specs.Check.{HasHolding};

use assembler::assembly::assemble;
use assembler::image::Image;
use compile_driver::compiling::{compile, words_of};
use grift_base::places::LabelTable;
use listing::code::code_text;
use low_ir::programs::LowProgram;
use reg_assign::apply::apply;
use reg_assign::assign::assign;
use reg_assign::assignment::{Assignment, Places};
use reg_assign::check::check;
use rv_select::code::{Place, VirtualCode};
use rv_select::selection::select;
use std::alloc::Global;
use std::process::Abort;

// The numbers of Fibonacci.
const SOURCE: &[u8] = b"(define (fib n) (if (< n 2) n (+ (fib (- n 1)) (fib (- n 2))))) (fib 15)";

// The code that is selected for the source, and the words that stand before it.
#[derive(Drop)]
struct Selected {
    low: LowProgram,
    code: VirtualCode,
}

// The program over words of the source.
fn words(rt: &impl Abort, alloc: Global) -> LowProgram {
    match words_of(alloc, SOURCE) {
        Ok(low) => low,
        Err(_) => panic!(rt; "the source is refused"),
    }
}

fn select_source(rt: &impl Abort, alloc: Global) -> Selected
    ensures fits { each_fits result.code.items ≡ true }
    ensures formed { IsWellFormed result.code.items }
    ensures holds { HasHolding result.code.items Slot }
{
    let low = words(rt, alloc);
    assert!(rt; low.is_closed(), "the program is not closed");
    let code = select(alloc, &low).expect(rt, "memory");
    Selected { low, code }
}

// A slot of its own for each of so many registers.
fn own_slots(rt: &impl Abort, alloc: Global, registers: u32) -> Assignment {
    let mut places = Places::new(alloc);
    for number in 0..registers {
        places.push(Place::Slot(number)).expect(rt, "memory");
    }
    Assignment { places }
}

// How many lines of a listing load or store.
fn loads_and_stores(text: &[u8]) -> u64 {
    let mut lines = 0u64;
    for four in text.windows(4) {
        if four == b" ld ".as_slice() || four == b" sd ".as_slice() {
            lines = lines.saturating_add(1);
        }
    }
    lines
}

// How many lines of an image's listing do.
fn lines_of(rt: &impl Abort, alloc: Global, image: &Image) -> u64 {
    let text = code_text(alloc, image).expect(rt, "memory");
    loads_and_stores(text.as_slice())
}

// The image of that code with these places, which have to fit.
fn image_with(rt: &impl Abort, alloc: Global, selected: &Selected, places: &Assignment) -> Image
    requires fits { each_fits selected.now.code.items ≡ true }
    requires formed { IsWellFormed selected.now.code.items }
{
    let fit = check(alloc, &selected.code, places).expect(rt, "memory");
    assert!(rt; fit, "the places do not fit");
    let code = apply(alloc, &selected.code, places).expect(rt, "memory");
    let image = assemble(alloc, &code, &selected.low.statics, &LabelTable::new(alloc));
    image.expect(rt, "memory")
}

// How many lines of the listing of that code with these places, which have to fit, load or store.
fn lines_with(rt: &impl Abort, alloc: Global, selected: &Selected, places: &Assignment) -> u64
    requires fits { each_fits selected.now.code.items ≡ true }
    requires formed { IsWellFormed selected.now.code.items }
{
    let image = image_with(rt, alloc, selected, places);
    lines_of(rt, alloc, &image)
}

// The same with a slot for each register.
fn lines_with_slots(rt: &impl Abort, alloc: Global, selected: &Selected) -> u64
    requires fits { each_fits selected.now.code.items ≡ true }
    requires formed { IsWellFormed selected.now.code.items }
{
    let places = own_slots(rt, alloc, selected.code.registers);
    lines_with(rt, alloc, selected, &places)
}

// The same with places as `assign` gives them.
fn lines_with_registers(rt: &impl Abort, alloc: Global, selected: &Selected) -> u64
    requires fits { each_fits selected.now.code.items ≡ true }
    requires formed { IsWellFormed selected.now.code.items }
    requires holds { HasHolding selected.now.code.items Slot }
{
    let places = assign(alloc, &selected.code).expect(rt, "memory");
    lines_with(rt, alloc, selected, &places)
}

// How many lines it is with slots, and with registers.
fn lines_of_both(rt: &impl Abort, alloc: Global) -> (u64, u64) {
    let selected = select_source(rt, alloc);
    let slots = lines_with_slots(rt, alloc, &selected);
    (slots, lines_with_registers(rt, alloc, &selected))
}

// How many lines of the listing of the source's image do.
fn lines_put(rt: &impl Abort, alloc: Global) -> u64 {
    match compile(alloc, SOURCE) {
        Ok(compiled) => lines_of(rt, alloc, &compiled.image),
        Err(_) => panic!(rt; "the source is refused"),
    }
}

// Places as `assign` gives them fit, and so does a slot for each register; the image that is compiled has the former.
#[test]
fn a_listing_with_real_registers_has_fewer_loads_and_stores(rt: HostRuntime) {
    let (slots, registers) = lines_of_both(&rt, rt.alloc());
    assert!(&rt; registers < slots);
    assert!(&rt; lines_put(&rt, rt.alloc()) == registers);
}
