// Where the items of a code lie.

ghost use Rattle.std.specs.Prelude.{◌≡◌, ◌≤◌, ◌<◌, ◌*◌, ◌^◌, IfOk, length, nat_eq, nat_lt, get_or};
ghost use Rattle.indexmap.specs.IndexMap.{get};
ghost use Rattle.assembler.specs.Layout.{width, distance, mark_place, words_before, is_near};
ghost use Rattle.assembler.specs.Layout.{longest_widths, widths, address_of};
ghost use Rattle.assembler.specs.Expansion.{target_of};
ghost use Rattle.assembler.specs.Tables.{HoldsSums, HoldsPlaces, IsReachOf, IsLayoutOf};

use grift_base::lists::{Items, OutOfMemory};
use indexmap::IndexMap;
use rv_machine::real::RealItem;
use std::alloc::Global;

// What tells which items have their near form: the place of each mark, how many words lie before each place if every
// item has its longest form, and the first address.
#[derive(Drop)]
pub(crate) struct Reach {
    places: IndexMap<u32, u64>,
    widest: Items<u64>,
    start: u64,
}

// Where the items lie: how many words lie before each place, and by what this was chosen.
#[derive(Drop)]
pub(crate) struct Layout {
    reach: Reach,
    before: Items<u64>,
}

// ---- tables

// The place of each mark: the first that it has.
fn mark_places(alloc: Global, items: &[RealItem]) -> Result<IndexMap<u32, u64>, OutOfMemory>
    ensures { IfOk result (λ places. HoldsPlaces items.now (get nat_eq places)) }
{
    let mut places = IndexMap::new(alloc);
    let mut place = items.len();
    while place > 0 {
        place -= 1;
        if let RealItem::Mark(mark) = &items[place] {
            places.insert(*mark, place as u64)?;
        }
    }
    Ok(places)
}

// How many words lie before each place if every item has its longest form.
fn longest_sums(alloc: Global, items: &[RealItem]) -> Result<Items<u64>, OutOfMemory>
    requires few { length items.now ≤ 2 ^ 40 }
    ensures { IfOk result (λ sums. HoldsSums sums (longest_widths items.now)) }
{
    let mut sums = Items::new(alloc);
    let mut before = 0;
    sums.push(before)?;
    for item in items {
        before += width(false, item);
        sums.push(before)?;
    }
    Ok(sums)
}

// How many words lie before each place.
fn chosen_sums(alloc: Global, reach: &Reach, items: &[RealItem]) -> Result<Items<u64>, OutOfMemory>
    requires few { length items.now ≤ 2 ^ 40 }
    requires small { reach.now.start < 2 ^ 61 }
    requires reach { IsReachOf items.now reach.now }
    ensures { IfOk result (λ sums. HoldsSums sums (widths items.now reach.now.start)) }
{
    let mut sums = Items::new(alloc);
    let mut before = 0;
    sums.push(before)?;
    for place in 0..items.len() {
        let item = &items[place];
        before += width(reach.is_near(items, place, item), item);
        sums.push(before)?;
    }
    Ok(sums)
}

// How many words lie before a place.
fn words_before(sums: &Items<u64>, place: usize) -> u64
    requires { place < length sums.now }
    ensures { result ≡ get_or sums.now place 0 }
{
    sums.as_slice()[place]
}

// ---- widths

// How many words an item has in its near form, or else in its longest.
fn width(near: bool, item: &RealItem) -> u64
    ensures value { result ≡ width near item.now }
    ensures small { result ≤ 11 }
{
    match item {
        RealItem::Op(_) => 1,
        RealItem::Mark(_) => 0,
        RealItem::Jump(_, _) => if near { 1 } else { 10 },
        RealItem::Branch(_, _, _, _) => if near { 1 } else { 11 },
        RealItem::Address(_, _) => if near { 3 } else { 10 },
    }
}

// ---- the layout

impl Reach {
    // The reach of a code that begins at this address.
    fn new(alloc: Global, items: &[RealItem], start: u64) -> Result<Reach, OutOfMemory>
        requires few { length items.now ≤ 2 ^ 40 }
        ensures reach { IfOk result (λ reach. IsReachOf items.now reach) }
        ensures start { IfOk result (λ reach. reach.start ≡ start) }
    {
        let places = mark_places(alloc, items)?;
        let widest = longest_sums(alloc, items)?;
        Ok(Reach {
            places,
            widest,
            start,
        })
    }

    // The place of a mark, or that past the last item.
    fn place_of(&self, items: &[RealItem], mark: u32) -> usize
        requires reach { IsReachOf items.now self.now }
        ensures value { result ≡ mark_place mark items.now }
        ensures inside { result ≤ length items.now }
    {
        match self.places.get(&mark) {
            Some(place) => *place as usize,
            None => items.len(),
        }
    }

    // How many words lie before a place if every item has its longest form.
    fn widest_before(&self, items: &[RealItem], place: usize) -> u64
        requires inside { place ≤ length items.now }
        requires reach { IsReachOf items.now self.now }
        ensures value { result ≡ words_before (longest_widths items.now) place }
        ensures small { result ≤ 11 * place }
    {
        words_before(&self.widest, place)
    }

    // Whether fewer than these bytes lie between a place and a mark if every item has its longest form.
    fn is_within(&self, items: &[RealItem], place: usize, mark: u32, bytes: u64) -> bool
        requires few { length items.now ≤ 2 ^ 40 }
        requires inside { place ≤ length items.now }
        requires reach { IsReachOf items.now self.now }
        ensures { let widths = longest_widths items.now in
            let there = words_before widths (mark_place mark items.now) in
            result ≡ nat_lt (4 * distance (words_before widths place) there) bytes }
    {
        let here = self.widest_before(items, place);
        let there = self.widest_before(items, self.place_of(items, mark));
        4 * here.abs_diff(there) < bytes
    }

    // Whether the item at a place has its near form.
    fn is_near(&self, items: &[RealItem], place: usize, item: &RealItem) -> bool
        requires few { length items.now ≤ 2 ^ 40 }
        requires small { self.now.start < 2 ^ 61 }
        requires reach { IsReachOf items.now self.now }
        requires inside { place ≤ length items.now }
        ensures { result ≡ is_near (longest_widths items.now) items.now self.now.start place item.now }
    {
        match item {
            RealItem::Op(_) => true,
            RealItem::Mark(_) => true,
            RealItem::Jump(_, mark) => self.is_within(items, place, *mark, 1_048_576),
            RealItem::Branch(_, _, _, mark) => self.is_within(items, place, *mark, 4096),
            RealItem::Address(_, mark) => self.start
                + 4 * self.widest_before(items, self.place_of(items, *mark))
                < 2_147_483_648,
        }
    }
}

impl Layout {
    // The layout of a code that begins at this address.
    pub(crate) fn new(alloc: Global, items: &[RealItem], start: u64) -> Result<Layout, OutOfMemory>
        requires few { length items.now ≤ 2 ^ 40 }
        requires small { start < 2 ^ 61 }
        ensures lies { IfOk result (λ layout. IsLayoutOf items.now layout) }
        ensures start { IfOk result (λ layout. layout.reach.start ≡ start) }
    {
        let reach = Reach::new(alloc, items, start)?;
        let before = chosen_sums(alloc, &reach, items)?;
        Ok(Layout { reach, before })
    }

    // Whether the item at a place has its near form.
    pub(crate) fn is_near(&self, items: &[RealItem], place: usize, item: &RealItem) -> bool
        requires few { length items.now ≤ 2 ^ 40 }
        requires small { self.now.reach.start < 2 ^ 61 }
        requires lies { IsLayoutOf items.now self.now }
        requires inside { place ≤ length items.now }
        ensures { result ≡ is_near (longest_widths items.now) items.now self.now.reach.start place item.now }
    {
        self.reach.is_near(items, place, item)
    }

    // The address of a place.
    pub(crate) fn address_of(&self, items: &[RealItem], place: usize) -> u64
        requires few { length items.now ≤ 2 ^ 40 }
        requires small { self.now.reach.start < 2 ^ 61 }
        requires lies { IsLayoutOf items.now self.now }
        requires inside { place ≤ length items.now }
        ensures value { result ≡ address_of items.now self.now.reach.start place }
        ensures small { result < 2 ^ 62 }
    {
        self.reach.start + 4 * words_before(&self.before, place)
    }

    // The address of a mark.
    fn address_of_mark(&self, items: &[RealItem], mark: u32) -> u64
        requires few { length items.now ≤ 2 ^ 40 }
        requires small { self.now.reach.start < 2 ^ 61 }
        requires lies { IsLayoutOf items.now self.now }
        ensures value { result ≡ address_of items.now self.now.reach.start (mark_place mark items.now) }
        ensures small { result < 2 ^ 62 }
    {
        self.address_of(items, self.reach.place_of(items, mark))
    }

    // The address that an item names, or 0.
    pub(crate) fn target_of(&self, items: &[RealItem], item: &RealItem) -> u64
        requires few { length items.now ≤ 2 ^ 40 }
        requires small { self.now.reach.start < 2 ^ 61 }
        requires lies { IsLayoutOf items.now self.now }
        ensures value { result ≡ target_of items.now self.now.reach.start item.now }
        ensures small { result < 2 ^ 62 }
    {
        match item {
            RealItem::Op(_) => 0,
            RealItem::Mark(_) => 0,
            RealItem::Jump(_, mark) => self.address_of_mark(items, *mark),
            RealItem::Branch(_, _, _, mark) => self.address_of_mark(items, *mark),
            RealItem::Address(_, mark) => self.address_of_mark(items, *mark),
        }
    }
}
