// Where the virtual registers of a code are kept.

ghost use Rattle.std.specs.Prelude.{◌≡◌};
ghost use Rattle.placed_code.specs.Places.{place_in};

use grift_base::lists::Items;
use rv_select::code::Place;

/// Places in order.
pub type Places = Items<Place>;

/// The place of each virtual register of a code, in the order of their numbers.
#[derive(Drop)]
pub struct Assignment {
    pub places: Places,
}

// The place of a virtual register.
pub(crate) fn place_at(places: &[Place], number: u32) -> Place
    ensures { result ≡ place_in places.now number }
{
    match places.get(number as usize) {
        Some(place) => *place,
        None => Place::Slot(number),
    }
}
