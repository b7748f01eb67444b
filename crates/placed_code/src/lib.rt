//! Codes with places: real code with slots or registers for virtual ones, when places fit a code, what holds of runs of
//! such code, and what it costs.
//!
//! The definitions stand in `specs`. A function here has an empty body: its contract is a law, proved for all codes.
#![tactic(auto)]

ghost use Rattle.std.specs.Prelude.{◌≡◌, ◌≤◌, ℕ, List};
ghost use Rattle.rv_machine.specs.declared.real.RealItem.{RealItem};
ghost use Rattle.rv_select.specs.declared.code.Place.{Place};
ghost use Rattle.rv_select.specs.declared.code.Place.TheVariants.{Slot};
ghost use Rattle.rv_select.specs.declared.code.VirtualItem.{VirtualItem};
ghost use Rattle.rv_select.specs.declared.code.VirtualItem.TheVariants.{Procedure};
ghost use Rattle.rv_select.specs.Holding.{Sets, IsHolding};
ghost use Rattle.placed_code.specs.Slotted.{EachHasFew};
ghost use Rattle.placed_code.specs.Applied.{applied, slots_of, IsApplied};
ghost use Rattle.placed_code.specs.Check.{HasHolding, AreAllowed, AreLargest, EachFinds, AreNeeded, NeedsAreKept};
ghost use Rattle.placed_code.specs.Check.{IsMaximal, IsGreedy, HasOwn};
ghost use Rattle.std.specs.Prelude.{◌<◌, ◌^◌, length};
ghost use Rattle.rv_select.specs.declared.code.Place.TheVariants.{InReg};
ghost use Rattle.rv_select.specs.Run.{Found, Frame};
ghost use Rattle.rv_select.specs.Stacks.{stack_of};
ghost use Rattle.placed_code.specs.Sized.{stack_by};
ghost use Rattle.placed_code.specs.Slots.{expand};
ghost use Rattle.placed_code.specs.Rename.{densely, name, rename};
ghost use Rattle.placed_code.specs.Prices.{price, OwnsNamed};

/// Where there is a holding, the real code with these places is all that is claimed of it: the machine follows the
/// virtual run.
pub fn code_with_places_follows()
    ensures { (items : List VirtualItem) (place : ℕ → Place) (live : Sets) (code : List RealItem)
        → IsHolding items place live → EachHasFew items → code ≡ applied place items → IsApplied place items code }
{}

/// A holding exists exactly where the largest sets find what is read.
pub fn largest_sets_decide()
    ensures yes { (items : List VirtualItem) (place : ℕ → Place) (held : Sets) → AreAllowed place
        → AreLargest items place held → EachFinds items held → HasHolding items place }
    ensures no { (items : List VirtualItem) (place : ℕ → Place) (held : Sets)
        → AreLargest items place held → HasHolding items place → EachFinds items held }
{}

/// A holding exists exactly where nothing that is needed is changed.
pub fn needs_decide()
    ensures yes { (items : List VirtualItem) (place : ℕ → Place) (needed : Sets) → AreAllowed place
        → AreNeeded items needed → NeedsAreKept items place needed → HasHolding items place }
    ensures no { (items : List VirtualItem) (place : ℕ → Place) (needed : Sets)
        → AreNeeded items needed → HasHolding items place → NeedsAreKept items place needed }
{}

/// A greedy assignment has a holding where slots of their own have one, and where it gives a slot no holding exists
/// with any allowed real register there.
pub fn greedy_is_best_in_each_place()
    ensures maximal { (items : List VirtualItem) (place : ℕ → Place) → IsGreedy items place → IsMaximal items place }
    ensures holds { (items : List VirtualItem) (place : ℕ → Place) (n : ℕ) → IsGreedy items place
        → ((v : ℕ) → n ≤ v → place v ≡ Slot v) → HasHolding items (λ v. Slot v) → HasHolding items place }
{}

/// Where a holding exists, one exists with a slot of its own for each virtual register, whatever its number.
pub fn slots_of_their_own_hold()
    ensures { (items : List VirtualItem) (place other : ℕ → Place) → ((v : ℕ) → HasOwn place v)
        → HasHolding items other → HasHolding items place }
{}

/// An item of a procedure becomes no more real items with places than with a slot for each register, and neither does
/// the entry of one, where its frame is made. The price is how many it becomes.
pub fn places_cost_no_more()
    ensures exact { (out first count : ℕ) (item : VirtualItem)
        → length (expand out first count item) ≡ price first count item }
    ensures less { (place : ℕ → Place) (f : Found) (item : VirtualItem) → AreAllowed place → f.count < 2 ^ 32
        → OwnsNamed f item
        → price f.first ((densely place).slots f.first f.count) (rename (name (densely place) f.first f.count) item)
        ≤ price f.first f.count item }
    ensures enters { (place : ℕ → Place) (f : Found) (k : ℕ) → f.count < 2 ^ 32
        → price f.first f.count (Procedure k f.first ((densely place).slots f.first f.count))
        ≤ price f.first f.count (Procedure k f.first f.count) }
{}

/// Frames with the slots that are left have no more bytes than frames with all registers: so stack lacks only where
/// those wouldn't fit either.
pub fn frames_are_no_larger()
    ensures { (place : ℕ → Place) (found : Found) (fs : List Frame)
        → stack_by (slots_of place) found fs ≤ stack_of found fs }
{}
