// A family: cards in slots, and their order at each time.
ghost use Rattle.std.specs.Prelude.{◌≡◌, ℕ, ◌≤◌};
ghost use Rattle.family.specs.Order.{Order, TotalPreorder, FewChanges, NextChange};
ghost use Rattle.family.specs.Slots.{slot_before};

use crate::card_slots::CardSlots;

// A new family has to give its slot map, its order and its swap bound as ghost members, prove the laws of
// them, and write the six functions of this trait and of `CardSlots` against their contracts.
pub trait Family: CardSlots {
    // Whether the first card is at or before the second at a time.
    ghost before: { Self → Order Self.Card };

    // The swap bound s.
    ghost swaps: { Self → ℕ };

    // Whether slot i is at or before slot j at t: true if slot j is empty, or if both are filled and
    // the cards are so.
    fn compare(&self, i: u8, j: u8, t: u32) -> bool
        ensures { result ≡ slot_before (before self.now) (Self.slots self.now) i j t };

    // The least u with t < u ≤ end at which "slot i is at or before slot j" differs from what it is at
    // t, or none.
    fn next_exchange(&self, i: u8, j: u8, t: u32, end: u32) -> Option<u32>
        ensures { NextChange (slot_before (before self.now) (Self.slots self.now) i j) t end result };

    // The swap bound.
    fn bound(&self) -> u8
        ensures { result ≡ swaps self.now };

    // The first law.
    ghost ordered: { (f : Self) → TotalPreorder (before f) };

    // The second law, and that its bound is 1 or 2.
    ghost few: { (f : Self) → FewChanges (swaps f) (before f) };

    ghost bounded: { (f : Self) → (1 ≤ swaps f) × (swaps f ≤ 2) };

    // Whichever cards are held, the order is the same, and so is the bound: put and lift change neither.
    ghost order_stays: { (f g : Self) → Self.alike f g → before f ≡ before g };

    ghost bound_stays: { (f g : Self) → Self.alike f g → swaps f ≡ swaps g };
}
