// Amounts: what the cards in the slots come to at each time.
ghost use Rattle.std.specs.Prelude.{◌≡◌};
ghost use Rattle.family.specs.Slots.{slot_before};
ghost use Rattle.family.specs.Amounts.{Amount, WithinSize, OrderedBy, amount_of, by_amount, RunAnswer, TurnsAt, Turning};

use crate::card_slots::CardSlots;
use crate::family::Family;
use crate::refusal::Refusal;

// Cards that each come to an amount at each time.
pub trait Priced: CardSlots {
    // What a card comes to at a time.
    ghost amount: { Self → Amount Self.Card };

    // The slot's amount at t, or none for an empty slot.
    fn amount_at(&self, slot: u8, t: u32) -> Option<i64>
        ensures { result ≡ amount_of (amount self.now) (Self.slots self.now slot) t };

    // A run of amounts: puts the slot's amount at first + k into cell k. Refused, in this order, where
    // it would pass the last time (1) and for an empty slot (22); a refused run leaves every cell.
    fn amounts(&self, slot: u8, first: u32, cells: &mut [i64]) -> Result<(), Refusal>
        ensures { RunAnswer (amount self.now) (Self.slots self.now slot) first cells.old result cells.new };

    // No amount is larger than amounts may be.
    ghost sized: { (f : Self) → WithinSize (amount f) };

    // Whether slot i is at or before slot j at t in the order of the amounts, in which an empty slot comes
    // last.
    final fn in_order(&self, i: u8, j: u8, t: u32) -> bool
        ensures { result ≡ slot_before (by_amount (amount self.now)) (Self.slots self.now) i j t }
    {
        // Measured: a match on the two amounts takes twice the time and more where an `if` asks for the answer.
        self.amount_at(j, t)
            .is_none_or(|y| self.amount_at(i, t).is_some_and(|x| x <= y))
    }
}

// A family whose order comes from its amounts: c is at or before d exactly when c's amount is no larger.
// What never changes is the order; an amount may depend on the family's value.
pub trait PricedFamily: Family + Priced {
    ghost orders: { (f : Self) → OrderedBy (Self.before f) (Self.amount f) };
}

// Cards of which any two have a known time at which the difference of their amounts may turn: up to it the
// difference never falls or never rises, and so again from it on. Exchanges can then be found by bisection,
// with no formula for the amounts.
pub trait TurningFamily: Priced {
    // A turning time of two cards.
    fn turning(&self, c: Self::Card, d: Self::Card) -> u32
        ensures { TurnsAt (Self.amount self.now) c d result };

    // A turning time exists; which one is told is left open.
    ghost turns: { (f : Self) → Turning (Self.amount f) };

    // Whichever cards are held, a card's amount is the same.
    ghost amount_stays: { (f g : Self) → Self.alike f g → Self.amount f ≡ Self.amount g };
}
