// What a card comes to at a time, and what its sort knows of two cards.
ghost use Rattle.std.specs.Prelude.{◌≡◌, ℕ, ◌≤◌};
ghost use Rattle.family.specs.Order.{clamp, fact, FewChanges, NextChange};
ghost use Rattle.family.specs.Amounts.{Amount, WithinSize, by_amount, TurnsAt, Turning};

// Each sort of card gives these itself: they are its mathematics, and what is alike in their impls is only the names.
pub trait PricedCard: Copy {
    // What a card comes to at a time.
    ghost amount: { Amount Self };

    // How often at most, for any two cards, "the first amount is no larger than the second" changes.
    ghost swaps: { ℕ };

    // The amount at t.
    fn amount_at(&self, t: u32) -> i64
        ensures { result ≡ amount self.now (clamp t) };

    // The bound on the swaps.
    fn bound() -> u8
        ensures { result ≡ swaps };

    ghost sized: { WithinSize amount };

    ghost few: { FewChanges swaps (by_amount amount) };

    ghost bounded: { (1 ≤ swaps) × (swaps ≤ 2) };

    // Two cards have a turning time. Which one is told is left open.
    ghost turns: { Turning amount };
}

// A card that finds exchanges by a formula of its own.
pub trait ExchangingCard: PricedCard {
    // The least u with t < u ≤ end at which "this amount is no larger than the other's" differs from
    // what it is at t, or none.
    fn next_exchange(&self, other: &Self, t: u32, end: u32) -> Option<u32>
        ensures { NextChange (fact (by_amount Self.amount) self.now other.now) t end result };
}

// A card that knows where the difference to another may turn.
pub trait TurningCard: PricedCard {
    // A time up to which the difference of the two amounts never falls or never rises, and from which
    // on it again never falls or never rises.
    fn turning(&self, other: &Self) -> u32
        ensures { TurnsAt Self.amount self.now other.now result };
}
