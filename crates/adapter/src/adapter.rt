// The adapter as a family and as a priced family.
ghost use Rattle.family.specs.Amounts.{by_amount};
ghost use Rattle.family.proofs.Steady.{few_if_turning};
ghost use Rattle.std.proofs.Common.{rules};

use crate::halving::next_change;
use family::{CardSlots, Family, Priced, PricedFamily, Refusal, Span, TurningFamily};

// The priced family of a turning family, with the cards that are in it.
#[derive(Drop)]
pub struct Adapter<T>(pub T);

// Handed down here as in each layer: one impl over a trait that lends what is below was tried, and each layer then
// needs as many lines.
impl<T: CardSlots> CardSlots for Adapter<T> {
    type Card = T::Card;

    ghost slots = { λ f. T.slots f.0 };

    ghost alike = { λ f g. T.alike f.0 g.0 };

    fn put(&mut self, slot: u8, card: T::Card) -> Result<(), Refusal> {
        self.0.put(slot, card)
    }

    fn lift(&mut self, slot: u8) -> Result<(), Refusal> {
        self.0.lift(slot)
    }

    fn card(&self, slot: u8) -> Option<T::Card> {
        self.0.card(slot)
    }
}

impl<T: TurningFamily> Family for Adapter<T> {
    ghost before = { λ f. by_amount (T.amount f.0) };

    ghost swaps = { λ _. 2 };

    ghost ordered = { Prim.search rules };

    ghost few = { λ f. few_if_turning (T.amount f.0) (T.turns f.0) };

    ghost bounded = { Prim.search rules };

    ghost order_stays = { Prim.search rules };

    ghost bound_stays = { Prim.search rules };

    fn compare(&self, i: u8, j: u8, t: u32) -> bool {
        self.0.in_order(i, j, t)
    }

    // Whether slot i is at or before slot j changes at most once on each side of their cards' turning time.
    fn next_exchange(&self, i: u8, j: u8, t: u32, end: u32) -> Option<u32> {
        let c = self.0.card(i)?;
        let d = self.0.card(j)?;
        let turning = self.0.turning(c, d);
        next_change(|u| self.0.in_order(i, j, u), turning, Span::new(t, end))
    }

    fn bound(&self) -> u8 {
        2
    }
}

impl<T: Priced> Priced for Adapter<T> {
    ghost amount = { λ f. T.amount f.0 };

    ghost sized = { Prim.search rules };

    fn amount_at(&self, slot: u8, t: u32) -> Option<i64> {
        self.0.amount_at(slot, t)
    }

    fn amounts(&self, slot: u8, first: u32, cells: &mut [i64]) -> Result<(), Refusal> {
        self.0.amounts(slot, first, cells)
    }
}

impl<T: TurningFamily> PricedFamily for Adapter<T> {
    ghost orders = { Prim.search rules };
}
