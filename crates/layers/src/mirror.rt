// Mirror: the order of the family below, turned round. In it c is at or before d exactly when below it d
// is at or before c, and amounts are negated; so the leading hopper of a mirror is the fullest.
ghost use Rattle.layers.specs.Mirrored.{turned, negated};
ghost use Rattle.std.proofs.Common.{rules};

use crate::negate::negate;
use family::{CardSlots, Family, Priced, PricedFamily, Refusal};

// The mirror of a family, with the cards that are in it.
#[derive(Drop)]
pub struct Mirror<F>(pub F);

// Handed down here as in each layer: one impl over a trait that lends what is below was tried, and each layer then
// needs as many lines.
impl<F: CardSlots> CardSlots for Mirror<F> {
    type Card = F::Card;

    ghost slots = { λ m. F.slots m.0 };

    ghost alike = { λ m n. F.alike m.0 n.0 };

    fn put(&mut self, slot: u8, card: F::Card) -> Result<(), Refusal> {
        self.0.put(slot, card)
    }

    fn lift(&mut self, slot: u8) -> Result<(), Refusal> {
        self.0.lift(slot)
    }

    fn card(&self, slot: u8) -> Option<F::Card> {
        self.0.card(slot)
    }
}

impl<F: Family> Family for Mirror<F> {
    ghost before = { λ m. turned (F.before m.0) };

    ghost swaps = { λ m. F.swaps m.0 };

    ghost ordered = { Prim.search rules };

    ghost few = { λ f c d ts changes. F.few f.0 d c ts changes };

    ghost bounded = { Prim.search rules };

    ghost order_stays = { Prim.search rules };

    ghost bound_stays = { Prim.search rules };

    // An empty slot comes last here as it does below, so only filled ones are turned round.
    fn compare(&self, i: u8, j: u8, t: u32) -> bool {
        match (self.0.card(i), self.0.card(j)) {
            (_, None) => true,
            (None, _) => false,
            _ => self.0.compare(j, i, t),
        }
    }

    // The exchange here is that below of the pair turned round. Where a slot is empty, neither fact ever changes.
    fn next_exchange(&self, i: u8, j: u8, t: u32, end: u32) -> Option<u32> {
        self.0.next_exchange(j, i, t, end)
    }

    fn bound(&self) -> u8 {
        self.0.bound()
    }
}

impl<F: Priced> Priced for Mirror<F> {
    ghost amount = { λ m. negated (F.amount m.0) };

    ghost sized = { Prim.search rules };

    fn amount_at(&self, slot: u8, t: u32) -> Option<i64> {
        self.0.amount_at(slot, t).map(|amount| -amount)
    }

    fn amounts(&self, slot: u8, first: u32, cells: &mut [i64]) -> Result<(), Refusal> {
        self.0.amounts(slot, first, cells)?;
        negate(cells);
        Ok(())
    }
}

impl<F: PricedFamily> PricedFamily for Mirror<F> {
    ghost orders = { Prim.search rules };
}
