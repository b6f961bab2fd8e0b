// What the cards in a table come to, and where the difference of two turns.
ghost use Rattle.std.proofs.Common.{rules};

use crate::by_amount::ByAmount;
use crate::card::{PricedCard, TurningCard};
use crate::run::run;
use family::{CardSlots, Priced, Refusal, TurningFamily};

impl<C: PricedCard, P: CardSlots<Card = C>> Priced for ByAmount<P> {
    ghost amount = { λ _. C.amount };

    ghost sized = { Prim.search rules };

    fn amount_at(&self, slot: u8, t: u32) -> Option<i64> {
        Some(self.card(slot)?.amount_at(t))
    }

    fn amounts(&self, slot: u8, first: u32, cells: &mut [i64]) -> Result<(), Refusal> {
        run(self.card(slot), first, cells)
    }
}

impl<C: TurningCard, P: CardSlots<Card = C>> TurningFamily for ByAmount<P> {
    ghost turns = { Prim.search rules };

    ghost amount_stays = { Prim.search rules };

    fn turning(&self, c: C, d: C) -> u32 {
        c.turning(&d)
    }
}
