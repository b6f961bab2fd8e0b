// The cards in a table as a family, where their sort finds exchanges by a formula.
ghost use Rattle.family.specs.Amounts.{by_amount};
ghost use Rattle.std.proofs.Common.{rules};

use crate::by_amount::ByAmount;
use crate::card::ExchangingCard;
use family::{CardSlots, Family, Priced, PricedFamily};

impl<C: ExchangingCard, P: CardSlots<Card = C>> Family for ByAmount<P> {
    ghost before = { λ _. by_amount C.amount };

    ghost swaps = { λ _. C.swaps };

    ghost ordered = { Prim.search rules };

    ghost few = { Prim.search rules };

    ghost bounded = { Prim.search rules };

    ghost order_stays = { Prim.search rules };

    ghost bound_stays = { Prim.search rules };

    fn compare(&self, i: u8, j: u8, t: u32) -> bool {
        self.in_order(i, j, t)
    }

    fn next_exchange(&self, i: u8, j: u8, t: u32, end: u32) -> Option<u32> {
        self.card(i)?.next_exchange(&self.card(j)?, t, end)
    }

    fn bound(&self) -> u8 {
        C::bound()
    }
}

impl<C: ExchangingCard, P: CardSlots<Card = C>> PricedFamily for ByAmount<P> {
    ghost orders = { Prim.search rules };
}
