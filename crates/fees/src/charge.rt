// What a fee card charges.
ghost use Rattle.std.specs.Prelude.{◌≡◌, ◌≤◌};
ghost use Rattle.fees.specs.Charge.{charge, charge_at};
ghost use Rattle.fees.specs.Charges.{charges_few, charges_turn};
ghost use Rattle.std.proofs.Common.{rules};

use crate::card::FeeCard;
use cards::PricedCard;
use family::Time;

impl PricedCard for FeeCard {
    ghost amount = { charge_at };

    ghost swaps = { 2 };

    ghost sized = { Prim.search rules };

    ghost few = { charges_few };

    ghost bounded = { Prim.search rules };

    ghost turns = { charges_turn };

    fn amount_at(&self, t: u32) -> i64 {
        self.charge_for(Time::from(t).into()) as i64
    }

    fn bound() -> u8 {
        2
    }
}

impl FeeCard {
    // The charge for some coins. It fits 64 bits whatever their number is.
    pub(crate) fn charge_for(&self, coins: u32) -> u64
        ensures value { result ≡ charge self.now coins }
        ensures bound { result ≤ 1000000000000 }
    {
        (u64::from(self.opening) + u64::from(self.rate) * u64::from(coins)).min(self.cap)
    }
}
