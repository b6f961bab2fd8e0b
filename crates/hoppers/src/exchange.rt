// A hopper's fill at a time, and when two hoppers trade places.
ghost use Rattle.std.specs.Prelude.{◌≡◌, ◌≤◌, unsigned_abs};
ghost use Rattle.hoppers.specs.Fill.{fill_at};
ghost use Rattle.hoppers.specs.Fills.{fills_sized, fills_few, fills_turn, turn_anywhere};
ghost use Rattle.std.proofs.Common.{rules};

use crate::hopper::Hopper;
use cards::{ExchangingCard, PricedCard, TurningCard};
use crossing::{line_at, next_crossing};
use family::{Span, Time};

impl PricedCard for Hopper {
    ghost amount = { fill_at };

    ghost swaps = { 1 };

    ghost sized = { fills_sized };

    ghost few = { fills_few };

    ghost bounded = { Prim.search rules };

    ghost turns = { fills_turn };

    fn amount_at(&self, t: u32) -> i64 {
        self.fill_after(Time::from(t))
    }

    fn bound() -> u8 {
        1
    }
}

impl ExchangingCard for Hopper {
    // The other's fill less this one's moves by the difference of the rates each minute, and this one is at or
    // before the other while that is not negative.
    fn next_exchange(&self, other: &Hopper, t: u32, end: u32) -> Option<u32> {
        let Span { from, end } = Span::new(t, end);
        let gap = other.fill_after(from) - self.fill_after(from);
        let drift = i64::from(other.rate) - i64::from(self.rate);
        next_crossing(gap, drift, from.into(), end.into())
    }
}

impl TurningCard for Hopper {
    // The difference of two straight lines never turns, so any time will do.
    fn turning(&self, _other: &Hopper) -> u32 {
        0
    }
}

impl Hopper {
    // The fill at a time.
    fn fill_after(&self, time: Time) -> i64
        ensures value { result ≡ fill_at self.now time.number }
        ensures bound { unsigned_abs result ≤ 1001000000000 }
    {
        line_at(self.fill as i32, self.rate, time.into())
    }
}
