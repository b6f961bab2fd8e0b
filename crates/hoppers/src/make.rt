// Making a hopper, and reading back what it was made of.
ghost use Rattle.std.specs.Prelude.{◌≡◌};
ghost use Rattle.hoppers.specs.Fill.{Making};

use crate::hopper::Hopper;
use family::Refusal;

const MOST_COINS: u32 = 1_000_000_000;

const FASTEST: u32 = 1_000_000;

impl Hopper {
    // A hopper with an opening fill, a rate of coins a minute and a capacity. Numbers outside the limits
    // are refused (3).
    pub fn new(fill: u32, rate: i32, capacity: u32) -> Result<Hopper, Refusal>
        ensures { Making fill rate capacity result }
    {
        if (1..=MOST_COINS).contains(&capacity)
            && fill <= capacity
            && rate.unsigned_abs() <= FASTEST
        {
            Ok(Hopper {
                fill,
                rate,
                capacity,
            })
        } else {
            Err(Refusal::OutsideLimits)
        }
    }

    // The coins in it at opening.
    pub fn fill(&self) -> u32
        ensures { result ≡ self.now.fill }
    {
        self.fill
    }

    // The coins that come in a minute, negative where they go out.
    pub fn rate(&self) -> i32
        ensures { result ≡ self.now.rate }
    {
        self.rate
    }

    // The most coins that it may hold at opening.
    pub fn capacity(&self) -> u32
        ensures { result ≡ self.now.capacity }
    {
        self.capacity
    }
}
