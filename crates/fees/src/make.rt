// Making a fee card, and reading back what it was made of.
ghost use Rattle.std.specs.Prelude.{◌≡◌};
ghost use Rattle.fees.specs.Charge.{Making};

use crate::card::FeeCard;
use family::Refusal;

const HIGHEST_OPENING: u32 = 1_000_000_000;

const HIGHEST_RATE: u32 = 1_000_000;

const HIGHEST_CAP: u64 = 1_000_000_000_000;

impl FeeCard {
    // A fee card with an opening fee, a rate for each coin and a cap. Numbers outside the limits are
    // refused (3).
    pub fn new(opening: u32, rate: u32, cap: u64) -> Result<FeeCard, Refusal>
        ensures { Making opening rate cap result }
    {
        if opening <= HIGHEST_OPENING && rate <= HIGHEST_RATE && cap <= HIGHEST_CAP {
            Ok(FeeCard { opening, rate, cap })
        } else {
            Err(Refusal::OutsideLimits)
        }
    }

    // What it charges for no coin, unless the cap is lower.
    pub fn opening(&self) -> u32
        ensures { result ≡ self.now.opening }
    {
        self.opening
    }

    // What each coin adds below the cap.
    pub fn rate(&self) -> u32
        ensures { result ≡ self.now.rate }
    {
        self.rate
    }

    // The most that it charges.
    pub fn cap(&self) -> u64
        ensures { result ≡ self.now.cap }
    {
        self.cap
    }
}
