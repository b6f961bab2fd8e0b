// Why a call is turned down, and by which number. A refused call changes nothing. The numbers 5 to 8 are
// faults of a day file and not of a call.
ghost use Rattle.std.specs.Prelude.{◌≡◌, Some};
ghost use Rattle.family.specs.Refusals.{number_of, reason_of};

use std::error::Error;
use std::fmt;

#[derive(Clone, Copy, PartialEq, Eq, Debug)]
pub enum Refusal {
    // A time or an end of a range is above 1,000,000, or a run of amounts would pass it.
    PastEnd = 1,
    // The first time of a range is above its last.
    RangeReversed = 2,
    // A card is outside its limits.
    OutsideLimits = 3,
    // A place for a listing has fewer than 32,768 bytes.
    ListingTooShort = 9,
    // The slot is filled.
    SlotFilled = 21,
    // The slot is empty.
    SlotEmpty = 22,
    // The time is below the clock.
    BeforeClock = 23,
    // No card stands.
    NoCardStands = 24,
    // The place for the answer is too short.
    PlaceTooShort = 25,
}

impl Refusal {
    // The number by which the refusal is told.
    pub fn number(self) -> u8
        ensures { result ≡ number_of self }
    {
        self as u8
    }

    // The reason in words.
    pub fn reason(self) -> &'static str
        ensures { result.now ≡ reason_of self }
    {
        match self {
            Refusal::PastEnd => "a time is above 1000000",
            Refusal::RangeReversed => "a range ends before it starts",
            Refusal::OutsideLimits => "the card is outside its limits",
            Refusal::ListingTooShort => "the place for a listing is too short",
            Refusal::SlotFilled => "the slot is filled",
            Refusal::SlotEmpty => "the slot is empty",
            Refusal::BeforeClock => "the time is below the clock",
            Refusal::NoCardStands => "no card stands",
            Refusal::PlaceTooShort => "the place is too short",
        }
    }
}

impl fmt::Display for Refusal {
    ghost output = { λ r. Some (reason_of r) };

    fn fmt<W: fmt::Write>(&self, f: &mut fmt::Formatter<W>) -> fmt::Result {
        f.write_str(self.reason())
    }
}

impl Error for Refusal {}
