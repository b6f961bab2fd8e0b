// Hoppers as they are read off the machine, before anything says that they are within the limits.
ghost use Rattle.std.specs.Prelude.{◌≡◌};
ghost use Rattle.hoppers.specs.Fill.{Making};
ghost use Rattle.fullest.specs.Placing.{Placing};

use family::{CardSlots, Family, Refusal};
use hoppers::Hopper;

#[derive(Clone, Copy)]
pub struct Reading {
    pub slot: u8,
    // Coins at opening.
    pub fill: u32,
    // Coins that come in each minute.
    pub rate: i32,
    pub capacity: u32,
}

// Refused outside the limits (3).
impl TryFrom<Reading> for Hopper {
    type Error = Refusal;

    ghost try_from_gives = { λ x r. Making x.fill x.rate x.capacity r };

    fn try_from(reading: Reading) -> Result<Hopper, Refusal> {
        Hopper::new(reading.fill, reading.rate, reading.capacity)
    }
}

impl Reading {
    // Makes the hopper and puts it into its slot. Refused outside the limits (3), and then where the slot is
    // filled (21); nothing changes then.
    pub fn place<F: Family<Card = Hopper>>(self, family: &mut F) -> Result<(), Refusal>
        ensures answer { Placing (F.slots family.old) self result (F.slots family.new) }
        ensures order { F.before family.new ≡ F.before family.old }
    {
        family.put(self.slot, Hopper::try_from(self)?)
    }
}

// A reading, and what came of it when its hopper was set up.
#[derive(Clone, Copy)]
pub struct Attempt {
    pub reading: Reading,
    pub answer: Result<(), Refusal>,
}
