// What cards are made of, written short, and families with two cards to try things on.
use adapter::Adapter;
use cards::ByAmount;
use family::{CardSlots, Refusal};
use fees::{FeeCard, FeeCards};
use hoppers::{Hopper, Hoppers};
use slots::Slots;
use std::fmt::Debug;
use vans::{Van, Vans};

// A family that can be begun with every slot empty.
pub trait Empty: CardSlots {
    fn empty() -> Self;
}

impl<C: Copy> Empty for ByAmount<Slots<C>> {
    fn empty() -> Self {
        ByAmount(Slots::new())
    }
}

impl<F: Empty> Empty for Adapter<F> {
    fn empty() -> Self {
        Adapter(F::empty())
    }
}

// The numbers that a card is made of, and the family of such cards.
pub trait Made: Copy {
    type Card: Copy + Debug + PartialEq;

    type Family: Empty<Card = Self::Card> + Drop;

    fn card(self) -> Result<Self::Card, Refusal>;
}

// A hopper's opening fill and its rate of coins a minute.
#[derive(Clone, Copy)]
pub struct Line(pub u32, pub i32);

impl Made for Line {
    type Card = Hopper;

    type Family = Hoppers;

    fn card(self) -> Result<Hopper, Refusal> {
        Hopper::new(self.0, self.1, 1_000_000_000)
    }
}

// A van's position and its velocity.
#[derive(Clone, Copy, PartialEq, Debug)]
pub struct Path(pub i32, pub i32, pub i16, pub i16);

impl Made for Path {
    type Card = Van;

    type Family = Vans;

    fn card(self) -> Result<Van, Refusal> {
        Van::new(self.0, self.1, self.2, self.3)
    }
}

// The opening fee, the rate and the cap of a fee card.
#[derive(Clone, Copy, PartialEq, Debug)]
pub struct Fee(pub u32, pub u32, pub u64);

impl Made for Fee {
    type Card = FeeCard;

    type Family = FeeCards;

    fn card(self) -> Result<FeeCard, Refusal> {
        FeeCard::new(self.0, self.1, self.2)
    }
}

// The family with the first card in slot 0, the second in slot 1, and nothing else.
fn filled<F: Empty + Drop, M: Made<Card = F::Card>>(c: M, d: M) -> Result<F, Refusal> {
    let mut family = F::empty();
    family.put(0, c.card()?)?;
    family.put(1, d.card()?)?;
    Ok(family)
}

// Two cards in the family of their sort.
pub fn pair<M: Made>(c: M, d: M) -> Result<M::Family, Refusal> {
    filled(c, d)
}

// The same two as they come through the adapter.
pub fn adapted<M: Made>(c: M, d: M) -> Result<Adapter<M::Family>, Refusal> {
    filled(c, d)
}
