// Putting cards in and taking them out.
ghost use Rattle.slots.specs.Held.{cards_of};

use crate::table::Slots;
use family::{CardSlots, Refusal};

impl<C: Copy> CardSlots for Slots<C> {
    type Card = C;

    ghost slots = { cards_of };

    ghost alike = { λ _ _. Unit {0} };

    fn put(&mut self, slot: u8, card: C) -> Result<(), Refusal> {
        let place = &mut self.places[usize::from(slot)];
        if place.is_some() {
            return Err(Refusal::SlotFilled);
        }
        *place = Some(card);
        Ok(())
    }

    fn lift(&mut self, slot: u8) -> Result<(), Refusal> {
        let place = &mut self.places[usize::from(slot)];
        place.take().ok_or(Refusal::SlotEmpty)?;
        Ok(())
    }

    fn card(&self, slot: u8) -> Option<C> {
        self.places[usize::from(slot)]
    }
}
