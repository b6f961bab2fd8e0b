// The cards in a table, ordered by their amounts: the smaller one comes first.
use family::{CardSlots, Refusal};

#[derive(Drop)]
pub struct ByAmount<P>(pub P);

// Handed down here as in each layer: one impl over a trait that lends what is below was tried, and each layer then
// needs as many lines.
impl<P: CardSlots> CardSlots for ByAmount<P> {
    type Card = P::Card;

    ghost slots = { λ f. P.slots f.0 };

    ghost alike = { λ f g. P.alike f.0 g.0 };

    fn put(&mut self, slot: u8, card: P::Card) -> Result<(), Refusal> {
        self.0.put(slot, card)
    }

    fn lift(&mut self, slot: u8) -> Result<(), Refusal> {
        self.0.lift(slot)
    }

    fn card(&self, slot: u8) -> Option<P::Card> {
        self.0.card(slot)
    }
}
