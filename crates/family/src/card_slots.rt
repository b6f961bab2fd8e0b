// Cards in slots: the part of the interface that puts cards in and takes them out.
ghost use Rattle.std.specs.Prelude.{◌≡◌, OnErr};
ghost use Rattle.family.specs.Slots.{Cards, PutAnswer, LiftAnswer};

use crate::refusal::Refusal;

// 256 slots, in each of which one card of the sort `Card` stands, or none.
pub trait CardSlots {
    type Card: Copy;

    // The card in each slot, or none.
    ghost slots: { Self → Cards Self.Card };

    // Whether two values of the type are one but for the cards in their slots. What they then have in common, the
    // laws of the traits say that build on this one.
    ghost alike: { Self → Self → Type 0 };

    // Fills an empty slot and touches no other. A filled one is refused (21), and nothing changes.
    fn put(&mut self, slot: u8, card: Self::Card) -> Result<(), Refusal>
        ensures answer { PutAnswer (slots self.old) slot card result (slots self.new) }
        ensures same { OnErr result (self.new ≡ self.old) }
        ensures rest { alike self.old self.new };

    // Empties a filled slot and touches no other. An empty one is refused (22), and nothing changes.
    fn lift(&mut self, slot: u8) -> Result<(), Refusal>
        ensures answer { LiftAnswer (slots self.old) slot result (slots self.new) }
        ensures same { OnErr result (self.new ≡ self.old) }
        ensures rest { alike self.old self.new };

    // The slot's card, or none.
    fn card(&self, slot: u8) -> Option<Self::Card>
        ensures { result ≡ slots self.now slot };
}
