// Slots: 256 places, each with one card or none. Put, lift and card are written and proved here
// once, whatever the cards are, for every family to use.
#![tactic(auto)]

mod places;
mod table;

pub use table::Slots;
