// Layers: families made of the family below them. A layer keeps the cards of the family below, is priced
// where that is, and is itself a family that a layer can lie over.
#![tactic(auto)]

mod late;
mod mirror;
mod negate;
mod pile;

pub use late::LateStart;
pub use mirror::Mirror;
pub use pile::{LateMirrorLate, amount_in_pile, compare_in_pile, exchange_in_pile};
