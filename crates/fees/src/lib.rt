// Fee cards: an opening fee and a rate for each coin, up to a cap.
//
// A card charges opening + rate × t for t coins, and never more than its cap. A cap below the opening fee is
// allowed: such a card charges its cap throughout. Two cards may trade places twice, and there is no formula
// here for when: fee cards are a turning family, and come to the engine through the adapter.
#![tactic(auto)]

mod card;
mod charge;
mod make;
mod turn;

pub use card::FeeCard;
use cards::ByAmount;
use slots::Slots;

// The turning family of fee cards, the cheaper first.
pub type FeeCards = ByAmount<Slots<FeeCard>>;
