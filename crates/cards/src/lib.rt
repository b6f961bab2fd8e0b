// Cards by their amounts: what a card type has to show so that a table of such cards is a family.
//
// A card type shows what a card comes to at a time, how often two cards trade places at most, and that any
// two cards have a turning time. With a formula for the next exchange of two cards a table of them is a
// priced family; where a turning time can be told, it is a turning family; it may be both.
// `ByAmount(Slots::new())` is the family with every slot empty.
#![tactic(auto)]

mod by_amount;
mod card;
mod ordered;
mod priced;
mod run;

pub use by_amount::ByAmount;
pub use card::{ExchangingCard, PricedCard, TurningCard};
