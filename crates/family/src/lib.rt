// Families of cards: the interface between what is charted and the engine that charts it.
//
// A family holds in each of 256 slots one card of its own sort, or nothing. For any two of its cards
// and each time it tells whether the first is at or before the second: the cheaper fee card, the
// emptier hopper, the nearer van. Times are whole numbers from 0 to 1,000,000, and a later one is read
// as 1,000,000. Two laws hold of every family:
//
// - At each time, of any two cards, the same card twice among them, one is at or before the other, and
//   c at or before d with d at or before e gives c at or before e. So cards may be level, each at or
//   before the other.
// - The swap bound s is 1 or 2, and for each ordered pair of cards the fact "c is at or before d"
//   differs from the time before at no more than s of the times 1 to 1,000,000.
//
// Neither the order nor s ever changes; put and lift alone change which cards are held.
//
// Example: a hopper with 500 coins that gains 10 a minute and one with 800 that gains 4 are level at
// minute 50. "The first is at or before the second" holds up to minute 50 and differs from 51 on; "the
// second is at or before the first" differs from 50 on. So the exchange of (i, j) is not that of (j, i).
//
// The interface is in parts. `CardSlots` holds the cards; on it build `Family`, which orders them, and `Priced`,
// which tells amounts. `PricedFamily` is both, with the order that the amounts give, and `TurningFamily` is
// `Priced` and tells where the difference of two amounts turns. Whatever is built on a part holds for each type
// that has it, with nothing more to show.
#![tactic(auto)]

mod card_slots;
mod family;
mod priced;
mod refusal;
mod run;
mod time;

pub use card_slots::CardSlots;
pub use family::Family;
pub use priced::{Priced, PricedFamily, TurningFamily};
pub use refusal::Refusal;
pub use run::run_in_range;
pub use time::{LAST_TIME, Span, Time};
