// Hoppers: straight lines of fill over the minutes since opening.
#![tactic(auto)]

mod exchange;
mod hopper;
mod make;

use cards::ByAmount;
pub use hopper::Hopper;
use slots::Slots;

// The family of hoppers, the emptier first. Two hoppers trade places at most once.
pub type Hoppers = ByAmount<Slots<Hopper>>;
