// Vans: points that move straight on over the minutes, by their squared distance from the site at 0, 0.
//
// The difference of two squared distances is a parabola over time, so two vans trade places at most twice,
// and when they do is told by a formula. Vans are a turning family too.
#![tactic(auto)]

mod exchange;
mod make;
mod van;
mod vector;

use cards::ByAmount;
use slots::Slots;
pub use van::Van;

// The family of vans, the nearer first.
pub type Vans = ByAmount<Slots<Van>>;
