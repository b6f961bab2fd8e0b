// Layers pile in any order and depth. Three of them: a late start of a mirror of a late start is the mirror of
// one late start by both delays, in its order, its exchanges and its amounts.
ghost use Rattle.std.specs.Prelude.{◌≡◌};
ghost use Rattle.family.specs.Order.{NextChange};
ghost use Rattle.family.specs.Slots.{slot_before};
ghost use Rattle.family.specs.Amounts.{amount_of};
ghost use Rattle.layers.specs.Piled.{bottom, piled, piled_amount};

use crate::late::LateStart;
use crate::mirror::Mirror;
use family::{Family, Priced};

// A pile of three layers. What it comes to is told by functions and not by methods, since these are public.
pub type LateMirrorLate<F> = LateStart<Mirror<LateStart<F>>>;

// Whether slot i is at or before slot j at t.
pub fn compare_in_pile<F: Family>(pile: &LateMirrorLate<F>, i: u8, j: u8, t: u32) -> bool
    ensures { result ≡ slot_before (piled F.before pile.now) (F.slots (bottom pile.now)) i j t }
{
    pile.compare(i, j, t)
}

// The next exchange of two slots.
#[tactic(auto, using(crate::specs::Delay::piled_exchange))]
pub fn exchange_in_pile<F: Family>(
    pile: &LateMirrorLate<F>,
    i: u8,
    j: u8,
    t: u32,
    end: u32,
) -> Option<u32>
    ensures { NextChange (slot_before (piled F.before pile.now) (F.slots (bottom pile.now)) i j) t end result }
{
    pile.next_exchange(i, j, t, end)
}

// The slot's amount at t, or none for an empty slot.
pub fn amount_in_pile<F: Priced>(pile: &LateMirrorLate<F>, slot: u8, t: u32) -> Option<i64>
    ensures { result ≡ amount_of (piled_amount F.amount pile.now) (F.slots (bottom pile.now) slot) t }
{
    pile.amount_at(slot, t)
}
