// Formula and bisection agree: hoppers and vans find exchanges by a formula of their own, and as turning
// families they come through the adapter too. The functions here ask both ways, and promise that the answers
// are the same wherever the same cards stand: of hoppers and of vans, and of any other family that has both, where
// the two are one but for their cards.
#![tactic(auto)]

ghost use Rattle.std.specs.Prelude.{◌≡◌};
ghost use Rattle.family.specs.Order.{NextChange};
ghost use Rattle.family.specs.Slots.{slot_before};
ghost use Rattle.family.specs.Amounts.{by_amount};
ghost use Rattle.slots.specs.Held.{cards_of};
ghost use Rattle.hoppers.specs.Fill.{fill_at};
ghost use Rattle.vans.specs.Distance.{distance_at};

use adapter::Adapter;
use family::{CardSlots, Family, Priced, PricedFamily, TurningFamily};
use hoppers::Hoppers;
use vans::Vans;

// The next exchange of two slots of hoppers, by formula and by bisection.
pub fn hopper_exchange(
    hoppers: &Hoppers,
    adapted: &Adapter<Hoppers>,
    i: u8,
    j: u8,
    t: u32,
    end: u32,
) -> (Option<u32>, Option<u32>)
    ensures formula { NextChange (slot_before (by_amount fill_at) (cards_of hoppers.now.0) i j) t end result.0 }
    ensures bisection { NextChange (slot_before (by_amount fill_at) (cards_of adapted.now.0.0) i j) t end result.1 }
    ensures agree { cards_of hoppers.now.0 i ≡ cards_of adapted.now.0.0 i → cards_of hoppers.now.0 j ≡ cards_of adapted.now.0.0 j → result.0 ≡ result.1 }
{
    exchange_both_ways(hoppers, adapted, i, j, t, end)
}

// The next exchange of two slots of vans, by formula and by bisection.
pub fn van_exchange(
    vans: &Vans,
    adapted: &Adapter<Vans>,
    i: u8,
    j: u8,
    t: u32,
    end: u32,
) -> (Option<u32>, Option<u32>)
    ensures formula { NextChange (slot_before (by_amount distance_at) (cards_of vans.now.0) i j) t end result.0 }
    ensures bisection { NextChange (slot_before (by_amount distance_at) (cards_of adapted.now.0.0) i j) t end result.1 }
    ensures agree { cards_of vans.now.0 i ≡ cards_of adapted.now.0.0 i → cards_of vans.now.0 j ≡ cards_of adapted.now.0.0 j → result.0 ≡ result.1 }
{
    exchange_both_ways(vans, adapted, i, j, t, end)
}

// The next exchange of two slots as a family tells it, and as the adapter of such a family does. They are of one
// sort of cards; where the two are one but for their cards, and both hold the same cards in the two slots, the
// answers are the same: the first change of a fact is one time and no other.
pub fn exchange_both_ways<F: PricedFamily + TurningFamily>(
    family: &F,
    adapted: &Adapter<F>,
    i: u8,
    j: u8,
    t: u32,
    end: u32,
) -> (Option<u32>, Option<u32>)
    ensures formula { NextChange (slot_before (F.before family.now) (F.slots family.now) i j) t end result.0 }
    ensures bisection { NextChange (slot_before (by_amount (F.amount adapted.now.0)) (F.slots adapted.now.0) i j) t end result.1 }
    ensures agree { F.alike family.now adapted.now.0 → F.slots family.now i ≡ F.slots adapted.now.0 i → F.slots family.now j ≡ F.slots adapted.now.0 j → result.0 ≡ result.1 }
{
    (
        family.next_exchange(i, j, t, end),
        adapted.next_exchange(i, j, t, end),
    )
}
