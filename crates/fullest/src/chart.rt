// The chart of a priced family: the longest stretches over which one slot leads, found by asking the leader
// for the next exchange with every other slot.
ghost use Rattle.std.specs.Prelude.{◌≡◌, ◌+◌, ◌-◌, IfOk, MatchOption};
ghost use Rattle.std.specs.Iterator.{at_most};
ghost use Rattle.family.specs.Order.{last_time};
ghost use Rattle.fullest.specs.Stretches.{Told, Chart};

use crate::lead::Lead;
use crate::stretch::PricedStretch;
use envelope::Stretch;
use family::{LAST_TIME, Priced, PricedFamily, Time};
use std::alloc::{AllocError, Global};

// The chart from 0 to 1,000,000; no stretch where no card stands. An `Err` is want of memory, and tells
// nothing of the chart.
pub fn stretches<F: PricedFamily>(
    heap: Global,
    family: &F,
) -> Result<Vec<PricedStretch>, AllocError>
    ensures { IfOk result (λ v. Chart (F.before family.now) (F.slots family.now) (F.amount family.now) v.items) }
{
    StretchesFrom { family, first: 0 }.collect(heap)
}

// The stretches that begin at a time and later.
#[derive(Drop)]
struct StretchesFrom<'a, F> {
    family: &'a F,
    // One past the last time where the chart is told to its end.
    first: u32,
}

impl<F: PricedFamily> Iterator for StretchesFrom<'_, F> {
    type Item = PricedStretch;

    ghost next_gives = { λ s r t. (t.family.now ≡ s.family.now) × Told (F.before s.family.now) (F.slots s.family.now) (F.amount s.family.now) s.first r t.first };

    ghost remaining = { λ s. at_most (last_time + 1 - s.first) };

    // None past the last time, and where no card stands.
    fn next(&mut self) -> Option<PricedStretch> {
        let first = self.first;
        if first > LAST_TIME {
            return None;
        }
        let lead = Lead::at(self.family, Time::from(first))?;
        let slot = lead.slot;
        let amount = self.family.amount_at(slot, first)?;
        let last = lead.end();
        self.first = last + 1;
        Some(PricedStretch {
            stretch: Stretch { first, last, slot },
            amount,
        })
    }
}
