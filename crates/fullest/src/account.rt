// The account of a watch: which hoppers were set up, and which of them leads at each minute.
ghost use Rattle.std.specs.Prelude.{◌≡◌, IfOk};
ghost use Rattle.fullest.specs.Placing.{SetUp};
ghost use Rattle.fullest.specs.Stretches.{Chart};

use crate::chart::stretches;
use crate::reading::{Attempt, Reading};
use crate::stretch::PricedStretch;
use family::{Family, PricedFamily};
use hoppers::Hopper;
use std::alloc::{AllocError, Global};

#[derive(Drop)]
pub struct Account<F> {
    pub attempts: Vec<Attempt>,
    pub family: F,
    pub stretches: Vec<PricedStretch>,
}

impl<F: PricedFamily<Card = Hopper> + Drop> Account<F> {
    // Sets the hoppers up in a family, in order, and charts what stands then.
    pub fn of(heap: Global, mut family: F, readings: &[Reading]) -> Result<Account<F>, AllocError>
        ensures attempts { IfOk result (λ a. SetUp (F.slots family) readings.now a.attempts.items (F.slots a.family)) }
        ensures order { IfOk result (λ a. F.before a.family ≡ F.before family) }
        ensures chart { IfOk result (λ a. Chart (F.before a.family) (F.slots a.family) (F.amount a.family) a.stretches.items) }
    {
        let attempts = set_up(heap, &mut family, readings)?;
        let stretches = stretches(heap, &family)?;
        Ok(Account {
            attempts,
            family,
            stretches,
        })
    }
}

// Tries each hopper in turn, and tells what came of it.
fn set_up<F: Family<Card = Hopper>>(
    heap: Global,
    family: &mut F,
    readings: &[Reading],
) -> Result<Vec<Attempt>, AllocError>
    ensures answers { IfOk result (λ v. SetUp (F.slots family.old) readings.now v.items (F.slots family.new)) }
    ensures order { F.before family.new ≡ F.before family.old }
{
    let mut attempts = Vec::new(heap);
    // A loop, since each turn changes the family: after a chain nothing is known of what its closure changed.
    for reading in readings {
        attempts.push(Attempt {
            reading: *reading,
            answer: reading.place(family),
        })?;
    }
    Ok(attempts)
}
