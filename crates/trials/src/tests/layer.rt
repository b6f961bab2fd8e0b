// Trials of late starts, mirrors and piles of them, over hoppers and over fee cards, and of the two ways to an
// exchange of hoppers.
use crate::tests::fee::{C, D};
use crate::tests::made::adapted;
use crate::tests::tables::{Table, tells};
use adapter::Adapter;
use family::{PricedFamily, Refusal};
use fees::FeeCards;
use layers::LateStart;
use std::process::Abort;

mod agree;
mod late;
mod late_runs;
mod mirrored;
mod piles;

// The sample: "slot 0 is at or before slot 1" changes at 34 and 251, and the other way round at 34 and 250.
fn sample() -> Result<Adapter<FeeCards>, Refusal> {
    adapted(C, D)
}

fn tells_late<F: PricedFamily + Drop>(rt: &impl Abort, below: F, delay: u32, table: Table<'_>) {
    tells(rt, &LateStart::new(below, delay), table);
}
