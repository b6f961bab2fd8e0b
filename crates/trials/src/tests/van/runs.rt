// Runs of amounts of vans, and what the slots keep, by formula and through the adapter.
use crate::tests::made::{Made, Path, adapted, pair};
use crate::tests::tables::{FullRun, UNTOUCHED, full_runs, kept, priced};
use family::{Family, Priced, Refusal};
use std::process::Abort;
use std::test::Fail;
use vans::Van;

const C: Path = Path(-300, 0, 100, 0);

const D: Path = Path(100_000, 100_000, 1_000, 1_000);

const ROWS: [FullRun; 5] = [
    (0, 1, Ok(()), [40_000, 10_000, 0]),
    // up to the last time, where amounts are largest, and one past it
    (
        1,
        999_998,
        Ok(()),
        [
            2_000_392_019_208_000_000,
            2_000_396_019_602_000_000,
            2_000_400_020_000_000_000,
        ],
    ),
    (1, 999_999, Err(Refusal::PastEnd), UNTOUCHED),
    // an empty slot; past the end the end is looked at first
    (9, 0, Err(Refusal::SlotEmpty), UNTOUCHED),
    (9, 999_999, Err(Refusal::PastEnd), UNTOUCHED),
];

fn ran<P: Priced>(rt: &impl Abort, family: &P) {
    full_runs(rt, family, &ROWS);
    priced(rt, family, &[(9, 0, None)]);
}

#[test]
fn three_cells(rt: HostRuntime) -> Result<(), Fail> {
    ran(&rt, &pair(C, D)?);
    ran(&rt, &adapted(C, D)?);
    Ok(())
}

fn keeps<F: Family<Card = Van>>(rt: &impl Abort, family: &mut F) -> Result<(), Fail> {
    kept(rt, family, C.card()?, D.card()?, D.card()?);
    assert_eq!(rt; family.bound(), 2);
    Ok(())
}

#[test]
fn slots_kept(rt: HostRuntime) -> Result<(), Fail> {
    keeps(&rt, &mut pair(C, D)?)?;
    keeps(&rt, &mut adapted(C, D)?)
}
