// Runs of amounts.
use crate::tests::made::{Line, adapted, pair};
use crate::tests::tables::{FullRun, UNTOUCHED, full_runs};
use family::{Priced, Refusal};
use std::test::Fail;

const ROWS: [FullRun; 8] = [
    // from opening, and below 0
    (0, 0, Ok(()), [500, 510, 520]),
    (1, 199, Ok(()), [4, 0, -4]),
    // up to the last time, and one past it
    (0, 999_998, Ok(()), [10_000_480, 10_000_490, 10_000_500]),
    (0, 999_999, Err(Refusal::PastEnd), UNTOUCHED),
    // a first time past the last
    (0, 1_000_001, Err(Refusal::PastEnd), UNTOUCHED),
    (0, u32::MAX, Err(Refusal::PastEnd), UNTOUCHED),
    // an empty slot, and an empty slot past the end: the end is looked at first
    (9, 0, Err(Refusal::SlotEmpty), UNTOUCHED),
    (9, 999_999, Err(Refusal::PastEnd), UNTOUCHED),
];

#[test]
fn three_cells(rt: HostRuntime) -> Result<(), Fail> {
    let (c, d) = (Line(500, 10), Line(800, -4));
    full_runs(&rt, &pair(c, d)?, &ROWS);
    full_runs(&rt, &adapted(c, d)?, &ROWS);
    Ok(())
}

#[test]
fn no_cells(rt: HostRuntime) -> Result<(), Fail> {
    let family = pair(Line(500, 10), Line(800, 4))?;
    assert_eq!(rt;
        family.amounts(0, 1_000_000, &mut []),
        Ok(()),
        "at the last time"
    );
    assert_eq!(rt;
        family.amounts(0, 1_000_001, &mut []),
        Err(Refusal::PastEnd),
        "past it"
    );
    assert_eq!(rt;
        family.amounts(9, 0, &mut []),
        Err(Refusal::SlotEmpty),
        "of an empty slot"
    );
    Ok(())
}
