// Runs of amounts of fee cards, of their own and through the adapter.
use super::{C, D};
use crate::tests::made::{adapted, pair};
use crate::tests::tables::{Run, UNTOUCHED, runs};
use family::Refusal;
use std::test::Fail;

const ROWS: [Run; 16] = [
    // from no coin on
    (0, 0, 3, Ok(()), [100, 102, 104]),
    (0, 0, 1, Ok(()), [100, 7, 7]),
    // up to a cap, over it, and past it
    (1, 118, 3, Ok(()), [590, 595, 600]),
    (1, 119, 3, Ok(()), [595, 600, 600]),
    (1, 120, 3, Ok(()), [600, 600, 600]),
    // up to the last time, and one past it
    (0, 999_998, 3, Ok(()), [1_000, 1_000, 1_000]),
    (0, 999_999, 2, Ok(()), [1_000, 1_000, 7]),
    (0, 999_999, 3, Err(Refusal::PastEnd), UNTOUCHED),
    // a first time past the last
    (0, 1_000_001, 3, Err(Refusal::PastEnd), UNTOUCHED),
    (0, u32::MAX, 3, Err(Refusal::PastEnd), UNTOUCHED),
    // an empty slot, and an empty slot past the end: the end is looked at first
    (9, 0, 3, Err(Refusal::SlotEmpty), UNTOUCHED),
    (9, 999_999, 3, Err(Refusal::PastEnd), UNTOUCHED),
    // no cells: at the last time, past it, of an empty slot, and of an empty slot past the last time
    (0, 1_000_000, 0, Ok(()), UNTOUCHED),
    (0, 1_000_001, 0, Err(Refusal::PastEnd), UNTOUCHED),
    (9, 1_000_000, 0, Err(Refusal::SlotEmpty), UNTOUCHED),
    (9, 1_000_001, 0, Err(Refusal::PastEnd), UNTOUCHED),
];

#[test]
fn up_to_three_cells(rt: HostRuntime) -> Result<(), Fail> {
    runs(&rt, &pair(C, D)?, &ROWS);
    runs(&rt, &adapted(C, D)?, &ROWS);
    Ok(())
}
