// Runs of amounts of late starts.
use super::tells_late;
use crate::tests::made::{Line, pair};
use crate::tests::tables::{Run, Table, UNTOUCHED};
use family::Refusal;
use std::process::Abort;
use std::test::Fail;

// Of a hopper with 500 coins at a rate of 10, and one with 800 at a rate of 4, late by 10.
const LATE_BY_10: [Run; 21] = [
    // from the start on
    (0, 0, 3, Ok(()), [600, 610, 620]),
    (1, 7, 3, Ok(()), [868, 872, 876]),
    (1, 7, 1, Ok(()), [868, 7, 7]),
    // the last cell is at the last time below, then one cell is past it, two cells, and all three
    (0, 999_988, 3, Ok(()), [10_000_480, 10_000_490, 10_000_500]),
    (0, 999_989, 3, Ok(()), [10_000_490, 10_000_500, 10_000_500]),
    (0, 999_990, 3, Ok(()), [10_000_500, 10_000_500, 10_000_500]),
    (0, 999_991, 3, Ok(()), [10_000_500, 10_000_500, 10_000_500]),
    (1, 999_989, 3, Ok(()), [4_000_796, 4_000_800, 4_000_800]),
    // the last run, and one past the last time
    (0, 999_998, 3, Ok(()), [10_000_500, 10_000_500, 10_000_500]),
    (0, 999_999, 2, Ok(()), [10_000_500, 10_000_500, 7]),
    (0, 999_999, 3, Err(Refusal::PastEnd), UNTOUCHED),
    // a first time past the last
    (0, 1_000_001, 3, Err(Refusal::PastEnd), UNTOUCHED),
    (0, u32::MAX, 3, Err(Refusal::PastEnd), UNTOUCHED),
    // an empty slot, also where the times below are past the end
    (9, 0, 3, Err(Refusal::SlotEmpty), UNTOUCHED),
    (9, 999_989, 3, Err(Refusal::SlotEmpty), UNTOUCHED),
    (9, 999_998, 3, Err(Refusal::SlotEmpty), UNTOUCHED),
    // an empty slot past the end: the end is looked at first
    (9, 999_999, 3, Err(Refusal::PastEnd), UNTOUCHED),
    // no cells: at the last time, past it, of an empty slot, and of an empty slot past the last time
    (0, 1_000_000, 0, Ok(()), UNTOUCHED),
    (0, 1_000_001, 0, Err(Refusal::PastEnd), UNTOUCHED),
    (9, 1_000_000, 0, Err(Refusal::SlotEmpty), UNTOUCHED),
    (9, 1_000_001, 0, Err(Refusal::PastEnd), UNTOUCHED),
];

// Of a hopper with 500 coins at a rate of 10, and one with 800 at a rate of -4, late by the last time or
// more: every cell has the last amount.
const PAST_THE_END: [Run; 5] = [
    (0, 0, 3, Ok(()), [10_000_500, 10_000_500, 10_000_500]),
    (1, 0, 3, Ok(()), [-3_999_200, -3_999_200, -3_999_200]),
    (1, 999_998, 3, Ok(()), [-3_999_200, -3_999_200, -3_999_200]),
    (1, 999_999, 3, Err(Refusal::PastEnd), UNTOUCHED),
    (9, 0, 3, Err(Refusal::SlotEmpty), UNTOUCHED),
];

fn hoppers_late(rt: &impl Abort, d: Line, delay: u32, rows: &[Run]) -> Result<(), Fail> {
    tells_late(
        rt,
        pair(Line(500, 10), d)?,
        delay,
        Table {
            bound: 1,
            exchanges: &[],
            orders: &[],
            amounts: &[],
            runs: rows,
        },
    );
    Ok(())
}

#[test]
fn late_by_10(rt: HostRuntime) -> Result<(), Fail> {
    hoppers_late(&rt, Line(800, 4), 10, &LATE_BY_10)
}

#[test]
fn past_the_end_from_the_start(rt: HostRuntime) -> Result<(), Fail> {
    hoppers_late(&rt, Line(800, -4), 1_000_000, &PAST_THE_END)?;
    hoppers_late(&rt, Line(800, -4), u32::MAX, &PAST_THE_END)
}
