// Late starts: what is told of a family is what is told below some time later.
use super::{sample, tells_late};
use crate::tests::made::{Line, pair};
use crate::tests::tables::{LAST, Table, both_told, ordered, priced};
use family::PricedFamily;
use layers::LateStart;
use std::process::Abort;
use std::test::Fail;

#[test]
fn delays(rt: HostRuntime) {
    let rows = [
        (0, 0),
        (1, 1),
        (999_999, 999_999),
        (1_000_000, 1_000_000),
        // above the last time it is read as the last
        (1_000_001, 1_000_000),
        (u32::MAX, 1_000_000),
    ];
    for (delay, told) in rows {
        assert_eq!(rt; LateStart::new((), delay).delay(), told);
    }
}

// A delay; then all times at which "slot 0 is at or before slot 1" changes, and all at which "slot 1 is at or
// before slot 0" does; then whether the first holds at 0, and the amount of slot 0 there.
type Row<'a> = (u32, &'a [u32], &'a [u32], bool, i64);

// A family that is asked late again and again.
fn agree_late<F: PricedFamily + Drop>(rt: &impl Abort, family: F, rows: &[Row<'_>]) {
    let mut below = family;
    for &(delay, forth, back, order, amount) in rows {
        let late = LateStart::new(below, delay);
        both_told(rt, &late, forth, back);
        ordered(rt, &late, &[(0, 1, 0, order)]);
        priced(rt, &late, &[(0, 0, Some(amount))]);
        below = late.below;
    }
}

#[test]
fn a_sample(rt: HostRuntime) -> Result<(), Fail> {
    agree_late(
        &rt,
        sample()?,
        &[
            // as below, and one coin sooner
            (0, &[34, 251], &[34, 250], false, 100),
            (1, &[33, 250], &[33, 249], false, 102),
            // the first exchange is one coin off, at the start, and before it
            (33, &[1, 218], &[1, 217], false, 166),
            (34, &[217], &[216], true, 168),
            (35, &[216], &[215], true, 170),
            // and so the second
            (249, &[2], &[1], true, 598),
            (250, &[1], &[], true, 600),
            (251, &[], &[], false, 602),
            // long past
            (999_999, &[], &[], false, 1_000),
            (1_000_000, &[], &[], false, 1_000),
            (1_000_001, &[], &[], false, 1_000),
            (u32::MAX, &[], &[], false, 1_000),
        ],
    );
    Ok(())
}

// Two hoppers that are level at the last time but one.
#[test]
fn up_to_the_last_time(rt: HostRuntime) -> Result<(), Fail> {
    agree_late(
        &rt,
        pair(Line(0, 1), Line(999_999, 0))?,
        &[
            // as below, and one minute sooner
            (0, &[LAST], &[999_999], true, 0),
            (1, &[999_999], &[999_998], true, 1),
            // one minute off, level at the start, and past it
            (999_998, &[2], &[1], true, 999_998),
            (999_999, &[1], &[], true, 999_999),
            (1_000_000, &[], &[], false, 1_000_000),
            // a longer delay is read as that
            (1_000_001, &[], &[], false, 1_000_000),
            (u32::MAX, &[], &[], false, 1_000_000),
        ],
    );
    Ok(())
}

// The sample, late by 34.
const LATE_BY_34: Table<'static> = Table {
    bound: 2,
    exchanges: &[
        // an end before the exchange of either order, at it and after it
        (0, 215, None, None),
        (0, 216, None, Some(216)),
        (0, 217, Some(217), Some(216)),
        (0, LAST, Some(217), Some(216)),
        (0, u32::MAX, Some(217), Some(216)),
        // a start just before it, at it and just after it
        (215, LAST, Some(217), Some(216)),
        (216, LAST, Some(217), None),
        (217, LAST, None, None),
        // the end is the start, and before it
        (215, 215, None, None),
        (300, 20, None, None),
    ],
    orders: &[
        // at 34, 249, 250 and 251 below, and past the last time
        (0, 1, 0, true),
        (1, 0, 0, false),
        (0, 1, 215, true),
        (1, 0, 215, false),
        (1, 0, 216, true),
        (0, 1, 216, true),
        (0, 1, 217, false),
        (0, 1, u32::MAX, false),
        // empty slots stay last
        (0, 9, 0, true),
        (9, 0, 0, false),
        (8, 9, 0, true),
    ],
    amounts: &[
        // at 34 below, where either cap is reached, past the last time, and of an empty slot
        (0, 0, Some(168)),
        (1, 0, Some(170)),
        (1, 85, Some(595)),
        (1, 86, Some(600)),
        (0, 415, Some(998)),
        (0, 416, Some(1_000)),
        (0, LAST, Some(1_000)),
        (0, u32::MAX, Some(1_000)),
        (9, 0, None),
    ],
    runs: &[
        // up to a cap, over it, and past the end below
        (1, 84, 3, Ok(()), [590, 595, 600]),
        (0, 415, 3, Ok(()), [998, 1_000, 1_000]),
        (0, 999_998, 3, Ok(()), [1_000, 1_000, 1_000]),
    ],
};

#[test]
fn a_sample_late_by_34(rt: HostRuntime) -> Result<(), Fail> {
    tells_late(&rt, sample()?, 34, LATE_BY_34);
    Ok(())
}

// Two hoppers that are level at the last time, late by 10.
const LEVEL_AT_LAST: Table<'static> = Table {
    bound: 1,
    exchanges: &[
        // up to where the time below is the last, one before it, and past it
        (0, 999_990, None, Some(999_990)),
        (0, 999_989, None, None),
        (0, 999_991, None, Some(999_990)),
        (0, u32::MAX, None, Some(999_990)),
        // from one before where the time below is the last, from there, and from past it
        (999_989, LAST, None, Some(999_990)),
        (999_990, LAST, None, None),
        (999_991, LAST, None, None),
        (LAST, u32::MAX, None, None),
        (u32::MAX, u32::MAX, None, None),
    ],
    orders: &[
        // one before the last time below, at it, and past it
        (1, 0, 999_989, false),
        (1, 0, 999_990, true),
        (1, 0, 999_991, true),
        (1, 0, u32::MAX, true),
    ],
    amounts: &[
        // the same
        (0, 999_989, Some(999_999)),
        (0, 999_990, Some(1_000_000)),
        (0, 999_991, Some(1_000_000)),
        (0, u32::MAX, Some(1_000_000)),
    ],
    runs: &[],
};

#[test]
fn past_the_end_below(rt: HostRuntime) -> Result<(), Fail> {
    tells_late(
        &rt,
        pair(Line(0, 1), Line(1_000_000, 0))?,
        10,
        LEVEL_AT_LAST,
    );
    Ok(())
}
