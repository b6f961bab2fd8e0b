// Hoppers by formula and by bisection.
// Some rows stand in the trials of hoppers too: each table is whole, so that it can be read by itself.
use crate::tests::both_ways::{both_ways, every_minute_both_ways};
use crate::tests::made::{Line, pair};
use crate::tests::random::{Random, small_line};
use crate::tests::tables::{LAST, Table, UNTOUCHED, tells};
use adapter::Adapter;
use family::Refusal;
use std::test::Fail;

#[test]
fn signs_and_ties(rt: HostRuntime) -> Result<(), Fail> {
    both_ways(
        &rt,
        &[
            // the gap is above 0 and closes on a minute, and below 0
            (Line(500, 10), Line(800, 4), 0, LAST, Some(51), Some(50)),
            (Line(800, 4), Line(500, 10), 0, LAST, Some(50), Some(51)),
            // between two minutes
            (Line(500, 10), Line(801, 4), 0, LAST, Some(51), Some(51)),
            (Line(801, 4), Line(500, 10), 0, LAST, Some(51), Some(51)),
            // the gap opens
            (Line(500, 4), Line(801, 10), 0, LAST, None, None),
            // both drain
            (Line(1_000, -7), Line(900, -2), 0, LAST, Some(20), Some(21)),
            // the same hopper twice, and one rate with another fill
            (Line(7, 3), Line(7, 3), 0, LAST, None, None),
            (Line(7, 3), Line(8, 3), 0, LAST, None, None),
            // level at opening, and the first gains or loses
            (Line(9, 1), Line(9, 0), 0, LAST, Some(1), None),
            (Line(9, -1), Line(9, 0), 0, LAST, None, Some(1)),
        ],
    )
}

// A hopper that is empty at opening, and gains a coin a minute.
const GAINS: Line = Line(0, 1);

#[test]
fn starts_and_ends(rt: HostRuntime) -> Result<(), Fail> {
    both_ways(
        &rt,
        &[
            // asked just before a tie, at it and just after it
            (Line(500, 10), Line(800, 4), 49, LAST, Some(51), Some(50)),
            (Line(500, 10), Line(800, 4), 50, LAST, Some(51), None),
            (Line(500, 10), Line(800, 4), 51, LAST, None, None),
            // the end is the exchange of one order, before both, and before the start
            (Line(500, 10), Line(800, 4), 0, 50, None, Some(50)),
            (Line(500, 10), Line(800, 4), 0, 49, None, None),
            (Line(500, 10), Line(800, 4), 60, 40, None, None),
            // level at the last minute but one, at the last, and past it
            (GAINS, Line(999_999, 0), 0, LAST, Some(LAST), Some(999_999)),
            (GAINS, Line(1_000_000, 0), 0, u32::MAX, None, Some(LAST)),
            (GAINS, Line(1_000_001, 0), 0, LAST, None, None),
            // a start past the last minute
            (GAINS, Line(1_000_000, 0), LAST + 1, u32::MAX, None, None),
        ],
    )
}

#[test]
fn every_minute(rt: HostRuntime) -> Result<(), Fail> {
    for seed in Random(1).take(500) {
        let t = (seed >> 60) as u32;
        every_minute_both_ways(&rt, small_line(seed >> 20), small_line(seed >> 40), t)?;
    }
    Ok(())
}

// A hopper with 500 coins at a rate of 10, and one with 800 at a rate of 4.
const LEVEL_AT_50: Table<'static> = Table {
    bound: 2,
    exchanges: &[(0, LAST, Some(51), Some(50)), (51, LAST, None, None)],
    orders: &[
        (1, 0, 49, false),
        (0, 1, 50, true),
        (1, 0, 50, true),
        (0, 1, 51, false),
        (0, 9, 0, true),
        (9, 0, 0, false),
    ],
    amounts: &[
        (0, 50, Some(1_000)),
        (1, u32::MAX, Some(4_000_800)),
        (9, 0, None),
    ],
    runs: &[
        (0, 999_998, 3, Ok(()), [10_000_480, 10_000_490, 10_000_500]),
        (0, 999_999, 3, Err(Refusal::PastEnd), UNTOUCHED),
        (9, 0, 3, Err(Refusal::SlotEmpty), UNTOUCHED),
    ],
};

#[test]
fn through_the_adapter(rt: HostRuntime) -> Result<(), Fail> {
    tells(
        &rt,
        &Adapter(pair(Line(500, 10), Line(800, 4))?),
        LEVEL_AT_50,
    );
    Ok(())
}
