// When two hoppers trade places, by hand and by looking at every minute.
use crate::tests::both_ways::{both_ways, every_minute_both_ways};
use crate::tests::made::{Line, pair};
use crate::tests::random::{Random, small_line};
use crate::tests::tables::{LAST, both_ordered, empty_slots_last};
use family::Family;
use std::test::Fail;

#[test]
fn signs(rt: HostRuntime) -> Result<(), Fail> {
    both_ways(
        &rt,
        &[
            // the gap is above 0 and closes, on a minute
            (Line(500, 10), Line(800, 4), 0, LAST, Some(51), Some(50)),
            // below 0
            (Line(800, 4), Line(500, 10), 0, LAST, Some(50), Some(51)),
            // above 0, between two minutes
            (Line(500, 10), Line(801, 4), 0, LAST, Some(51), Some(51)),
            // below 0, between two minutes
            (Line(801, 4), Line(500, 10), 0, LAST, Some(51), Some(51)),
            // the gap is above 0 and opens: they met before opening
            (Line(500, 4), Line(801, 10), 0, LAST, None, None),
            // below 0
            (Line(801, 10), Line(500, 4), 0, LAST, None, None),
            // both drain
            (Line(1_000, -7), Line(900, -2), 0, LAST, Some(20), Some(21)),
        ],
    )
}

#[test]
fn ties(rt: HostRuntime) -> Result<(), Fail> {
    both_ways(
        &rt,
        &[
            // the same hopper twice
            (Line(7, 3), Line(7, 3), 0, LAST, None, None),
            // one rate and another fill
            (Line(7, 3), Line(8, 3), 0, LAST, None, None),
            // level at opening, and the first gains
            (Line(9, 1), Line(9, 0), 0, LAST, Some(1), None),
            // level at opening, and the first loses
            (Line(9, -1), Line(9, 0), 0, LAST, None, Some(1)),
            // asked just before the tie, at it and just after it
            (Line(500, 10), Line(800, 4), 49, LAST, Some(51), Some(50)),
            (Line(500, 10), Line(800, 4), 50, LAST, Some(51), None),
            (Line(500, 10), Line(800, 4), 51, LAST, None, None),
        ],
    )
}

#[test]
fn ends(rt: HostRuntime) -> Result<(), Fail> {
    let (c, d) = (Line(500, 10), Line(800, 4));
    let gains = Line(0, 1);
    both_ways(
        &rt,
        &[
            // the end is the exchange of one order, and before both
            (c, d, 0, 50, None, Some(50)),
            (c, d, 0, 49, None, None),
            // the end is the start, and before it
            (c, d, 49, 49, None, None),
            (c, d, 40, 30, None, None),
            // level at the last minute but one, at the last, and past it
            (gains, Line(999_999, 0), 0, LAST, Some(LAST), Some(999_999)),
            (gains, Line(1_000_000, 0), 0, LAST, None, Some(LAST)),
            (gains, Line(1_000_001, 0), 0, LAST, None, None),
            // an end past the last minute is read as the last, and so is a start
            (gains, Line(1_000_000, 0), 0, u32::MAX, None, Some(LAST)),
            (gains, Line(1_000_000, 0), LAST + 1, u32::MAX, None, None),
        ],
    )
}

#[test]
fn largest_rates(rt: HostRuntime) -> Result<(), Fail> {
    let full = Line(1_000_000_000, -1_000_000);
    let empty = Line(0, 1_000_000);
    both_ways(
        &rt,
        &[
            (full, empty, 0, LAST, Some(500), Some(501)),
            (empty, full, 0, LAST, Some(501), Some(500)),
        ],
    )
}

#[test]
fn empty_slots(rt: HostRuntime) -> Result<(), Fail> {
    let family = pair(Line(500, 10), Line(800, 4))?;
    empty_slots_last(&rt, &family);
    assert_eq!(rt; family.bound(), 1);
    Ok(())
}

#[test]
fn compared_at_times(rt: HostRuntime) -> Result<(), Fail> {
    let family = pair(Line(0, 1), Line(1_000_000, 0))?;
    let rows = [
        (0, true, false),
        (999_999, true, false),
        (1_000_000, true, true),
        (1_000_001, true, true),
        (4_294_967_295, true, true),
    ];
    both_ordered(&rt, &family, &rows);
    Ok(())
}

#[test]
fn every_minute(rt: HostRuntime) -> Result<(), Fail> {
    for seed in Random(1).take(500) {
        let t = ((seed >> 56) & 0x3f) as u32;
        every_minute_both_ways(&rt, small_line(seed >> 20), small_line(seed >> 40), t)?;
    }
    Ok(())
}
