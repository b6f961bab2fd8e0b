// When two fee cards trade places, by hand.
use super::{C, D};
use crate::tests::made::{Fee, adapted};
use crate::tests::tables::{LAST, Order, answered, both_told, empty_slots_last, ordered};
use family::Family;
use std::process::Abort;
use std::test::Fail;

// The highest cap.
const FAR: u64 = 1_000_000_000_000;

// As C and D, and neither is ever capped.
const FLAT: Fee = Fee(100, 2, FAR);

const STEEP: Fee = Fee(0, 5, FAR);

// Two fee cards; then all times at which "slot 0 is at or before slot 1" changes, and all at which "slot 1
// is at or before slot 0" does.
type Row<'a> = (Fee, Fee, &'a [u32], &'a [u32]);

fn agree(rt: &impl Abort, rows: &[Row<'_>]) -> Result<(), Fail> {
    for &(c, d, forth, back) in rows {
        both_told(rt, &adapted(c, d)?, forth, back);
    }
    Ok(())
}

#[test]
fn a_sample(rt: HostRuntime) -> Result<(), Fail> {
    agree(
        &rt,
        &[
            (C, D, &[34, 251], &[34, 250]),
            (D, C, &[34, 250], &[34, 251]),
        ],
    )
}

#[test]
fn a_cap_near_an_exchange(rt: HostRuntime) -> Result<(), Fail> {
    agree(
        &rt,
        &[
            // the flatter card is capped one coin before the exchange at 34, at it, and one after it
            (Fee(100, 2, 166), STEEP, &[34], &[34]),
            (Fee(100, 2, 168), STEEP, &[34], &[34]),
            (Fee(100, 2, 170), STEEP, &[34], &[34]),
            // its cap makes them level at 33, and makes it the cheaper there
            (Fee(100, 2, 165), STEEP, &[33], &[34]),
            (Fee(100, 2, 164), STEEP, &[33], &[33]),
            // the steeper card is capped one coin before it would pass the other: it never does
            (Fee(0, 5, 165), FLAT, &[], &[]),
            // at that coin: it stays below, is level once, or is dearer for one coin
            (Fee(0, 5, 167), FLAT, &[], &[]),
            (Fee(0, 5, 168), FLAT, &[], &[34, 35]),
            (Fee(0, 5, 169), FLAT, &[34, 35], &[34, 35]),
            (Fee(0, 5, 170), FLAT, &[34, 35], &[34, 36]),
            // one coin after it: dearer for two
            (Fee(0, 5, 171), FLAT, &[34, 36], &[34, 36]),
            (Fee(0, 5, 172), FLAT, &[34, 36], &[34, 37]),
        ],
    )
}

#[test]
fn both_caps_at_once(rt: HostRuntime) -> Result<(), Fail> {
    agree(
        &rt,
        &[
            // both are reached at 10, the steeper card's by 1 and the other's by 2: the difference turns back
            // there, from level, to level, and above it
            (Fee(0, 5, 46), Fee(27, 2, 47), &[], &[9, 10]),
            (Fee(0, 5, 46), Fee(26, 2, 46), &[9, 10], &[9]),
            (Fee(0, 5, 46), Fee(25, 2, 45), &[9], &[9]),
            // the same in the other order of the two
            (Fee(27, 2, 47), Fee(0, 5, 46), &[9, 10], &[]),
            (Fee(26, 2, 46), Fee(0, 5, 46), &[9], &[9, 10]),
            // the steeper card's by 5 and the other's by 1: the difference goes on
            (Fee(0, 5, 50), Fee(27, 2, 46), &[10], &[9]),
            (Fee(0, 5, 50), Fee(28, 2, 47), &[10], &[10]),
            // each by 1: the difference stands still
            (Fee(0, 5, 46), Fee(27, 2, 46), &[], &[9]),
        ],
    )
}

#[test]
fn low_caps(rt: HostRuntime) -> Result<(), Fail> {
    agree(
        &rt,
        &[
            // a cap of 0, and two of them
            (Fee(100, 2, 0), D, &[], &[1]),
            (Fee(100, 2, 0), Fee(0, 5, 0), &[], &[]),
            // a cap below the opening fee, at it, and two below it
            (Fee(1_000, 7, 300), D, &[60], &[61]),
            (Fee(300, 7, 300), D, &[60], &[61]),
            (Fee(1_000, 7, 300), Fee(2_000, 1, 299), &[], &[]),
        ],
    )
}

#[test]
fn ties(rt: HostRuntime) -> Result<(), Fail> {
    agree(
        &rt,
        &[
            // the same card twice, and two cards with the same charges
            (D, D, &[], &[]),
            (Fee(5, 0, 10), Fee(5, 3, 5), &[], &[]),
            // one rate: other opening fees, then other caps that turn the order, then other caps alone
            (Fee(0, 5, 600), Fee(10, 5, 1_000), &[], &[]),
            (Fee(0, 5, 1_000), Fee(10, 5, 600), &[121], &[120]),
            (Fee(0, 5, 1_000), Fee(0, 5, 600), &[121], &[]),
            // no rate at all
            (Fee(5, 0, 9), Fee(6, 0, 9), &[], &[]),
        ],
    )
}

// A card that charges 1 for each coin, and one that charges as much for all as that for the last but one.
const ONE: Fee = Fee(0, 1, FAR);

const STILL: Fee = Fee(999_999, 0, FAR);

// The highest card, the highest rate alone, and the highest opening fee alone.
const MOST: Fee = Fee(1_000_000_000, 1_000_000, FAR);

const FASTEST: Fee = Fee(0, 1_000_000, FAR);

const DEAREST: Fee = Fee(1_000_000_000, 0, FAR);

// Charges 4,999,994 at the last time but one.
const LATE: Fee = Fee(2_999_996, 2, FAR);

#[test]
fn last_coins(rt: HostRuntime) -> Result<(), Fail> {
    agree(
        &rt,
        &[
            // no cap is reached: level at the last time but one, at the last, and past it
            (ONE, STILL, &[LAST], &[999_999]),
            (ONE, Fee(1_000_000, 0, FAR), &[], &[LAST]),
            (ONE, Fee(1_000_001, 0, FAR), &[], &[]),
            // a cap is reached at the last time, and one before it
            (Fee(0, 1, 1_000_000), STILL, &[LAST], &[999_999]),
            (Fee(0, 1, 999_999), STILL, &[], &[999_999]),
            // dearer at the last time but one alone: the cap at the last time turns the difference back
            (Fee(0, 5, 4_999_996), LATE, &[999_999, LAST], &[999_999]),
            // level at the last time, where the second cap is reached too
            (MOST, FASTEST, &[LAST], &[]),
            // the highest numbers, level early
            (FASTEST, DEAREST, &[1_001], &[1_000]),
            // the highest opening fee is passed at once
            (MOST, DEAREST, &[1], &[]),
        ],
    )
}

#[test]
fn starts_and_ends(rt: HostRuntime) -> Result<(), Fail> {
    answered(
        &rt,
        &adapted(C, D)?,
        &[
            // an end before the first exchange, at it and after it
            (0, 33, None, None),
            (0, 34, Some(34), Some(34)),
            (0, 35, Some(34), Some(34)),
            // the whole range, at whose two ends neither fact differs
            (0, LAST, Some(34), Some(34)),
            (33, 251, Some(34), Some(34)),
            // an end before the second exchange of either order, at it and after it
            (34, 249, None, None),
            (34, 250, None, Some(250)),
            (34, 251, Some(251), Some(250)),
            (34, LAST, Some(251), Some(250)),
            // a start just before, at and just after the second exchange
            (249, LAST, Some(251), Some(250)),
            (250, LAST, Some(251), None),
            (251, LAST, None, None),
            // the end is the start, and before it
            (33, 33, None, None),
            (300, 20, None, None),
            // an end past the last time is read as the last, and so is a start
            (34, u32::MAX, Some(251), Some(250)),
            (LAST, u32::MAX, None, None),
            (LAST + 1, u32::MAX, None, None),
            (u32::MAX, 34, None, None),
        ],
    );
    Ok(())
}

#[test]
fn past_the_last_time(rt: HostRuntime) -> Result<(), Fail> {
    answered(
        &rt,
        &adapted(ONE, Fee(1_000_000, 0, FAR))?,
        &[
            // an exchange at the last time: asked up to it, and up to one before it
            (0, LAST, None, Some(LAST)),
            (0, LAST - 1, None, None),
            // an end past it
            (0, LAST + 1, None, Some(LAST)),
            (LAST - 1, u32::MAX, None, Some(LAST)),
            // a start at it, and past it
            (LAST, LAST + 1, None, None),
            (LAST + 1, u32::MAX, None, None),
        ],
    );
    Ok(())
}

const ORDERS: [Order; 11] = [
    // the sample at its exchanges, and past the last time
    (0, 1, 33, false),
    (1, 0, 33, true),
    (0, 1, 34, true),
    (1, 0, 34, false),
    (0, 1, 250, true),
    (1, 0, 250, true),
    (0, 1, 251, false),
    (1, 0, u32::MAX, true),
    // a filled and an empty slot, an empty and a filled one, and two empty ones
    (0, 9, 0, true),
    (9, 0, 0, false),
    (8, 9, 0, true),
];

#[test]
fn orders(rt: HostRuntime) -> Result<(), Fail> {
    let family = adapted(C, D)?;
    ordered(&rt, &family, &ORDERS);
    empty_slots_last(&rt, &family);
    assert_eq!(rt; family.bound(), 2);
    Ok(())
}
