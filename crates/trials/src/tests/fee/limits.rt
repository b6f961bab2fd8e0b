// Which fee cards can be made, and what they charge.
use super::{C, D};
use crate::tests::made::{Fee, Made};
use crate::tests::tables::{LAST, comes_to};
use family::Refusal;
use std::test::Fail;

const HIGHEST: Fee = Fee(1_000_000_000, 1_000_000, 1_000_000_000_000);

// Numbers to make a fee card of, and whether one is made.
const EDGES: [(Fee, bool); 15] = [
    // nothing at all, and all three at their highest
    (Fee(0, 0, 0), true),
    (HIGHEST, true),
    // the highest opening fee, one over it, and the largest number
    (Fee(1_000_000_000, 0, 0), true),
    (Fee(1_000_000_001, 0, 0), false),
    (Fee(u32::MAX, 0, 0), false),
    // the same for the rate
    (Fee(0, 1_000_000, 0), true),
    (Fee(0, 1_000_001, 0), false),
    (Fee(0, u32::MAX, 0), false),
    // the same for the cap
    (Fee(0, 0, 1_000_000_000_000), true),
    (Fee(0, 0, 1_000_000_000_001), false),
    (Fee(0, 0, u64::MAX), false),
    // a cap whose low 32 bits are 0, within the limit and past it
    (Fee(0, 0, 1 << 32), true),
    (Fee(0, 0, 1 << 63), false),
    // a cap at the opening fee, and below it
    (Fee(300, 7, 300), true),
    (Fee(301, 7, 300), true),
];

#[test]
fn edges(rt: HostRuntime) {
    for (fee, made) in EDGES {
        let told = fee
            .card()
            .map(|card| Fee(card.opening(), card.rate(), card.cap()));
        assert_eq!(rt; told, made.then_some(fee).ok_or(Refusal::OutsideLimits));
    }
}

#[test]
fn charges(rt: HostRuntime) -> Result<(), Fail> {
    comes_to(
        &rt,
        &[
            // no coin, one, the last below the cap, the first at it, and one more
            (C, 0, 100),
            (C, 1, 102),
            (C, 449, 998),
            (C, 450, 1_000),
            (C, 451, 1_000),
            // the step that reaches the cap is shorter than the rate
            (Fee(100, 2, 999), 449, 998),
            (Fee(100, 2, 999), 450, 999),
            // the last time, and past it
            (Fee(0, 1, 1_000_001), LAST - 1, 999_999),
            (Fee(0, 1, 1_000_001), LAST, 1_000_000),
            (Fee(0, 1, 1_000_001), LAST + 1, 1_000_000),
            (Fee(0, 1, 1_000_001), u32::MAX, 1_000_000),
            (D, u32::MAX, 600),
        ],
    )
}

#[test]
fn caps(rt: HostRuntime) -> Result<(), Fail> {
    comes_to(
        &rt,
        &[
            // below the opening fee: the cap throughout
            (Fee(1_000, 7, 300), 0, 300),
            (Fee(1_000, 7, 300), 1, 300),
            (Fee(1_000, 7, 300), LAST, 300),
            (Fee(1_000, 7, 300), u32::MAX, 300),
            // none is charged
            (Fee(100, 2, 0), 0, 0),
            (Fee(100, 2, 0), 1, 0),
            (Fee(100, 2, 0), LAST, 0),
            // the highest card reaches the highest cap, and would pass it
            (HIGHEST, 0, 1_000_000_000),
            (HIGHEST, 998_999, 999_999_000_000),
            (HIGHEST, 999_000, 1_000_000_000_000),
            (HIGHEST, LAST, 1_000_000_000_000),
            (HIGHEST, u32::MAX, 1_000_000_000_000),
        ],
    )
}
