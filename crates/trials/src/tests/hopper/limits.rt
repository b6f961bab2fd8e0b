// Which hoppers can be made, and what they come to.
use crate::tests::made::Line;
use crate::tests::tables::comes_to;
use family::Refusal;
use hoppers::Hopper;
use std::test::Fail;

#[test]
fn edges(rt: HostRuntime) {
    let rows = [
        // the smallest capacity, and none
        (0, 0, 1, true),
        (0, 0, 0, false),
        // the largest capacity, one over it, and the largest number
        (0, 0, 1_000_000_000, true),
        (0, 0, 1_000_000_001, false),
        (0, 0, u32::MAX, false),
        // full at opening, and one coin over the capacity
        (3_000, 10, 3_000, true),
        (3_001, 10, 3_000, false),
        // the largest fill
        (1_000_000_000, 0, 1_000_000_000, true),
        // the fastest rate, and one over it
        (0, 1_000_000, 1, true),
        (0, 1_000_001, 1, false),
        // the same for coins that go out, and the smallest number
        (0, -1_000_000, 1, true),
        (0, -1_000_001, 1, false),
        (0, i32::MIN, 1, false),
    ];
    for (fill, rate, capacity, made) in rows {
        let told = Hopper::new(fill, rate, capacity).map(|h| (h.fill(), h.rate(), h.capacity()));
        let wanted = made.then_some((fill, rate, capacity));
        assert_eq!(rt; told, wanted.ok_or(Refusal::OutsideLimits));
    }
}

#[test]
fn fills(rt: HostRuntime) -> Result<(), Fail> {
    let rows = [
        // the largest amount, and the smallest
        (1_000_000_000, 1_000_000, 1_000_000, 1_001_000_000_000i64),
        (0, -1_000_000, 1_000_000, -1_000_000_000_000),
        // at opening, and past the capacity, which holds nothing back
        (500, 10, 0, 500),
        (1_000_000_000, 10, 300, 1_000_003_000),
        // a time past the last is read as the last
        (0, 1, 1_000_001, 1_000_000),
        (0, 1, u32::MAX, 1_000_000),
    ];
    for (fill, rate, t, amount) in rows {
        comes_to(&rt, &[(Line(fill, rate), t, amount)])?;
    }
    Ok(())
}

#[test]
fn numbers(rt: HostRuntime) {
    let rows = [
        (Refusal::PastEnd, 1),
        (Refusal::RangeReversed, 2),
        (Refusal::OutsideLimits, 3),
        (Refusal::ListingTooShort, 9),
        (Refusal::SlotFilled, 21),
        (Refusal::SlotEmpty, 22),
        (Refusal::BeforeClock, 23),
        (Refusal::NoCardStands, 24),
        (Refusal::PlaceTooShort, 25),
    ];
    for (refusal, number) in rows {
        assert_eq!(rt; refusal.number(), number);
    }
}
