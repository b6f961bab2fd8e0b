// The mirror of hoppers, in which the fullest comes first.
use crate::tests::made::{Line, pair};
use crate::tests::tables::{LAST, answered, both_ordered, empty_slots_last, priced};
use family::{CardSlots, Family, Priced, Refusal};
use hoppers::Hopper;
use layers::Mirror;
use std::test::Fail;

#[test]
fn turned_round(rt: HostRuntime) -> Result<(), Fail> {
    let mirror = Mirror(pair(Line(500, 10), Line(800, 4))?);
    let rows = [
        (0, false, true),
        (49, false, true),
        (50, true, true),
        (51, true, false),
        (1_000_000, true, false),
        (4_294_967_295, true, false),
    ];
    both_ordered(&rt, &mirror, &rows);
    answered(&rt, &mirror, &[(0, LAST, Some(50), Some(51))]);
    assert_eq!(rt; mirror.bound(), 1);
    Ok(())
}

#[test]
fn empty_slots_stay_last(rt: HostRuntime) -> Result<(), Fail> {
    let mirror = Mirror(pair(Line(500, 10), Line(800, 4))?);
    empty_slots_last(&rt, &mirror);
    Ok(())
}

#[test]
fn amounts_are_negated(rt: HostRuntime) -> Result<(), Fail> {
    let mirror = Mirror(pair(Line(500, 10), Line(800, -4))?);
    priced(&rt, &mirror, &[(0, LAST, Some(-10_000_500)), (9, 0, None)]);
    let mut cells = [7i64; 3];
    assert_eq!(rt; mirror.amounts(1, 199, &mut cells), Ok(()));
    assert_eq!(rt; cells, [-4, 0, 4]);
    assert_eq!(rt;
        mirror.amounts(1, 999_999, &mut cells),
        Err(Refusal::PastEnd)
    );
    assert_eq!(rt; mirror.amounts(9, 0, &mut cells), Err(Refusal::SlotEmpty));
    assert_eq!(rt; cells, [-4, 0, 4]);
    Ok(())
}

#[test]
fn a_mirror_of_a_mirror(rt: HostRuntime) -> Result<(), Fail> {
    let mut twice = Mirror(Mirror(pair(Line(500, 10), Line(800, 4))?));
    assert_eq!(rt; twice.next_exchange(0, 1, 0, LAST), Some(51));
    assert_eq!(rt; twice.amount_at(0, 3), Some(530));
    assert_eq!(rt;
        twice.put(0, Hopper::new(1, 2, 3)?),
        Err(Refusal::SlotFilled)
    );
    assert_eq!(rt; twice.lift(0), Ok(()));
    assert_eq!(rt; twice.lift(0), Err(Refusal::SlotEmpty));
    Ok(())
}
