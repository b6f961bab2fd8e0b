// Put, lift and card.
use crate::tests::made::{Line, Made, pair};
use family::{CardSlots, Refusal};
use hoppers::Hopper;
use std::test::Fail;

const C: Line = Line(500, 10);

const D: Line = Line(800, 4);

#[test]
fn filled_twice(rt: HostRuntime) -> Result<(), Fail> {
    let mut family = pair(C, D)?;
    assert_eq!(rt; family.put(0, D.card()?), Err(Refusal::SlotFilled));
    assert_eq!(rt;
        family.card(0),
        Some(C.card()?),
        "the card that stood there stands"
    );
    assert_eq!(rt; family.card(1), Some(D.card()?), "and so does the other");
    Ok(())
}

#[test]
fn lifted_twice(rt: HostRuntime) -> Result<(), Fail> {
    let mut family = pair(C, D)?;
    assert_eq!(rt; family.lift(0), Ok(()));
    assert_eq!(rt; family.card(0), None);
    assert_eq!(rt; family.lift(0), Err(Refusal::SlotEmpty));
    assert_eq!(rt; family.card(1), Some(D.card()?), "the other stands");
    Ok(())
}

#[test]
fn first_and_last_slot(rt: HostRuntime) -> Result<(), Fail> {
    let mut family = pair(C, D)?;
    let last = Hopper::new(1, -2, 3)?;
    assert_eq!(rt; family.card(255), None);
    assert_eq!(rt; family.put(255, last), Ok(()));
    assert_eq!(rt; family.card(255), Some(last));
    assert_eq!(rt; family.card(254), None);
    assert_eq!(rt; family.card(0), Some(C.card()?));
    assert_eq!(rt; family.lift(255), Ok(()));
    assert_eq!(rt; family.lift(255), Err(Refusal::SlotEmpty));
    Ok(())
}
