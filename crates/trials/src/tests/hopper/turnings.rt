// Hoppers as a turning family.
use crate::tests::made::{Line, Made, pair};
use crate::tests::tables::{kept, priced};
use crate::tests::turned::{turned, turning};
use family::TurningFamily;
use std::test::Fail;

#[test]
fn a_turning_family(rt: HostRuntime) -> Result<(), Fail> {
    let (c, d) = (Line(500, 10), Line(800, 4));
    let mut family = pair(c, d)?;
    kept(&rt, &mut family, c.card()?, d.card()?, d.card()?);
    priced(
        &rt,
        &family,
        &[
            (0, 50, Some(1_000)),
            // a time past the last is read as the last
            (0, u32::MAX, Some(10_000_500)),
            // an empty slot
            (9, 0, None),
        ],
    );
    // any time turns two lines, but it must be one
    turned(&rt, &family, family.turning(c.card()?, d.card()?));
    turning(&rt, c, d)?;
    Ok(())
}
