// Fee cards as a turning family: what is told of them, and that the time told turns the difference.
use super::{C, D};
use crate::tests::made::{Fee, Made, pair};
use crate::tests::random::{Random, small_fee};
use crate::tests::tables::{kept, priced};
use crate::tests::turned::turning;
use std::ops::Range;
use std::process::Abort;
use std::test::Fail;

#[test]
fn a_turning_family(rt: HostRuntime) -> Result<(), Fail> {
    let mut family = pair(C, D)?;
    kept(&rt, &mut family, C.card()?, D.card()?, D.card()?);
    priced(
        &rt,
        &family,
        &[
            (0, 50, Some(200)),
            // a time past the last is read as the last
            (0, u32::MAX, Some(1_000)),
            // an empty slot
            (9, 0, None),
        ],
    );
    Ok(())
}

#[test]
fn small_cards(rt: HostRuntime) -> Result<(), Fail> {
    turning(&rt, C, D)?;
    for seed in Random(3).take(1_000) {
        turning(&rt, small_fee(seed >> 20), small_fee(seed >> 40))?;
    }
    Ok(())
}

// A steeper card with each of some caps turns a flatter one with each of others, whichever comes first.
fn caps(rt: &impl Abort, steep: Range<u64>, opening: u32, flat: Range<u64>) -> Result<(), Fail> {
    for steep in steep {
        for flat in flat.start..flat.end {
            let c = Fee(0, 5, steep);
            let d = Fee(opening, 2, flat);
            turning(rt, c, d)?;
            turning(rt, d, c)?;
        }
    }
    Ok(())
}

// The steeper card reaches a cap of 41 to 55 at 9, 10 or 11 coins, and so the other one of 44 to 49: at the
// same time, one apart or two apart, and by a shorter or a longer step.
#[test]
fn caps_close_together(rt: HostRuntime) -> Result<(), Fail> {
    caps(&rt, 41..56, 27, 44..50)
}

// The same two before the last time, one before it, at it, or never.
#[test]
fn caps_at_the_last_time(rt: HostRuntime) -> Result<(), Fail> {
    caps(&rt, 4_999_990..5_000_003, 2_999_996, 4_999_992..4_999_999)
}
