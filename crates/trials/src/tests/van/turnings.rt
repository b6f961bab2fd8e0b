// Turning times of two vans.
use crate::tests::made::Path;
use crate::tests::random::Random;
use crate::tests::tables::LAST;
use crate::tests::turned::turning;
use std::test::Fail;

#[test]
fn turned_by_hand(rt: HostRuntime) -> Result<(), Fail> {
    // two vans, and the first and the last time at which their difference can be said to turn
    let rows = [
        // one that stands, and one that passes at minute 3
        (Path(200, 0, 0, 0), Path(-300, 0, 100, 0), 3, 3),
        // one that passes between minutes 2 and 3, as near at both
        (Path(200, 0, 0, 0), Path(-250, 0, 100, 0), 2, 3),
        // one that has passed before opening: any time will do
        (Path(200, 0, 0, 0), Path(300, 0, 100, 0), 0, LAST),
    ];
    for (c, d, first, last) in rows {
        let told = turning(&rt, c, d)?;
        assert!(rt; (first..=last).contains(&told));
    }
    Ok(())
}

#[test]
fn turned_at_random(rt: HostRuntime) -> Result<(), Fail> {
    for seed in Random(3).take(100) {
        let c = Path(
            ((seed >> 8) & 0xff) as i32 - 128,
            40,
            ((seed >> 20) & 0xf) as i16 - 8,
            1,
        );
        let d = Path(
            ((seed >> 30) & 0xff) as i32 - 128,
            9,
            ((seed >> 44) & 0xf) as i16 - 8,
            2,
        );
        turning(&rt, c, d)?;
    }
    Ok(())
}
