// When two vans trade places, by formula and by bisection, by hand and by looking at every minute.
use crate::tests::both_ways::{both_ways, every_minute_both_ways};
use crate::tests::made::Path;
use crate::tests::random::{Random, small_path};
use crate::tests::tables::LAST;
use std::test::Fail;

const STANDS: Path = Path(200, 0, 0, 0);

const PASSES: Path = Path(-300, 0, 100, 0);

#[test]
fn one_that_passes(rt: HostRuntime) -> Result<(), Fail> {
    both_ways(
        &rt,
        &[
            // level at 1 and at 5
            (STANDS, PASSES, 0, LAST, Some(2), Some(1)),
            // from one exchange to the next
            (STANDS, PASSES, 2, LAST, Some(5), Some(6)),
            (STANDS, PASSES, 5, LAST, None, Some(6)),
            (STANDS, PASSES, 6, LAST, None, None),
            // the end is before, at and after an exchange
            (STANDS, PASSES, 0, 1, None, Some(1)),
            (STANDS, PASSES, 2, 4, None, None),
            (STANDS, PASSES, 2, 5, Some(5), None),
            // no time lies between
            (STANDS, PASSES, 3, 3, None, None),
            (STANDS, PASSES, 4, 2, None, None),
        ],
    )
}

#[test]
fn paths_that_touch(rt: HostRuntime) -> Result<(), Fail> {
    let far = Path(0, 100, 0, 0);
    both_ways(
        &rt,
        &[
            // as near at minute 3 alone
            (far, Path(-300, 100, 100, 0), 0, LAST, None, Some(3)),
            (far, Path(-300, 100, 100, 0), 3, LAST, None, Some(4)),
            // as near between two minutes alone
            (far, Path(-250, 100, 100, 0), 0, LAST, None, None),
            // nearer between two minutes alone
            (far, Path(-250, 90, 100, 0), 0, LAST, None, None),
            // never as near
            (far, Path(-300, 101, 100, 0), 0, LAST, None, None),
        ],
    )
}

#[test]
fn equal_speeds(rt: HostRuntime) -> Result<(), Fail> {
    let (west, south) = (Path(1_000, 0, -10, 0), Path(0, 2_000, 0, -10));
    both_ways(
        &rt,
        &[
            // level on a minute, and between two
            (west, south, 0, LAST, Some(151), Some(150)),
            (west, Path(0, 2_001, 0, -10), 0, LAST, Some(151), Some(151)),
            // they part
            (
                Path(1_000, 0, 10, 0),
                Path(0, 2_000, 0, 10),
                0,
                LAST,
                None,
                None,
            ),
            // the same van twice, and two that stand level
            (west, west, 0, LAST, None, None),
            (Path(3, 4, 0, 0), Path(-5, 0, 0, 0), 0, LAST, None, None),
            // one path, a minute apart
            (
                Path(0, 0, 1, 0),
                Path(-1, 0, 1, 0),
                0,
                LAST,
                Some(1),
                Some(1),
            ),
        ],
    )
}

#[test]
fn at_the_limits(rt: HostRuntime) -> Result<(), Fail> {
    let inbound = Path(100_000, 100_000, -1_000, -1_000);
    both_ways(
        &rt,
        &[
            // the largest discriminant and its neighbour, from opening and from the first exchange
            (
                inbound,
                Path(100_000, 100_000, 1_000, 999),
                0,
                LAST,
                Some(400_101),
                Some(1),
            ),
            (
                inbound,
                Path(100_000, 100_000, 1_000, 999),
                1,
                LAST,
                Some(400_101),
                Some(400_101),
            ),
            // the smallest
            (
                Path(100_000, 100_000, 1_000, -1_000),
                Path(0, 0, 0, 0),
                0,
                LAST,
                None,
                None,
            ),
            // the largest speeds and positions
            (
                inbound,
                Path(-100_000, -100_000, 1_000, 999),
                0,
                LAST,
                Some(101),
                Some(1),
            ),
            (
                inbound,
                Path(100_000, 100_000, 0, 0),
                0,
                LAST,
                Some(201),
                Some(1),
            ),
            (
                Path(100_000, -100_000, -1_000, 1_000),
                Path(100_000, 0, 0, 0),
                0,
                LAST,
                Some(30),
                Some(30),
            ),
            // one that comes through the site while another stands there
            (inbound, Path(0, 0, 0, 0), 0, LAST, Some(100), None),
            // far on
            (
                Path(100_000, 100_000, 0, 0),
                Path(0, 0, 1, 0),
                0,
                LAST,
                Some(141_422),
                Some(141_422),
            ),
            (
                Path(100_000, 0, 0, 0),
                Path(-100_000, 0, 1, 0),
                0,
                LAST,
                Some(1),
                Some(200_001),
            ),
            // at the last minute, and just past it
            (
                Path(126, 0, 1, 0),
                Path(0, 15_875, 1, 0),
                0,
                LAST,
                Some(LAST),
                Some(LAST),
            ),
            (
                Path(200, 0, 1, 0),
                Path(0, 20_001, 1, 0),
                0,
                LAST,
                None,
                None,
            ),
            // a later end is read as the last minute, and so is a start
            (
                Path(126, 0, 1, 0),
                Path(0, 15_875, 1, 0),
                0,
                u32::MAX,
                Some(LAST),
                Some(LAST),
            ),
            (
                Path(126, 0, 1, 0),
                Path(0, 15_875, 1, 0),
                LAST + 1,
                u32::MAX,
                None,
                None,
            ),
        ],
    )
}

#[test]
fn every_minute(rt: HostRuntime) -> Result<(), Fail> {
    for seed in Random(1).take(300) {
        let t = (seed >> 60) as u32;
        every_minute_both_ways(&rt, small_path(seed >> 8), small_path(seed >> 34), t)?;
    }
    Ok(())
}
