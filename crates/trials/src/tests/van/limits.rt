// Which vans can be made, and how far they are.
use crate::tests::made::{Made, Path, pair};
use crate::tests::tables::{comes_to, full_runs, priced};
use family::Refusal;
use layers::{LateStart, Mirror};
use std::test::Fail;

#[test]
fn edges(rt: HostRuntime) {
    let rows = [
        // every limit at once, on either side
        (Path(100_000, 100_000, 1_000, 1_000), true),
        (Path(-100_000, -100_000, -1_000, -1_000), true),
        // one over each limit
        (Path(100_001, 0, 0, 0), false),
        (Path(0, -100_001, 0, 0), false),
        (Path(0, 0, 1_001, 0), false),
        (Path(0, 0, 0, -1_001), false),
        // the largest and the smallest numbers
        (Path(i32::MAX, 0, 0, 0), false),
        (Path(0, i32::MIN, 0, 0), false),
        (Path(0, 0, i16::MIN, 0), false),
        (Path(0, 0, 0, i16::MAX), false),
    ];
    for (path, made) in rows {
        let told = path
            .card()
            .map(|van| Path(van.px(), van.py(), van.vx(), van.vy()));
        assert_eq!(rt; told, made.then_some(path).ok_or(Refusal::OutsideLimits));
    }
}

#[test]
fn distances(rt: HostRuntime) -> Result<(), Fail> {
    let rows = [
        (Path(200, 0, 0, 0), 7, 40_000),
        (Path(-300, 0, 100, 0), 0, 90_000),
        (Path(-300, 0, 100, 0), 3, 0),
        (Path(3, -4, 0, 0), 1_000_000, 25),
        // the farthest that a van gets, on either side
        (
            Path(100_000, 100_000, 1_000, 1_000),
            1_000_000,
            2_000_400_020_000_000_000,
        ),
        (
            Path(-100_000, -100_000, -1_000, -1_000),
            1_000_000,
            2_000_400_020_000_000_000,
        ),
        // a time past the last is read as the last
        (Path(0, 0, 1, 0), 1_000_001, 1_000_000_000_000),
        (Path(0, 0, 1, 0), u32::MAX, 1_000_000_000_000),
    ];
    comes_to(&rt, &rows)
}

// The largest amount in a mirror of a late start, where the time below soon passes the end.
#[test]
fn farthest_in_layers(rt: HostRuntime) -> Result<(), Fail> {
    let far = Path(100_000, 100_000, 1_000, 1_000);
    let layers = Mirror(LateStart::new(pair(far, far)?, 999_999));
    priced(&rt, &layers, &[(1, 1, Some(-2_000_400_020_000_000_000))]);
    let cells = [
        -2_000_396_019_602_000_000,
        -2_000_400_020_000_000_000,
        -2_000_400_020_000_000_000,
    ];
    full_runs(&rt, &layers, &[(0, 0, Ok(()), cells)]);
    Ok(())
}
