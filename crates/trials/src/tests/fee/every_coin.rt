// When two fee cards trade places, by looking at every number of coins, and at some of many.
use crate::tests::made::{Fee, adapted};
use crate::tests::random::{Random, next_random, small_fee};
use crate::tests::tables::{LAST, answered, looked_up};
use family::Family;
use std::test::Fail;

#[test]
fn every_coin(rt: HostRuntime) -> Result<(), Fail> {
    for seed in Random(1).take(1_000) {
        let family = adapted(small_fee(seed >> 20), small_fee(seed >> 40))?;
        let t = (seed >> 60) as u32;
        let forth = looked_up(&family, 0, 1, t, 300);
        let back = looked_up(&family, 1, 0, t, 300);
        answered(&rt, &family, &[(t, 300, forth, back)]);
    }
    Ok(())
}

// A fee card of 49 random bits, whose cap is reached anywhere up to the last time, and often past it.
fn large_fee(bits: u64) -> Fee {
    Fee(
        (bits & 0xf_ffff) as u32,
        ((bits >> 20) & 0x1f) as u32,
        (bits >> 25) & 0xff_ffff,
    )
}

// Whether "slot i is at or before slot j" is at a last time, and at 64 times up to there, what it is at t.
fn unchanged<F: Family>(family: &F, i: u8, j: u8, t: u32, last: u32) -> bool {
    let held = family.compare(i, j, t);
    let step = last.saturating_sub(t) / 64;
    (0..64)
        .map(|k| t.saturating_add(step.saturating_mul(k)))
        .chain([last])
        .all(|u| family.compare(i, j, u) == held)
}

// Up to one before the told time nothing is seen to change, and then the fact differs. Where no time is told,
// nothing is seen to change up to the last time.
fn first_seen<F: Family>(family: &F, i: u8, j: u8, t: u32) -> bool {
    let Some(u) = family.next_exchange(i, j, t, LAST) else {
        return unchanged(family, i, j, t, LAST);
    };
    let last = u.saturating_sub(1);
    t < u && unchanged(family, i, j, t, last) && !unchanged(family, i, j, last, u)
}

#[test]
fn some_coins(rt: HostRuntime) -> Result<(), Fail> {
    for seed in Random(2).take(1_000) {
        let family = adapted(large_fee(seed >> 15), large_fee(next_random(seed) >> 15))?;
        let t = (seed >> 49) as u32;
        assert!(rt; first_seen(&family, 0, 1, t), "slot 0 at or before slot 1");
        assert!(rt; first_seen(&family, 1, 0, t), "slot 1 at or before slot 0");
    }
    Ok(())
}
