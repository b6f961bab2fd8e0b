// That a time told for two cards turns the difference of their amounts.
use crate::tests::made::{Made, pair};
use crate::tests::tables::LAST;
use cards::TurningCard;
use family::Priced;
use std::process::Abort;
use std::test::Fail;

// By how much the amount of slot 0 less that of slot 1 grows from t to t + 1.
fn step<P: Priced>(family: &P, t: u32) -> Option<i64> {
    let u = t.saturating_add(1);
    let before = family
        .amount_at(0, t)?
        .wrapping_sub(family.amount_at(1, t)?);
    let after = family
        .amount_at(0, u)?
        .wrapping_sub(family.amount_at(1, u)?);
    Some(after.wrapping_sub(before))
}

// Whether the difference never falls or never rises at any step between two times.
fn steady<P: Priced>(family: &P, first: u32, last: u32) -> bool {
    (first..last).all(|t| step(family, t).is_some_and(|by| by >= 0))
        || (first..last).all(|t| step(family, t).is_some_and(|by| by <= 0))
}

// The difference is steady up to a time and from it on: at every step up to 300, and at the 300 steps before
// and after that time.
pub fn turned<P: Priced>(rt: &impl Abort, family: &P, turn: u32) {
    let around = (turn.saturating_sub(300), turn.saturating_add(300));
    for (first, last) in [(0, 300), around] {
        let middle = turn.max(first).min(last);
        assert!(rt; steady(family, first, middle) && steady(family, middle, last));
    }
    assert!(rt; turn <= LAST);
}

// The time told for two cards, which turns them.
pub fn turning<C: TurningCard, M: Made<Card = C>>(rt: &impl Abort, c: M, d: M) -> Result<u32, Fail>
where
    M::Family: Priced,
{
    let told = c.card()?.turning(&d.card()?);
    turned(rt, &pair(c, d)?, told);
    Ok(told)
}
