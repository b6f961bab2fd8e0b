// Piles of three layers over the sample and over hoppers.
use super::sample;
use crate::tests::fee::{C, D};
use crate::tests::made::{Line, Made, pair};
use crate::tests::tables::{LAST, both_told, kept, run_of};
use family::{CardSlots, Family, PricedFamily, Refusal};
use hoppers::Hoppers;
use layers::{
    LateMirrorLate, LateStart, Mirror, amount_in_pile, compare_in_pile, exchange_in_pile,
};
use std::fmt::Debug;
use std::process::Abort;
use std::test::Fail;

// Times to ask at: about the exchanges of the families, and about the last time.
const TIMES: [u32; 9] = [0, 1, 34, 216, 217, 999_965, 999_966, LAST, u32::MAX];

// Two slots, of which 9 is empty.
const SLOTS: [(u8, u8); 5] = [(0, 1), (1, 0), (0, 9), (9, 0), (9, 9)];

// Two families tell the same.
fn same<A: PricedFamily, B: PricedFamily>(rt: &impl Abort, a: &A, b: &B) {
    assert_eq!(rt; a.bound(), b.bound());
    for t in TIMES {
        for (i, j) in SLOTS {
            assert_eq!(rt;
                a.compare(i, j, t),
                b.compare(i, j, t),
                "slots {i} and {j} at {t}"
            );
            assert_eq!(rt;
                a.next_exchange(i, j, t, LAST),
                b.next_exchange(i, j, t, LAST),
                "slots {i} and {j} from {t}"
            );
        }
        for slot in [0, 1, 9] {
            assert_eq!(rt;
                a.amount_at(slot, t),
                b.amount_at(slot, t),
                "slot {slot} at {t}"
            );
            assert_eq!(rt;
                run_of(a, slot, t, 3),
                run_of(b, slot, t, 3),
                "slot {slot} from {t}"
            );
        }
    }
}

// The functions for piles tell of a pile what another family tells.
fn in_pile<F: PricedFamily, B: PricedFamily>(rt: &impl Abort, pile: &LateMirrorLate<F>, b: &B) {
    for t in TIMES {
        for (i, j) in SLOTS {
            assert_eq!(rt; compare_in_pile(pile, i, j, t), b.compare(i, j, t));
            assert_eq!(rt;
                exchange_in_pile(pile, i, j, t, LAST),
                b.next_exchange(i, j, t, LAST)
            );
            assert_eq!(rt; amount_in_pile(pile, i, t), b.amount_at(i, t));
        }
    }
}

// The delay at the bottom of a pile and the one at its top; then all times at which "slot 0 is at or before
// slot 1" changes, and all at which "slot 1 is at or before slot 0" does.
type Row<'a> = (u32, u32, &'a [u32], &'a [u32]);

// A pile over one family is the mirror of one late start over another with the same cards.
fn piled<F: PricedFamily + Drop>(rt: &impl Abort, one: F, other: F, row: Row<'_>) {
    let (a, b, forth, back) = row;
    let pile = LateStart::new(Mirror(LateStart::new(one, a)), b);
    let once = Mirror(LateStart::new(other, a.saturating_add(b)));
    both_told(rt, &once, forth, back);
    in_pile(rt, &pile, &once);
    same(rt, &pile, &once);
}

// The sample, level at 250.
const SAMPLE: [Row<'static>; 8] = [
    (0, 0, &[34, 250], &[34, 251]),
    (10, 24, &[216], &[217]),
    (34, 0, &[216], &[217]),
    (0, 34, &[216], &[217]),
    (100, 150, &[], &[1]),
    (600_000, 600_000, &[], &[]),
    (1_000_000, 1, &[], &[]),
    (u32::MAX, u32::MAX, &[], &[]),
];

#[test]
fn over_a_sample(rt: HostRuntime) -> Result<(), Fail> {
    for row in SAMPLE {
        piled(&rt, sample()?, sample()?, row);
    }
    Ok(())
}

// Two hoppers, level at the last time but one.
fn level_late() -> Result<Hoppers, Refusal> {
    pair(Line(0, 1), Line(999_999, 0))
}

const LEVEL_LATE: [Row<'static>; 6] = [
    (0, 0, &[999_999], &[LAST]),
    (10, 24, &[999_965], &[999_966]),
    (400_000, 599_998, &[1], &[2]),
    (1, 999_998, &[], &[1]),
    (1, 999_999, &[], &[]),
    (600_000, 600_000, &[], &[]),
];

#[test]
fn over_hoppers(rt: HostRuntime) -> Result<(), Fail> {
    for row in LEVEL_LATE {
        piled(&rt, level_late()?, level_late()?, row);
    }
    Ok(())
}

// Put, lift and card in a late start, and in a pile over it.
fn kept_in_layers<C: Copy + Debug + PartialEq, F: CardSlots<Card = C> + Drop>(
    rt: &impl Abort,
    below: F,
    c: C,
    d: C,
    third: C,
) {
    let mut late = LateStart::new(below, 10);
    kept(rt, &mut late, c, d, third);
    kept(rt, &mut LateStart::new(Mirror(late), 24), c, d, third);
}

#[test]
fn a_sample_kept(rt: HostRuntime) -> Result<(), Fail> {
    let (c, d) = (C.card()?, D.card()?);
    kept_in_layers(&rt, sample()?, c, d, c);
    Ok(())
}

#[test]
fn hoppers_kept(rt: HostRuntime) -> Result<(), Fail> {
    let (c, d) = (Line(0, 1).card()?, Line(999_999, 0).card()?);
    kept_in_layers(&rt, level_late()?, c, d, Line(500, 10).card()?);
    Ok(())
}

// A mirror of a late start of a mirror is one late start.
fn mirrored_twice<F: PricedFamily + Drop>(rt: &impl Abort, one: F, other: F, delay: u32) {
    same(
        rt,
        &Mirror(LateStart::new(Mirror(one), delay)),
        &LateStart::new(other, delay),
    );
}

#[test]
fn in_another_order(rt: HostRuntime) -> Result<(), Fail> {
    for delay in [0, 34, 999_999, u32::MAX] {
        mirrored_twice(&rt, sample()?, sample()?, delay);
    }
    Ok(())
}
