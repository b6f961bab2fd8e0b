// Tables to hold any family to that has a card in slot 0, one in slot 1, and nothing else; and one for cards.
use crate::tests::made::Made;
use cards::PricedCard;
use family::{CardSlots, Family, Priced, PricedFamily, Refusal};
use std::fmt::Debug;
use std::process::Abort;
use std::test::Fail;

// The last time, as a number of the tests' own.
pub const LAST: u32 = 1_000_000;

// A start and an end; then the next exchange of slots 0 and 1, and of 1 and 0: when "slot 0 is at or before
// slot 1" changes, and when "slot 1 is at or before slot 0" does.
pub type Asked = (u32, u32, Option<u32>, Option<u32>);

pub fn answered<F: Family>(rt: &impl Abort, family: &F, rows: &[Asked]) {
    for &(t, end, forth, back) in rows {
        assert_eq!(rt;
            family.next_exchange(0, 1, t, end),
            forth,
            "from {t} to {end}"
        );
        assert_eq!(rt;
            family.next_exchange(1, 0, t, end),
            back,
            "back from {t} to {end}"
        );
    }
}

// The next exchange, by looking at every time.
pub fn looked_up<F: Family>(family: &F, i: u8, j: u8, t: u32, end: u32) -> Option<u32> {
    let now = family.compare(i, j, t);
    (t..=end).find(|&u| family.compare(i, j, u) != now)
}

// Asked from 0 on, and then from each answer on, a family tells these times and no more.
pub fn told<F: Family>(rt: &impl Abort, family: &F, i: u8, j: u8, times: &[u32]) {
    let mut t = 0;
    for &u in times {
        assert_eq!(rt;
            family.next_exchange(i, j, t, LAST),
            Some(u),
            "slots {i} and {j} from {t}"
        );
        t = u;
    }
    assert_eq!(rt;
        family.next_exchange(i, j, t, LAST),
        None,
        "slots {i} and {j} from {t}"
    );
}

// All times at which "slot 0 is at or before slot 1" changes, and all at which "slot 1 is at or before slot
// 0" does.
pub fn both_told<F: Family>(rt: &impl Abort, family: &F, forth: &[u32], back: &[u32]) {
    told(rt, family, 0, 1, forth);
    told(rt, family, 1, 0, back);
}

// Two slots, a time, and whether the first is at or before the second then.
pub type Order = (u8, u8, u32, bool);

pub fn ordered<F: Family>(rt: &impl Abort, family: &F, rows: &[Order]) {
    for &(i, j, t, order) in rows {
        assert_eq!(rt; family.compare(i, j, t), order, "slots {i} and {j} at {t}");
    }
}

// A time, and whether slot 0 is at or before slot 1 then, and slot 1 at or before slot 0.
pub type BothOrders = (u32, bool, bool);

pub fn both_ordered<F: Family>(rt: &impl Abort, family: &F, rows: &[BothOrders]) {
    for &(t, forth, back) in rows {
        ordered(rt, family, &[(0, 1, t, forth), (1, 0, t, back)]);
    }
}

// A filled slot is at or before an empty one, an empty one is not at or before a filled one, and two empty ones
// are level. None of that ever changes, and neither does the order of a slot and itself.
pub fn empty_slots_last<F: Family>(rt: &impl Abort, family: &F) {
    ordered(
        rt,
        family,
        &[(0, 9, 0, true), (9, 0, 0, false), (8, 9, 0, true)],
    );
    for (i, j) in [(0, 9), (9, 0), (8, 9), (9, 9), (0, 0)] {
        told(rt, family, i, j, &[]);
    }
}

// A slot, a time, and the amount then.
pub type Amount = (u8, u32, Option<i64>);

pub fn priced<P: Priced>(rt: &impl Abort, family: &P, rows: &[Amount]) {
    for &(slot, t, amount) in rows {
        assert_eq!(rt; family.amount_at(slot, t), amount, "slot {slot} at {t}");
    }
}

// What a card is made of, a time, and the card's amount then.
pub type CardAmount<M> = (M, u32, i64);

pub fn comes_to<C: PricedCard, M: Made<Card = C>>(
    rt: &impl Abort,
    rows: &[CardAmount<M>],
) -> Result<(), Fail> {
    for &(made, t, amount) in rows {
        assert_eq!(rt; made.card()?.amount_at(t), amount, "at {t}");
    }
    Ok(())
}

// What three cells hold before a run.
pub const UNTOUCHED: [i64; 3] = [7, 7, 7];

// The answer to a run for some of three cells, and what the three hold then.
pub fn run_of<P: Priced>(
    family: &P,
    slot: u8,
    first: u32,
    count: usize,
) -> (Result<(), Refusal>, [i64; 3]) {
    let mut cells = UNTOUCHED;
    let answer = family.amounts(slot, first, &mut cells[..count.min(3)]);
    (answer, cells)
}

// A slot, a first time, how many of three cells the run is for, the answer, and what the three hold then.
pub type Run = (u8, u32, usize, Result<(), Refusal>, [i64; 3]);

pub fn runs<P: Priced>(rt: &impl Abort, family: &P, rows: &[Run]) {
    for &(slot, first, count, answer, told) in rows {
        let found = run_of(family, slot, first, count);
        assert_eq!(rt; found, (answer, told), "slot {slot} from {first}");
    }
}

// The same for all three cells.
pub type FullRun = (u8, u32, Result<(), Refusal>, [i64; 3]);

pub fn full_runs<P: Priced>(rt: &impl Abort, family: &P, rows: &[FullRun]) {
    for &(slot, first, answer, told) in rows {
        runs(rt, family, &[(slot, first, 3, answer, told)]);
    }
}

// What is told of a family.
#[derive(Clone, Copy)]
pub struct Table<'a> {
    pub bound: u8,
    pub exchanges: &'a [Asked],
    pub orders: &'a [Order],
    pub amounts: &'a [Amount],
    pub runs: &'a [Run],
}

pub fn tells<F: PricedFamily>(rt: &impl Abort, family: &F, table: Table<'_>) {
    assert_eq!(rt; family.bound(), table.bound);
    answered(rt, family, table.exchanges);
    ordered(rt, family, table.orders);
    priced(rt, family, table.amounts);
    runs(rt, family, table.runs);
}

// Put, lift and card, of a family with c in slot 0 and d in slot 1, as it has again in the end. The third card may
// be one of the two.
pub fn kept<C: Copy + Debug + PartialEq, F: CardSlots<Card = C>>(
    rt: &impl Abort,
    family: &mut F,
    c: C,
    d: C,
    third: C,
) {
    for slot in [9, 255] {
        assert_eq!(rt; family.put(0, third), Err(Refusal::SlotFilled));
        assert_eq!(rt; family.put(slot, third), Ok(()));
        assert_eq!(rt; family.card(0), Some(c), "the card that stood there stands");
        assert_eq!(rt; family.card(slot), Some(third));
        assert_eq!(rt; family.lift(1), Ok(()));
        assert_eq!(rt; family.lift(1), Err(Refusal::SlotEmpty));
        assert_eq!(rt; family.card(1), None);
        assert_eq!(rt;
            family.card(slot),
            Some(third),
            "the card in the other slot stands"
        );
        assert_eq!(rt; family.put(1, d), Ok(()));
        assert_eq!(rt; family.lift(slot), Ok(()));
        assert_eq!(rt; family.lift(slot), Err(Refusal::SlotEmpty));
        assert_eq!(rt; family.card(slot), None);
    }
    assert_eq!(rt; (family.card(0), family.card(1)), (Some(c), Some(d)));
}
