// When two cards trade places, by formula and by bisection.
use crate::tests::made::{Line, Made, Path, adapted, pair};
use crate::tests::tables::{Asked, looked_up};
use adapter::Adapter;
use agreement::{exchange_both_ways, hopper_exchange, van_exchange};
use family::{PricedFamily, TurningFamily};
use hoppers::Hoppers;
use std::process::Abort;
use std::test::Fail;
use vans::Vans;

// Cards whose sort has a function of its own that asks both ways.
pub trait AskedByName: Made {
    // The slots, the start and the end.
    fn asked_by_name(
        formula: &Self::Family,
        bisection: &Adapter<Self::Family>,
        asked: (u8, u8, u32, u32),
    ) -> (Option<u32>, Option<u32>);
}

impl AskedByName for Line {
    fn asked_by_name(
        formula: &Hoppers,
        bisection: &Adapter<Hoppers>,
        (i, j, t, end): (u8, u8, u32, u32),
    ) -> (Option<u32>, Option<u32>) {
        hopper_exchange(formula, bisection, i, j, t, end)
    }
}

impl AskedByName for Path {
    fn asked_by_name(
        formula: &Vans,
        bisection: &Adapter<Vans>,
        (i, j, t, end): (u8, u8, u32, u32),
    ) -> (Option<u32>, Option<u32>) {
        van_exchange(formula, bisection, i, j, t, end)
    }
}

// Two cards, a start and an end; then when "slot 0 is at or before slot 1" changes, and when "slot 1 is at or
// before slot 0" does.
pub type Row<M> = (M, M, u32, u32, Option<u32>, Option<u32>);

// Both ways tell both exchanges, and those of the pair the other way round.
pub fn both_ways<M: AskedByName>(rt: &impl Abort, rows: &[Row<M>]) -> Result<(), Fail>
where
    M::Family: PricedFamily + TurningFamily,
{
    for &row in rows {
        either_way_round(rt, row)?;
    }
    Ok(())
}

fn either_way_round<M: AskedByName>(rt: &impl Abort, row: Row<M>) -> Result<(), Fail>
where
    M::Family: PricedFamily + TurningFamily,
{
    let (c, d, t, end, forth, back) = row;
    asked_both_ways(rt, c, d, (t, end, forth, back))?;
    asked_both_ways(rt, d, c, (t, end, back, forth))
}

fn asked_both_ways<M: AskedByName>(rt: &impl Abort, c: M, d: M, asked: Asked) -> Result<(), Fail>
where
    M::Family: PricedFamily + TurningFamily,
{
    let (formula, bisection) = (pair(c, d)?, adapted(c, d)?);
    let (t, end, forth, back) = asked;
    for (i, j, told) in [(0, 1, forth), (1, 0, back)] {
        assert_eq!(rt;
            exchange_both_ways(&formula, &bisection, i, j, t, end),
            (told, told),
            "slots {i} and {j} from {t} to {end}"
        );
        assert_eq!(rt;
            M::asked_by_name(&formula, &bisection, (i, j, t, end)),
            (told, told),
            "by name: slots {i} and {j} from {t} to {end}"
        );
    }
    Ok(())
}

// Both ways tell what is seen by looking at every minute up to 300.
pub fn every_minute_both_ways<M: AskedByName>(
    rt: &impl Abort,
    c: M,
    d: M,
    t: u32,
) -> Result<(), Fail>
where
    M::Family: PricedFamily + TurningFamily,
{
    let family = pair(c, d)?;
    let forth = looked_up(&family, 0, 1, t, 300);
    let back = looked_up(&family, 1, 0, t, 300);
    either_way_round(rt, (c, d, t, 300, forth, back))
}
