// A run of amounts of one card.
ghost use Rattle.std.specs.Prelude.{◌+◌, ◌≤◌, length, Some};
ghost use Rattle.family.specs.Amounts.{CellsHold, RunAnswer};

use crate::card::PricedCard;
use family::{Refusal, run_in_range};

// Puts the amount at first + k into cell k, or refuses and leaves every cell.
pub(crate) fn run<C: PricedCard>(
    held: Option<C>,
    first: u32,
    cells: &mut [i64],
) -> Result<(), Refusal>
    ensures { RunAnswer C.PricedCard.amount held first cells.old result cells.new }
{
    run_in_range(first, cells)?;
    let card = held.ok_or(Refusal::SlotEmpty)?;
    write_cells(&card, first, cells);
    Ok(())
}

// Writes every cell.
fn write_cells<C: PricedCard>(card: &C, first: u32, cells: &mut [i64])
    requires { first + length cells.old ≤ 1000001 }
    ensures { CellsHold C.PricedCard.amount (Some card.now) first cells.new }
{
    for (k, cell) in cells.iter_mut().enumerate() {
        *cell = card.amount_at(first + k as u32);
    }
}
