// Which runs of amounts lie within the times.
ghost use Rattle.family.specs.Amounts.{RangeAnswer};

use crate::refusal::Refusal;
use crate::time::LAST_TIME;

// Whether a run that begins at first, with a time for each cell, lies within the times; else it is refused (1).
pub fn run_in_range(first: u32, cells: &[i64]) -> Result<(), Refusal>
    ensures { RangeAnswer first cells.now result }
{
    let left = (LAST_TIME + 1).saturating_sub(first);
    if first > LAST_TIME || cells.len() > left as usize {
        return Err(Refusal::PastEnd);
    }
    Ok(())
}
