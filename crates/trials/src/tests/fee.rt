// Trials of fee cards.
use crate::tests::made::Fee;

mod every_coin;
mod exchanges;
mod limits;
mod runs;
mod slots_kept;
mod turnings;

// The sample. D is the cheaper up to 33 coins, C from 34 to 249, they are level at 250, and from 251 on D is
// the cheaper again. C is at its cap from 450 on, D from 120 on.
pub const C: Fee = Fee(100, 2, 1_000);

pub const D: Fee = Fee(0, 5, 600);
