// A stretch of the chart, with what its leader's card comes to.
use envelope::Stretch;

#[derive(Clone, Copy)]
pub struct PricedStretch {
    pub stretch: Stretch,
    // What the slot's card comes to at the stretch's first time.
    pub amount: i64,
}
