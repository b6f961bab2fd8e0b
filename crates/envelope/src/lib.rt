// Charts: who leads at which time.
#![tactic(auto)]

// A stretch of a chart: one slot leads all through it.
#[derive(Clone, Copy)]
pub struct Stretch {
    // The first time at which the slot leads.
    pub first: u32,
    // The last such time.
    pub last: u32,
    pub slot: u8,
}
