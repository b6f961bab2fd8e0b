// The adapter: a priced family made of any turning family.
//
// A turning family tells amounts, and for any two cards a turning time m; it has no formula for exchanges.
// The difference of two amounts never falls or never rises up to m, and so again from m on. So "c is at or
// before d" changes at most once on each side of m, and one side is searched by halving it: at most 24 looks
// at the two amounts. To look only at the two ends of the whole range would lose a stretch in the middle.
#![tactic(auto)]

mod adapter;
mod halving;

pub use adapter::Adapter;
