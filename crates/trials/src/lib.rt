// Trials: tables of examples for hoppers, vans, fee cards and layers, a row a case. They are tests and nothing
// else, in a crate of their own, so that no crate below is proved a second time for them.
#![tactic(auto)]

#[cfg(test)]
mod tests;
