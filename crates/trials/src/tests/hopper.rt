// Trials of hoppers.
mod exchanges;
mod limits;
mod mirrors;
mod runs;
mod slots_kept;
mod turnings;
