// Trials of vans.
mod exchanges;
mod limits;
mod runs;
mod turnings;
