#![tactic(auto)]
// Runs of the whole service over its stores: the edges, and transactions that meet.
#[cfg(test)]
mod edges;
#[cfg(test)]
mod meetings;
