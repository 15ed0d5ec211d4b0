#![tactic(auto)]
// Transactions held as values: the types allow only what the transaction's state allows.
mod closing;
mod grants;
mod opening;
mod steps;
mod transactions;

pub use transactions::{Closed, Grant, Open, Uncertified};

#[cfg(test)]
mod tests;
