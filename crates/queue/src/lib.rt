#![tactic(auto)]
// One ordered queue for every kind of token that tells its item and its stamp.
mod queues;
pub mod slices;
mod tokens;

pub use queues::{PLACES, Queue};
pub use tokens::Token;

#[cfg(test)]
mod tests;
