//! Callers of an index of values and of the indexes of a side, with what they prove of them, and tests of constraints and
//! indexes.
#![tactic(auto)]

mod indexing;
mod siding;
#[cfg(test)]
mod tests;

pub use indexing::put;
pub use siding::change;
