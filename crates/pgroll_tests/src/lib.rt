//! The top call over a source and a sink in memory: what a caller knows of it, and the tests of the first path.
#![tactic(auto)]

mod callers;
#[cfg(test)]
mod tests;

pub use callers::{between, over_memory};
