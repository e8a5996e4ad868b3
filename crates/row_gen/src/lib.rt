//! The text of a workload, as a number gives it.
#![tactic(auto)]

mod draws;
mod lines;
mod making;

pub use making::{Part, make};

#[cfg(test)]
mod tests;
