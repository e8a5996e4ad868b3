//! Callers of the turn lock, with what they prove of it, and the tests that run them.
#![tactic(auto)]

mod callers;
mod desk;
mod held;
#[cfg(test)]
mod tests;

pub use callers::{Run, Told, add_by_two, reopen};
pub use desk::{Desk, Entry};
pub use held::{Waited, add_while_held};
