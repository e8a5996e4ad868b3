//! How a history of the machine is told: a line for each entry, and lines for the rows of a SELECT.
#![tactic(auto)]

mod refused;
mod telling;

pub use telling::{line_of, lines};
