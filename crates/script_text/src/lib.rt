//! The texts of inputs: which lines they have, which of these are commands, and which lanes a script has.
#![tactic(auto)]

mod blocks;
mod lines;
mod names;
mod orders;
mod pieces;
mod reading;
mod splitting;

pub use blocks::read_script;
pub use lines::{AnyCommand, AnyLine, LaneText, Line, Order, Script};
pub use reading::{read_any_lines, read_exec};

#[cfg(test)]
mod tests;
