//! Callers of stored rows, of locks, and of pacers and brakes, with what they prove of them, and the tests that run them.
#![tactic(auto)]

mod asking;
mod crossing;
mod storing;
mod taking;
#[cfg(test)]
mod tests;

pub use asking::{AsAsked, AtPause, Rising, ask_by_two};
pub use crossing::clear_by_two;
pub use storing::put;
pub use taking::{Taken, take};
