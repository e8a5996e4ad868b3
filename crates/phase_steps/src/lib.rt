//! Which command of a migration may come when, which step it takes next, and what becomes of stored rows from the start of
//! a migration until one version stands alone.
#![tactic(auto)]

mod cells;
pub mod laws;
mod leaving;
mod phases;
mod returning;
mod steps;
#[cfg(test)]
mod tests;
mod trimming;

pub use leaving::left_row;
pub use phases::{
    Cmd, Phase, PhaseRef, may, may_complete, may_fill, may_roll_back, may_start, next_step,
};
pub use returning::returned_row;
pub use steps::restore;
pub use trimming::{trimmed, trimmed_view};
