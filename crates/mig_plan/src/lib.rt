//! Planning: what a migration's operations make of a schema.
#![tactic(auto)]

mod adding;
mod altering;
mod constraints;
mod creating;
mod drafts;
mod expressions;
mod finishing;
pub mod laws;
mod planning;
mod renaming;
mod standing;
mod tables;

pub use planning::plan;
