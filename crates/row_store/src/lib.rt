//! The stored rows of a table, by key.
#![tactic(auto)]

mod changing;
pub mod laws;
mod places;
mod rows;

pub use rows::RowStore;
