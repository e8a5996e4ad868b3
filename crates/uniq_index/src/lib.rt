//! The values of a unique constraint's columns, by key, and the least key that has given ones.
#![tactic(auto)]

mod index;
pub mod laws;
mod scanning;

pub use index::UniqIndex;
