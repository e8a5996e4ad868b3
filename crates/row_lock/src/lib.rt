//! Who holds which rows: locks of open tickets on keys and on whole tables.
#![tactic(auto)]

mod finding;
pub mod laws;
mod locks;

pub use locks::{Lock, Locks, Reach};
