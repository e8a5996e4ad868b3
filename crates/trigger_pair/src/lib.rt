//! The triggers of a table that both versions have: how a stored row holds its two halves, and what a write stores.
#![tactic(auto)]

pub mod laws;
mod pairs;
pub mod parts;
mod stored;
mod triggers;
mod views;

pub use pairs::Pair;
pub use stored::begun;
pub use triggers::{fill, fire};
pub use views::{is_marked, new_view, old_view};
