//! Statements from comma-separated values: one for each record of a text.
#![tactic(auto)]

mod loading;
mod records;
mod values;

pub use loading::{Loaded, load};
