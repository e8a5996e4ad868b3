//! Whether the values of a stored row fit its form, for rows that come from outside: a row of a table that both versions
//! have, while both stand (`fits_pair`), once one of the two is gone (`fits_laid`), and after the lost columns are
//! removed (`fits_trimmed`).
#![tactic(auto)]

mod equal;
pub mod laws;
mod pairs;
mod places;
mod rest;
#[cfg(test)]
mod tests;

pub use pairs::fits_pair;
pub use places::{fits_laid, fits_trimmed};
