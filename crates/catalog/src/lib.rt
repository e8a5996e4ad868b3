//! Which versions stand, how a statement's path finds a table in them, and where a version's view finds its columns in
//! the stored rows.
#![tactic(auto)]

mod catalogs;
mod finding;
pub mod laws;
mod pairs;
mod places;
mod validity;
mod versions;
mod viewing;
mod widths;

pub use catalogs::Catalog;
pub use versions::{Known, Stage, View};
