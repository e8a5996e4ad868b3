//! What a statement, a batch or a step of a migration means for the rows of one table: which rows it leaves, or why it is
//! refused.
//!
//! A table is met as a site: the side that is written, what that version has of the table, and, where the other version
//! has it too, what that one has and the lens between the two. A row has a half for each side. Everything here is over
//! one site and rows that can be looked at one by one (`TableRows`), however they are kept. A statement has three
//! sections: its names, its types and an INSERT's values are settled (`insert_job`, `update_job`, `delete_job`,
//! `query_error`); what it does is made row by row (`changes`, `rows_shown`); and all rows are looked at together
//! (`refused_together`).
#![tactic(auto)]

mod acceptance;
pub mod causes;
mod changing;
mod halves;
mod inserting;
mod kinds;
pub mod laws;
mod outcomes;
mod reach;
pub mod reach_laws;
mod rows;
mod settling;
mod showing;
mod sites;
mod steps;
mod stops;
mod together;
mod writing;

pub use changing::changes;
pub use halves::half;
pub use inserting::insert_job;
pub use kinds::{Cause, Change, Halves, Job, Kept, SqlError, Table};
pub use reach::key_named;
pub use rows::{TableRows, any_missing, least_missing, missing_rows};
pub use settling::{delete_job, query_error, update_job};
pub use showing::{MAX_REPLY, rows_shown};
pub use sites::{BesideRef, SiteRef};
pub use steps::{begun_row, invalid, show_heavy};
pub use stops::Stop;
pub use together::{after_changes, cause_together, refused_together};
