//! The machine that the product is measured by: its states, what happens to them, and what it answers.
#![tactic(auto)]

mod complete;
mod events;
mod fill;
pub mod laws;
mod may_put;
pub mod parts;
mod phases;
mod plain;
mod refusals;
mod replies;
mod rollback;
mod rows;
mod start;
mod start_state;
mod statement;
mod states;
mod staying;
mod tables;
mod tasks;
mod writing;

pub use events::{Asked, Entry, Event, Reading, Reply};
pub use plain::step;
pub use row_rules::{Cause, Change, Halves, Job, Kept, SqlError, Stop, Table};
pub use start_state::beginning;
pub use states::{Mode, State};
pub use tasks::Task;
