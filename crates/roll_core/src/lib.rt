//! The engine: every statement that is said to it, every batch and every command of a migration is one step of the machine.
//!
//! The machine's states, events, replies and steps are those of the crate `machine`, and what they mean for the rows of one
//! table is of the crate `row_rules`. Of the definitions here `Store` has what the engine's stored rows mean as such a
//! state, and what is stored of a row that is written.
#![tactic(auto)]

mod batch;
mod changing;
mod commands;
mod complete;
mod engine;
mod forms;
mod laws;
mod leaving;
mod reach;
mod rollback;
mod start;
mod statement;
mod stepping;
mod store;
mod tidying;
mod writing;

pub use commands::Cmd;
pub use engine::Core;
