//! The top call: from the words and the input's bytes to the output's lines and the status.
#![tactic(auto)]

mod asking;
mod command;
mod ending;
mod exec;
mod lanes;
mod readings;
mod saying;

pub use command::top;
pub use ending::{End, close};
