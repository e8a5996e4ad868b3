//! The words of a command line: which of them have a form, and what they ask for.
#![tactic(auto)]

mod forms;
mod numbers;
mod reading;
mod texts;

pub use forms::{Command, Form, Part};
pub use reading::read_words;

#[cfg(test)]
mod tests;
