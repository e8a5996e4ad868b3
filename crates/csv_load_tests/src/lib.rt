//! Texts of comma-separated values, with what they load and where they have their first fault.
#![tactic(auto)]

#[cfg(test)]
mod tests;
