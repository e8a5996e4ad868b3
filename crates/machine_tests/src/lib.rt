//! The plain step of the machine on worked examples.
#![tactic(auto)]

#[cfg(test)]
mod tests;
