//! Texts of expressions and statements, with what they read as and where they have their first fault.
#![tactic(auto)]

#[cfg(test)]
mod tests;
