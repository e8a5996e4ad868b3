//! Plans, halves and layouts of migrations against tables of what the rules say, and the copies of their types.
#![tactic(auto)]

#[cfg(test)]
mod tests;
