//! Types and values of expressions against tables from outside, and the copies and measures of statements and rows.
#![tactic(auto)]

#[cfg(test)]
mod tests;
