//! What a path finds and where a view finds its columns, against tables of what the rules say.
#![tactic(auto)]

#[cfg(test)]
mod tests;
