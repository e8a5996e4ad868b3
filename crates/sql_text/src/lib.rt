//! Statements and expressions as text: their tokens, and how expressions and values are written.
#![tactic(auto)]

mod identifiers;
mod keys;
mod laws;
mod lexer;
mod print;
mod scan;
mod tokens;
mod values;
mod write;

pub use identifiers::name_in;
pub use keys::Key;
pub use laws::{
    a_text_has_its_tokens, identifiers_are_names, literals_are_doubled, places_are_inside,
    tokens_are_proper, tokens_end,
};
pub use lexer::lex;
pub use print::print_expr;
pub use tokens::{Placed, Sign, Token};
pub use values::print_value;

#[cfg(test)]
mod tests;
