//! Types and values of expressions: which type an expression has over a shape, and what it comes to over a row.
#![tactic(auto)]

pub mod cast;
pub mod evaluation;
pub mod laws;
pub mod operate;
pub mod typing;

pub use evaluation::eval;
pub use typing::type_of;
