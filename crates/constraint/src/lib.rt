//! Whether rows of one table meet its constraints.
//!
//! `check_row` looks at one row by itself: NULL in a NOT NULL column, then the checks. `validate`
//! looks at all rows of a table, as before a version stands alone: the rows one by one, then the
//! unique constraints, and tells the constraint that isn't met with a row's key. The other public
//! functions are their parts, for callers that keep rows otherwise.
#![tactic(auto)]

mod clashes;
mod faults;
pub mod laws;
mod names;
mod validation;

pub use clashes::{Keyed, are_alike, clash, with_least};
pub use faults::{check_fault, check_row, null_at};
pub use names::{broken_name, not_null_name};
pub use validation::{uniques_broken, validate};
