//! What a side's halves of a table's rows have in the columns of its unique constraints, kept beside the rows.
//!
//! Of each unique constraint there is an index of values by key, in the constraints' order. It is built from the rows
//! once, then changed as they are: the changes are prepared and room is made, which takes all the memory, and then they
//! are applied, which can't fail. A row whose half of the side is missing is in none of the indexes.
#![tactic(auto)]

mod building;
mod changes;
mod index;
pub mod laws;

pub use changes::IndexChange;
pub use index::SideIndex;
