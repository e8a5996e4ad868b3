//! Steps that the crates above share.
pub use crate::stored::{begun_row, joined};
pub use crate::views::{value_at, with_all};
