//! Parts of the plain step that look at no stored row, or at rows that they are given: for what computes the step over rows
//! that it keeps otherwise.
pub use crate::fill::{MAX_BATCH, may_not_fill};
pub use crate::may_put::may_put;
pub use crate::phases::phase_of;
pub use crate::refusals::{not_valid, refused_batch};
pub use crate::replies::{
    error_reply, no_memory, no_table, over_limit, row_reply, syntax, too_many_rows, wide_literal,
    written_reply,
};
pub use crate::rows::{MAX_ROWS, row_count};
pub use crate::start::{created_in, may_not_start, planned};
pub use crate::statement::{BegunRef, MAX_INSERT, begun};
pub use crate::staying::{lost_columns_in, lost_weight};
pub use crate::tables::{
    FoundTable, SharedTable, filling_site, lens_among, lost_columns_of, numbered, rows_of, shared,
    site_of, table_of, table_on,
};
