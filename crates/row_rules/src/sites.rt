//! A table as a statement meets it.
use crate::kinds::Table;
use mig_lens::{Lens, Side};

/// What the other version has of a table that both have, and the lens between the old shape and the new one.
#[derive(Clone, Copy)]
pub struct BesideRef<'a> {
    pub table: &'a Table,
    pub lens: &'a Lens,
}

/// A table as a statement meets it: the side that it goes through, what that version has of it, and what the other one
/// has, where both have it.
#[derive(Clone, Copy)]
pub struct SiteRef<'a> {
    pub side: Side,
    pub here: &'a Table,
    pub there: Option<BesideRef<'a>>,
    /// The lost weight of a new row: the number of columns that are lost with the version that is gone.
    pub lost: u64,
}
