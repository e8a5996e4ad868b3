//! A table that both versions have.
use mig_lens::{Layout, Lens};
use sql_base::{Copying, NoMemory, Shape};
use std::alloc::Global;

/// A table that both versions have, while both stand: its two shapes, the lens between them, and the layout of its
/// stored rows.
///
/// A stored row has the old columns' values, then a shadow value for each new column that isn't carried, and the mark
/// last where the layout has one.
#[derive(Drop)]
pub struct Pair {
    /// The table's shape in the version that stood before.
    pub old: Shape,
    /// Its shape in the version that the migration makes.
    pub new: Shape,
    /// How the two shapes hang together.
    pub lens: Lens,
    /// The places of the stored rows: what `mig_lens::layout` makes of the shapes and the lens.
    pub layout: Layout,
}

impl Copying for Pair {
    fn copy(&self, alloc: Global) -> Result<Pair, NoMemory> {
        Ok(Pair {
            old: self.old.copy(alloc)?,
            new: self.new.copy(alloc)?,
            lens: self.lens.copy(alloc)?,
            layout: self.layout.copy(alloc)?,
        })
    }
}
