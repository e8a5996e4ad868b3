//! How the two shapes of a table hang together, column by column.
use sql_base::{Copying, Expr, List, NoMemory, Value};
use std::alloc::Global;

/// A side of a migration. While no migration is active the one version that stands is the old side.
#[derive(Clone, Copy, Debug, PartialEq, Eq)]
pub enum Side {
    /// The version that stood before.
    Old,
    /// The version that the migration makes.
    New,
}

/// Where a column's value comes from when its half of a row is made from the other half.
#[derive(Drop)]
pub enum Cell {
    /// The value of the other side's column at this place, from 0.
    Carry(u32),
    /// What this expression comes to over the other half.
    Make(Expr),
    /// The value that the half had there before, or this one where there was no half before.
    Still(Value),
}

/// How the two shapes of a table hang together: a cell for each column of each side.
#[derive(Drop)]
pub struct Lens {
    /// Of the new columns, in order. Their cells speak of the old half.
    pub new_cols: List<Cell>,
    /// Of the old columns, in order. Their cells speak of the new half.
    pub old_cols: List<Cell>,
}

impl Copying for Cell {
    fn copy(&self, alloc: Global) -> Result<Cell, NoMemory> {
        match self {
            Cell::Carry(at) => Ok(Cell::Carry(*at)),
            Cell::Make(expr) => Ok(Cell::Make(expr.copy(alloc)?)),
            Cell::Still(value) => Ok(Cell::Still(value.copy(alloc)?)),
        }
    }
}

impl Copying for Lens {
    fn copy(&self, alloc: Global) -> Result<Lens, NoMemory> {
        Ok(Lens {
            new_cols: self.new_cols.copy(alloc)?,
            old_cols: self.old_cols.copy(alloc)?,
        })
    }
}
