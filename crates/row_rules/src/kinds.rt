//! Rows with their halves, what is done to them, and why they aren't accepted.
use sql_base::{Code, Copying, Expr, List, Name, NoMemory, Shape, Value};
use std::alloc::Global;

/// A table of a version: its name, its number and its shape. A table keeps its number in every version.
pub type Table = (Name, u32, Shape);

/// A row as the versions have it: the old version's half, the new one's, or both. While one version stands it has
/// its old half alone.
#[derive(Debug, Drop)]
pub struct Halves {
    /// The half that the old version shows.
    pub old: Option<List<Value>>,
    /// The half that the new version shows. In a table that both versions have it may be missing: then the row is
    /// still to be filled.
    pub new: Option<List<Value>>,
}

/// A row under its key.
#[derive(Debug, Drop)]
pub struct Kept {
    /// The key.
    pub key: i64,
    /// What the versions have of it.
    pub halves: Halves,
    /// The lost weight: while steps of tidying are left, the weight of the values that the row showed through the version
    /// that is gone, in that version's columns that aren't carried; else 0.
    pub lost: u64,
}

/// Why a row isn't accepted: a code, what it is about where there is something to name (a constraint or a limit), and the
/// row's key.
#[derive(Debug, Drop)]
pub struct Cause {
    /// The code.
    pub code: Code,
    /// The constraint or the limit.
    pub name: Option<Name>,
    /// The row's key.
    pub key: i64,
}

/// Why a statement is refused: a code, what it is about where there is something to name (a table, a column, a constraint
/// or a limit), and the key of the row where it was found, where it is known.
#[derive(Debug, Drop)]
pub struct SqlError {
    /// The code.
    pub code: Code,
    /// The table, the column, the constraint or the limit.
    pub name: Option<Name>,
    /// The row's key.
    pub key: Option<i64>,
}

/// What a statement or a batch does to the rows of its table, once its names and types are settled and the values of an
/// INSERT are known.
#[derive(Drop)]
pub enum Job {
    /// Rows of these values are put. Each has a value for each column, in the columns' order.
    Put(List<List<Value>>),
    /// The rows that pass the WHERE, or all rows without one, get these values in the columns of these places.
    Alter(List<(u32, Expr)>, Option<Expr>),
    /// The rows that pass the WHERE, or all rows without one, are removed.
    Remove(Option<Expr>),
    /// Each row gets its new half.
    Fill,
}

/// What is done to one row.
#[derive(Debug, Drop)]
pub enum Change {
    /// The row stands so afterwards, under its key.
    Put(Kept),
    /// No row has this key afterwards.
    Remove(i64),
}

impl Copying for Halves {
    fn copy(&self, alloc: Global) -> Result<Halves, NoMemory> {
        Ok(Halves {
            old: self.old.copy(alloc)?,
            new: self.new.copy(alloc)?,
        })
    }
}

impl Copying for Kept {
    fn copy(&self, alloc: Global) -> Result<Kept, NoMemory> {
        Ok(Kept {
            key: self.key,
            halves: self.halves.copy(alloc)?,
            lost: self.lost,
        })
    }
}
