//! Statements.
use crate::copies::Copying;
use crate::exprs::Expr;
use crate::lists::List;
use crate::memory::NoMemory;
use crate::texts::Name;
use std::alloc::Global;

/// What a SELECT gives of each row.
#[derive(Drop)]
pub enum Items {
    /// `*`: all columns, in their order.
    All,
    /// These expressions.
    Listed(List<Expr>),
}

/// A statement, as it is read.
#[derive(Drop)]
pub enum Stmt {
    /// Into this table, for these columns, these rows of values.
    Insert(Name, List<Name>, List<List<Expr>>),
    /// Of this table, these columns are set to these values, where this is true.
    Update(Name, List<(Name, Expr)>, Option<Expr>),
    /// Of this table, the rows where this is true go.
    Delete(Name, Option<Expr>),
    /// Of this table, these items of the rows where this is true.
    Query(Name, Items, Option<Expr>),
    /// The path of versions that later statements go through.
    SetPath(List<Name>),
}

impl Copying for Items {
    fn copy(&self, alloc: Global) -> Result<Items, NoMemory> {
        match self {
            Items::All => Ok(Items::All),
            Items::Listed(list) => Ok(Items::Listed(list.copy(alloc)?)),
        }
    }
}

impl Copying for Stmt {
    fn copy(&self, alloc: Global) -> Result<Stmt, NoMemory> {
        match self {
            Stmt::Insert(table, columns, rows) => Ok(Stmt::Insert(
                table.copy(alloc)?,
                columns.copy(alloc)?,
                rows.copy(alloc)?,
            )),
            Stmt::Update(table, sets, filter) => Ok(Stmt::Update(
                table.copy(alloc)?,
                sets.copy(alloc)?,
                filter.copy(alloc)?,
            )),
            Stmt::Delete(table, filter) => {
                Ok(Stmt::Delete(table.copy(alloc)?, filter.copy(alloc)?))
            }
            Stmt::Query(table, items, filter) => Ok(Stmt::Query(
                table.copy(alloc)?,
                items.copy(alloc)?,
                filter.copy(alloc)?,
            )),
            Stmt::SetPath(names) => Ok(Stmt::SetPath(names.copy(alloc)?)),
        }
    }
}
