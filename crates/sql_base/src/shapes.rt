//! What a table looks like, and what a version holds.
use crate::copies::Copying;
use crate::exprs::Expr;
use crate::lists::List;
use crate::memory::NoMemory;
use crate::texts::Name;
use crate::values::{Ty, Value};
use std::alloc::Global;

/// A column of a table.
#[derive(Debug, Drop, PartialEq, Eq)]
pub struct Column {
    /// Its name.
    pub name: Name,
    /// The type of its values.
    pub ty: Ty,
    /// Whether it takes NULL.
    pub nullable: bool,
    /// The value of a row that names none.
    pub default: Value,
}

/// A condition that every row of a table meets.
#[derive(Drop)]
pub struct Check {
    /// Its name.
    pub name: Name,
    /// It is met where this is true or NULL.
    pub expr: Expr,
}

/// Columns whose values no two rows of a table have in common.
#[derive(Debug, Drop)]
pub struct Unique {
    /// Its name.
    pub name: Name,
    /// The places of the columns, from 0.
    pub columns: List<u32>,
}

/// What a table looks like in one version.
#[derive(Drop)]
pub struct Shape {
    /// The columns, in order.
    pub columns: List<Column>,
    /// The place of the key's column, from 0.
    pub key: u32,
    /// The checks, in order.
    pub checks: List<Check>,
    /// The unique constraints, in order.
    pub uniques: List<Unique>,
}

/// The tables of one version.
#[derive(Drop)]
pub struct Schema {
    /// Of each table its name, its number and its shape.
    pub tables: List<(Name, u32, Shape)>,
}

impl Copying for Column {
    fn copy(&self, alloc: Global) -> Result<Column, NoMemory> {
        Ok(Column {
            name: self.name.copy(alloc)?,
            ty: self.ty,
            nullable: self.nullable,
            default: self.default.copy(alloc)?,
        })
    }
}

impl Copying for Check {
    fn copy(&self, alloc: Global) -> Result<Check, NoMemory> {
        Ok(Check {
            name: self.name.copy(alloc)?,
            expr: self.expr.copy(alloc)?,
        })
    }
}

impl Copying for Unique {
    fn copy(&self, alloc: Global) -> Result<Unique, NoMemory> {
        Ok(Unique {
            name: self.name.copy(alloc)?,
            columns: self.columns.copy(alloc)?,
        })
    }
}

impl Copying for Shape {
    fn copy(&self, alloc: Global) -> Result<Shape, NoMemory> {
        Ok(Shape {
            columns: self.columns.copy(alloc)?,
            key: self.key,
            checks: self.checks.copy(alloc)?,
            uniques: self.uniques.copy(alloc)?,
        })
    }
}

impl Copying for Schema {
    fn copy(&self, alloc: Global) -> Result<Schema, NoMemory> {
        Ok(Schema {
            tables: self.tables.copy(alloc)?,
        })
    }
}
