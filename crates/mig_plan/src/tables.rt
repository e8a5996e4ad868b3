//! The tables of a version, and their constraints' names.

ghost use Rattle.std.specs.Prelude.{◌≡◌, IfOk};
ghost use Rattle.std.specs.Option.{option_copied};
ghost use Rattle.mig_plan.specs.Versions as spec;

use sql_base::{Name, NoMemory, Schema, Shape};
use std::alloc::Global;

/// A table of a version: its name, its number and its shape.
pub type Table = (Name, u32, Shape);

/// The table of this number.
pub fn table_numbered(schema: &Schema, number: u32) -> Option<&Table>
    ensures { option_copied result ≡ spec.table_numbered schema.now number }
{
    schema
        .tables
        .as_slice()
        .iter()
        .find(|table| table.1 == number)
}

/// The shape of the table of this number.
pub fn shape_numbered(schema: &Schema, number: u32) -> Option<&Shape>
    ensures { option_copied result ≡ spec.shape_numbered schema.now number }
{
    match table_numbered(schema, number) {
        Some((_, _, shape)) => Some(shape),
        None => None,
    }
}

/// The name of the constraint that a table's key is.
pub fn key_name(alloc: Global, table: &Name) -> Result<Name, NoMemory>
    ensures { IfOk result (λ name. name ≡ spec.key_name table.now) }
{
    let mut name = Vec::from_slice(alloc, table.as_slice())?;
    name.extend_from_slice(b"_pkey")?;
    Name::from_slice(alloc, name.as_slice())
}

/// The name of the unique constraint that a column makes.
pub fn unique_name(alloc: Global, table: &Name, column: &Name) -> Result<Name, NoMemory>
    ensures { IfOk result (λ name. name ≡ spec.unique_name table.now column.now) }
{
    let mut name = Vec::from_slice(alloc, table.as_slice())?;
    name.extend_from_slice(b"_")?;
    name.extend_from_slice(column.as_slice())?;
    name.extend_from_slice(b"_key")?;
    Name::from_slice(alloc, name.as_slice())
}

fn has_check(shape: &Shape, name: &Name) -> bool
    ensures { result ≡ spec.has_check name.now shape.now }
{
    let checks = shape.checks.as_slice();
    checks
        .iter()
        .any(|check| check.name.as_slice() == name.as_slice())
}

fn has_unique(shape: &Shape, name: &Name) -> bool
    ensures { result ≡ spec.has_unique name.now shape.now }
{
    let uniques = shape.uniques.as_slice();
    uniques
        .iter()
        .any(|unique| unique.name.as_slice() == name.as_slice())
}

/// Whether the table has a constraint of this name.
pub fn has_constraint(alloc: Global, table: &Table, name: &Name) -> Result<bool, NoMemory>
    ensures { IfOk result (λ has. has ≡ spec.has_constraint name.now table.now) }
{
    if has_check(&table.2, name) || has_unique(&table.2, name) {
        return Ok(true);
    }
    Ok(key_name(alloc, &table.0)?.as_slice() == name.as_slice())
}
