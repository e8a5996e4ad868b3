//! The names of the constraints that a row may break.
ghost use Rattle.std.specs.Prelude.{◌≡◌, IfOk};
ghost use Rattle.constraint.specs.Names as spec;

use sql_base::{Name, NoMemory, RowFault, Shape};
use std::alloc::Global;

// The name of the column at this place.
fn column_name(shape: &Shape, at: usize) -> &[u8]
    ensures { result.now ≡ spec.column_name shape.now at }
{
    match shape.columns.as_slice().get(at) {
        Some(column) => column.name.as_slice(),
        None => b"",
    }
}

// The name of the check at this place.
fn check_name(shape: &Shape, at: u64) -> &[u8]
    ensures { result.now ≡ spec.check_name shape.now at }
{
    match shape.checks.as_slice().get(at as usize) {
        Some(check) => check.name.as_slice(),
        None => b"",
    }
}

/// The name of the NOT NULL constraint of the column at this place: `<table>_<column>_not_null`. An
/// error is want of memory.
pub fn not_null_name(
    alloc: Global,
    table: &Name,
    shape: &Shape,
    at: usize,
) -> Result<Name, NoMemory>
    ensures { IfOk result (λ name. name ≡ spec.not_null_name table.now shape.now at) }
{
    let mut name = Vec::from_slice(alloc, table.as_slice())?;
    name.extend_from_slice(b"_")?;
    name.extend_from_slice(column_name(shape, at))?;
    name.extend_from_slice(b"_not_null")?;
    Name::from_slice(alloc, name.as_slice())
}

/// The name of the constraint that a row of this table doesn't meet, by its fault. An error is want
/// of memory.
pub fn broken_name(
    alloc: Global,
    table: &Name,
    shape: &Shape,
    fault: RowFault,
) -> Result<Name, NoMemory>
    ensures { IfOk result (λ name. name ≡ spec.broken_name table.now shape.now fault) }
{
    match fault {
        RowFault::Null(at) => not_null_name(alloc, table, shape, at as usize),
        RowFault::Check(at) | RowFault::Eval(at, _) => {
            Name::from_slice(alloc, check_name(shape, at))
        }
    }
}
