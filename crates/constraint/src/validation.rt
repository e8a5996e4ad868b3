//! Whether all rows of a table meet its constraints.
ghost use Rattle.std.specs.Prelude.{◌≡◌, ◌≤◌, IfOk, length};
ghost use Rattle.sql_eval.specs.Shape.{max_columns};
ghost use Rattle.constraint.specs.Valid as spec;

use crate::clashes::{Keyed, clash, with_least};
use crate::faults::check_row;
use crate::names::broken_name;
use sql_base::{Copying, Name, NoMemory, Shape, Unique};
use std::alloc::Global;

// The constraint that a row doesn't meet, with the row's key.
fn row_broken(
    alloc: Global,
    table: &Name,
    shape: &Shape,
    row: &Keyed,
) -> Result<Option<(Name, i64)>, NoMemory>
    requires { length shape.now.columns ≤ max_columns }
    ensures { IfOk result (λ broken. broken ≡ spec.row_broken table.now shape.now row.now) }
{
    match check_row(alloc, shape, row.1.as_slice())? {
        Some(fault) => {
            let name = broken_name(alloc, table, shape, fault)?;
            Ok(Some((name, row.0)))
        }
        None => Ok(None),
    }
}

// The same of the first row that doesn't meet one.
fn first_broken(
    alloc: Global,
    table: &Name,
    shape: &Shape,
    rows: &[Keyed],
) -> Result<Option<(Name, i64)>, NoMemory>
    requires { length shape.now.columns ≤ max_columns }
    ensures { IfOk result (λ broken. broken
        ≡ spec.first_some (spec.row_broken table.now shape.now) rows.now) }
{
    for row in rows {
        let broken = row_broken(alloc, table, shape, row)?;
        if broken.is_some() {
            return Ok(broken);
        }
    }
    Ok(None)
}

// The least key that has an equal.
fn least_equal(unique: &Unique, rows: &[Keyed]) -> Option<i64>
    ensures { result ≡ spec.least_equal unique.now rows.now }
{
    let mut least = None;
    let mut at = rows.len();
    while at > 0 {
        at -= 1;
        let key = rows[at].0;
        least = with_least(key, clash(unique, rows, key).is_some(), least);
    }
    least
}

// The unique constraint, with that key.
fn unique_broken(
    alloc: Global,
    unique: &Unique,
    rows: &[Keyed],
) -> Result<Option<(Name, i64)>, NoMemory>
    ensures { IfOk result (λ broken. broken ≡ spec.unique_broken rows.now unique.now) }
{
    match least_equal(unique, rows) {
        Some(key) => {
            let name = unique.name.copy(alloc)?;
            Ok(Some((name, key)))
        }
        None => Ok(None),
    }
}

/// The first of these unique constraints that rows don't meet, with the least key that has an equal; or none. An error
/// is want of memory.
pub fn uniques_broken(
    alloc: Global,
    uniques: &[Unique],
    rows: &[Keyed],
) -> Result<Option<(Name, i64)>, NoMemory>
    ensures { IfOk result (λ broken. broken
        ≡ spec.first_some (spec.unique_broken rows.now) uniques.now) }
{
    for unique in uniques {
        let broken = unique_broken(alloc, unique, rows)?;
        if broken.is_some() {
            return Ok(broken);
        }
    }
    Ok(None)
}

/// The constraint that rows of a table don't meet, with a key, or none: the first fault of a row,
/// by the rows' order; else, of the unique constraints in their order, the first with equal values,
/// and the least key that has an equal. This order is our own.
///
/// `table` is the table's name on the side that is looked at. Rows stand by ascending key. The
/// shape has at most 32 columns, as each well-formed one has. An error is want of memory.
pub fn validate(
    alloc: Global,
    table: &Name,
    shape: &Shape,
    rows: &[Keyed],
) -> Result<Option<(Name, i64)>, NoMemory>
    requires { length shape.now.columns ≤ max_columns }
    ensures { IfOk result (λ broken. broken ≡ spec.invalid table.now shape.now rows.now) }
{
    let broken = first_broken(alloc, table, shape, rows)?;
    if broken.is_some() {
        return Ok(broken);
    }
    uniques_broken(alloc, shape.uniques.as_slice(), rows)
}
