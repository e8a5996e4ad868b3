//! The columns and the values of an INSERT.
ghost use Rattle.std.specs.Prelude.{◌≡◌, ◌==◌, IfOk, map};
ghost use Rattle.std.specs.List.{enumerate_from, zip};
ghost use Rattle.std.specs.Map.{lookup};
ghost use Rattle.std.specs.Option.{option_copied};
ghost use Rattle.sql_base.specs.Outcome.{every};
ghost use Rattle.row_rules.specs.Inner as inner;
ghost use Rattle.row_rules.specs.Outcome.{Answers, first_some};
ghost use Rattle.row_rules.specs.Settle as spec;

use crate::causes::{bare_error, no_value, null_key_error};
use crate::kinds::{Job, SqlError, Table};
use crate::outcomes::try_first;
use crate::settling::{named_once, value_error};
use crate::showing::evaluated;
use crate::stops::Stop;
use sql_base::{
    Code, Column, Copying, EvalFault, Expr, List, Name, NoMemory, Shape, Value, try_map,
};
use sql_eval::operate::is_null;
use std::alloc::Global;

// The shape in which every column is unknown.
fn no_columns(alloc: Global) -> Shape
    ensures { result ≡ spec.no_columns }
{
    Shape {
        columns: List::new(alloc),
        key: 0,
        checks: List::new(alloc),
        uniques: List::new(alloc),
    }
}

// ---- names and types

// The places of the listed columns.
fn places_listed(alloc: Global, shape: &Shape, names: &[Name]) -> Result<List<u32>, Stop<SqlError>>
    ensures { Answers (spec.places_listed shape.now names.now) result }
{
    let mut places = List::new(alloc);
    for (at, name) in names.iter().enumerate() {
        match named_once(alloc, shape, names, at, name) {
            Ok(place) => places.push(place)?,
            Err(stop) => return Err(stop),
        }
    }
    Ok(places)
}

// The first of these values that isn't one of its column.
fn values_error(
    alloc: Global,
    shape: &Shape,
    places: &[u32],
    row: &[Expr],
) -> Result<Option<SqlError>, NoMemory>
    ensures { IfOk result (λ error. error ≡ first_some (spec.value_error spec.no_columns shape.now) (zip places.now row.now)) }
{
    let over = no_columns(alloc);
    for (at, place) in places.iter().enumerate() {
        match row.get(at) {
            Some(expr) => {
                if let Some(error) = value_error(alloc, &over, shape, *place, expr)? {
                    return Ok(Some(error));
                }
            }
            None => return Ok(None),
        }
    }
    Ok(None)
}

fn row_error(
    alloc: Global,
    shape: &Shape,
    places: &[u32],
    row: &List<Expr>,
) -> Result<Option<SqlError>, NoMemory>
    ensures { IfOk result (λ error. error ≡ spec.row_of_values_error shape.now places.now row.now) }
{
    if places.len() == row.len() {
        values_error(alloc, shape, places, row.as_slice())
    } else {
        Ok(Some(bare_error(Code::C42601)))
    }
}

fn rows_error(
    alloc: Global,
    shape: &Shape,
    places: &[u32],
    rows: &[List<Expr>],
) -> Result<Option<SqlError>, NoMemory>
    ensures { IfOk result (λ error. error ≡ first_some (spec.row_of_values_error shape.now places.now) rows.now) }
{
    try_first(rows, |row| row_error(alloc, shape, places, row))
}

// ---- values

// The values of a row of VALUES.
fn row_evaluated(alloc: Global, row: &List<Expr>) -> Result<List<Value>, Stop<SqlError>>
    ensures { Answers (spec.row_evaluated row.now) result }
{
    let over = no_columns(alloc);
    match evaluated(alloc, &over, row.as_slice(), &[]) {
        Ok(values) => Ok(values),
        Err(EvalFault::NoMemory) => Err(Stop::NoMemory),
        Err(fault) => Err(Stop::Because(no_value(alloc, fault)?)),
    }
}

fn all_evaluated(alloc: Global, rows: &[List<Expr>]) -> Result<List<List<Value>>, Stop<SqlError>>
    ensures { Answers (every (map spec.row_evaluated rows.now)) result }
{
    let mut all = List::new(alloc);
    for row in rows {
        match row_evaluated(alloc, row) {
            Ok(values) => all.push(values)?,
            Err(stop) => return Err(stop),
        }
    }
    Ok(all)
}

// The value that is given for a place.
fn value_for<'a>(places: &[u32], values: &'a [Value], at: usize) -> Option<&'a Value>
    ensures { option_copied result ≡ lookup (λ place. place == at) (zip places.now values.now) }
{
    for (i, place) in places.iter().enumerate() {
        match values.get(i) {
            Some(value) => {
                if *place as usize == at {
                    return Some(value);
                }
            }
            None => return None,
        }
    }
    None
}

fn value_or_default(
    alloc: Global,
    places: &[u32],
    values: &[Value],
    at: usize,
    column: &Column,
) -> Result<Value, NoMemory>
    ensures { IfOk result (λ value. value ≡ spec.value_or_default (zip places.now values.now) (at, column.now)) }
{
    match value_for(places, values, at) {
        Some(value) => value.copy(alloc),
        None => column.default.copy(alloc),
    }
}

fn row_completed(
    alloc: Global,
    shape: &Shape,
    places: &[u32],
    values: &[Value],
) -> Result<List<Value>, NoMemory>
    ensures { IfOk result (λ row. row ≡ spec.row_completed shape.now places.now values.now) }
{
    let mut row = List::new(alloc);
    for (at, column) in shape.columns.as_slice().iter().enumerate() {
        row.push(value_or_default(alloc, places, values, at, column)?)?;
    }
    Ok(row)
}

fn all_completed(
    alloc: Global,
    shape: &Shape,
    places: &[u32],
    rows: &[List<Value>],
) -> Result<List<List<Value>>, NoMemory>
    ensures { IfOk result (λ all. all ≡ map (spec.row_completed shape.now places.now) rows.now) }
{
    try_map(
        alloc,
        rows,
        |values| row_completed(alloc, shape, places, values.as_slice()),
    )
}

fn null_key(alloc: Global, table: &Table, row: &List<Value>) -> Result<Option<SqlError>, NoMemory>
    ensures { IfOk result (λ error. error ≡ spec.null_key table.now row.now) }
{
    match row.as_slice().get(table.2.key as usize) {
        Some(value) if !is_null(value) => Ok(None),
        _ => Ok(Some(null_key_error(alloc, table)?)),
    }
}

fn first_null_key(
    alloc: Global,
    table: &Table,
    rows: &[List<Value>],
) -> Result<Option<SqlError>, NoMemory>
    ensures { IfOk result (λ error. error ≡ first_some (spec.null_key table.now) rows.now) }
{
    try_first(rows, |row| null_key(alloc, table, row))
}

// The rows of these values, where no key is NULL.
fn rows_completed(
    alloc: Global,
    table: &Table,
    places: &[u32],
    valued: &[List<Value>],
) -> Result<List<List<Value>>, Stop<SqlError>>
    ensures { Answers (inner.rows_completed table.now places.now valued.now) result }
{
    let all = all_completed(alloc, &table.2, places, valued)?;
    match first_null_key(alloc, table, all.as_slice())? {
        Some(error) => Err(Stop::Because(error)),
        None => Ok(all),
    }
}

fn rows_valued(
    alloc: Global,
    table: &Table,
    places: &[u32],
    rows: &[List<Expr>],
) -> Result<List<List<Value>>, Stop<SqlError>>
    ensures { Answers (spec.rows_valued table.now places.now rows.now) result }
{
    match all_evaluated(alloc, rows) {
        Ok(valued) => rows_completed(alloc, table, places, valued.as_slice()),
        Err(stop) => Err(stop),
    }
}

fn rows_placed(
    alloc: Global,
    table: &Table,
    places: &[u32],
    rows: &[List<Expr>],
) -> Result<List<List<Value>>, Stop<SqlError>>
    ensures { Answers (inner.rows_placed table.now places.now rows.now) result }
{
    match rows_error(alloc, &table.2, places, rows)? {
        Some(error) => Err(Stop::Because(error)),
        None => rows_valued(alloc, table, places, rows),
    }
}

fn rows_inserted(
    alloc: Global,
    table: &Table,
    names: &[Name],
    rows: &[List<Expr>],
) -> Result<List<List<Value>>, Stop<SqlError>>
    ensures { Answers (spec.rows_inserted table.now names.now rows.now) result }
{
    match places_listed(alloc, &table.2, names) {
        Ok(places) => rows_placed(alloc, table, places.as_slice(), rows),
        Err(stop) => Err(stop),
    }
}

/// What an INSERT of these columns and rows puts into a table. First each listed column is looked at: 42703 where the
/// table has no such column, 42701 where it was named before. Then each row: 42601 where it hasn't one value for each
/// listed column, and value by value the expression's faults (every column is unknown there) and 42804 against its
/// column. Then all values are evaluated, in written order; then 23502 for the first key that is NULL.
pub fn insert_job(
    alloc: Global,
    table: &Table,
    names: &[Name],
    rows: &[List<Expr>],
) -> Result<Job, Stop<SqlError>>
    ensures { Answers (spec.insert_job table.now names.now rows.now) result }
{
    let all = rows_inserted(alloc, table, names, rows)?;
    Ok(Job::Put(all))
}
