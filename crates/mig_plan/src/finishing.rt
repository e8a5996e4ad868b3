//! What a draft comes to: the new version's shapes, and the lens of each table.

ghost use Rattle.std.specs.Prelude.{◌≡◌, map, take, IfOk};
ghost use Rattle.std.specs.List.{filter_map};
ghost use Rattle.std.specs.Option.{option_copied};
ghost use Rattle.mig_plan.specs.Finish as spec;

use crate::drafts::{Draft, DraftColumn, DraftTable, new_count};
use crate::tables::Table;
use mig_lens::{Cell, Fate, Lens, Plan};
use sql_base::{Check, Column, Copying, Expr, List, NoMemory, Schema, Shape, Unique, try_map};
use std::alloc::Global;

// ---- shapes

/// The first columns, as many as this, or all of them.
fn front(columns: &[DraftColumn], count: usize) -> &[DraftColumn]
    ensures { result.now ≡ take count columns.now }
{
    if count < columns.len() {
        &columns[..count]
    } else {
        columns
    }
}

/// The place, among the new version's columns, of the column at this place of the draft.
///
/// (There are fewer than 2 ^ 32 of them; more would be answered as want of memory.)
fn new_place(columns: &[DraftColumn], at: u32) -> Result<u32, NoMemory>
    ensures { IfOk result (λ place. place ≡ spec.place spec.new_side columns.now at) }
{
    match u32::try_from(new_count(front(columns, at as usize))) {
        Ok(place) => Ok(place),
        Err(_) => Err(NoMemory),
    }
}

fn new_columns(alloc: Global, columns: &[DraftColumn]) -> Result<List<Column>, NoMemory>
    ensures { IfOk result (λ new. new ≡ filter_map spec.new_side columns.now) }
{
    let mut new = List::new(alloc);
    for column in columns {
        if let Some(column) = &column.after.column {
            new.push(column.copy(alloc)?)?;
        }
    }
    Ok(new)
}

fn places_in(alloc: Global, columns: &[DraftColumn], unique: &Unique) -> Result<List<u32>, NoMemory>
    ensures { IfOk result (λ places. places ≡ map (spec.place spec.new_side columns.now) unique.now.columns) }
{
    try_map(
        alloc,
        unique.columns.as_slice(),
        |at| new_place(columns, *at),
    )
}

fn unique_of(alloc: Global, columns: &[DraftColumn], unique: &Unique) -> Result<Unique, NoMemory>
    ensures { IfOk result (λ made. made ≡ spec.unique_of columns.now unique.now) }
{
    Ok(Unique {
        name: unique.name.copy(alloc)?,
        columns: places_in(alloc, columns, unique)?,
    })
}

fn uniques_of(alloc: Global, table: &DraftTable) -> Result<List<Unique>, NoMemory>
    ensures { IfOk result (λ made. made ≡ map (spec.unique_of table.now.columns) table.now.uniques) }
{
    let columns = table.columns.as_slice();
    try_map(
        alloc,
        table.uniques.as_slice(),
        |unique| unique_of(alloc, columns, unique),
    )
}

fn checks_of(alloc: Global, table: &DraftTable) -> Result<List<Check>, NoMemory>
    ensures { IfOk result (λ made. made ≡ map (λ check. check.check) table.now.checks) }
{
    try_map(
        alloc,
        table.checks.as_slice(),
        |check| check.check.copy(alloc),
    )
}

/// The table's shape in the new version.
pub fn shape_of(alloc: Global, table: &DraftTable) -> Result<Shape, NoMemory>
    ensures { IfOk result (λ shape. shape ≡ spec.shape_of table.now) }
{
    let columns = table.columns.as_slice();
    Ok(Shape {
        columns: new_columns(alloc, columns)?,
        key: new_place(columns, table.key)?,
        checks: checks_of(alloc, table)?,
        uniques: uniques_of(alloc, table)?,
    })
}

// ---- lenses

/// A column's cell: what makes it, or else the other side's column at this place, or else its default.
fn cell_of(
    alloc: Global,
    link: &Option<Expr>,
    is_carried: bool,
    at: u32,
    own: &Column,
) -> Result<Cell, NoMemory>
    ensures { IfOk result (λ cell. cell ≡ spec.cell_of link.now is_carried at own.now) }
{
    match link {
        Some(expr) => Ok(Cell::Make(expr.copy(alloc)?)),
        None if is_carried => Ok(Cell::Carry(at)),
        None => Ok(Cell::Still(own.default.copy(alloc)?)),
    }
}

/// The place behind this one, where there is a column at it.
fn next_place(at: u32, is_there: bool) -> Result<u32, NoMemory>
    ensures { IfOk result (λ next. next ≡ spec.next_place is_there at) }
{
    if !is_there {
        return Ok(at);
    }
    match at.checked_add(1) {
        Some(next) => Ok(next),
        None => Err(NoMemory),
    }
}

fn new_cells(alloc: Global, columns: &[DraftColumn]) -> Result<List<Cell>, NoMemory>
    ensures { IfOk result (λ cells. cells ≡ spec.new_cells 0 columns.now) }
{
    let mut cells = List::new(alloc);
    let mut at = 0;
    for column in columns {
        let is_there = column.before.is_some();
        if let Some(own) = &column.after.column {
            cells.push(cell_of(alloc, &column.after.up, is_there, at, own)?)?;
        }
        at = next_place(at, is_there)?;
    }
    Ok(cells)
}

fn old_cells(alloc: Global, columns: &[DraftColumn]) -> Result<List<Cell>, NoMemory>
    ensures { IfOk result (λ cells. cells ≡ spec.old_cells 0 columns.now) }
{
    let mut cells = List::new(alloc);
    let mut at = 0;
    for column in columns {
        let is_there = column.after.column.is_some();
        if let Some(own) = &column.before {
            cells.push(cell_of(alloc, &column.after.down, is_there, at, own)?)?;
        }
        at = next_place(at, is_there)?;
    }
    Ok(cells)
}

fn lens_of_columns(alloc: Global, columns: &[DraftColumn]) -> Result<Lens, NoMemory>
    ensures { IfOk result (λ lens. lens ≡ spec.lens_of_columns columns.now) }
{
    Ok(Lens {
        new_cols: new_cells(alloc, columns)?,
        old_cols: old_cells(alloc, columns)?,
    })
}

// ---- the plan

fn fate_of(alloc: Global, table: &DraftTable) -> Result<(u32, Fate), NoMemory>
    ensures { IfOk result (λ fate. fate ≡ spec.fate_of table.now) }
{
    if !table.stood {
        return Ok((table.number, Fate::Created));
    }
    match &table.name {
        Some(_) => {
            let lens = lens_of_columns(alloc, table.columns.as_slice())?;
            Ok((table.number, Fate::Kept(lens)))
        }
        None => Ok((table.number, Fate::Dropped)),
    }
}

fn new_table(alloc: Global, table: &DraftTable) -> Result<Option<Table>, NoMemory>
    ensures { IfOk result (λ made. made ≡ spec.new_table table.now) }
{
    match &table.name {
        Some(name) => {
            let shape = shape_of(alloc, table)?;
            Ok(Some((name.copy(alloc)?, table.number, shape)))
        }
        None => Ok(None),
    }
}

fn new_tables(alloc: Global, tables: &[DraftTable]) -> Result<List<Table>, NoMemory>
    ensures { IfOk result (λ new. new ≡ filter_map spec.new_table tables.now) }
{
    let mut new = List::new(alloc);
    for table in tables {
        if let Some(table) = new_table(alloc, table)? {
            new.push(table)?;
        }
    }
    Ok(new)
}

/// What a draft comes to.
pub fn finished(alloc: Global, draft: &Draft) -> Result<Plan, NoMemory>
    ensures { IfOk result (λ plan. plan ≡ spec.finished draft.now) }
{
    let tables = draft.tables.as_slice();
    Ok(Plan {
        schema: Schema {
            tables: new_tables(alloc, tables)?,
        },
        fates: try_map(alloc, tables, |table| fate_of(alloc, table))?,
    })
}
