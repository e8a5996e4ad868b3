//! What stays of a state when a version goes: the other version alone stands. What is lost with the one that goes.
ghost use Rattle.std.specs.Prelude.{◌≡◌, ◌+◌, [], IfOk, is_some, map, slice_get, unwrap_or};
ghost use Rattle.std.specs.Option.{option_copied, option_map_or};
ghost use Rattle.std.specs.List.{filter_map};
ghost use Rattle.mig_lens.specs.declared.columns.Side.TheVariants as side;
ghost use Rattle.mig_lens.specs.Lens.{is_carry};
ghost use Rattle.mig_lens.specs.Plan.{table_numbered};
ghost use Rattle.row_rules.specs.Site.{half, other};
ghost use Rattle.machine.specs.Migrate as spec;

use crate::states::{Mode, State};
use crate::tables::{lens_among, numbered};
use mig_lens::{Cell, Fate, Kind, Lens, Side, unfilled};
use row_rules::{Halves, Kept};
use sql_base::{Copying, List, Name, NoMemory, Schema, Value, value_weight};
use std::alloc::Global;

/// How a migration ends.
#[derive(Clone, Copy)]
pub struct Ending {
    /// The version of this side goes.
    pub gone: Side,
    /// The steps of tidying that are left then are of this kind.
    pub kind: Kind,
    /// So many are left.
    pub left: u8,
}

// ---- what is lost

fn is_carry(cell: &Cell) -> bool
    ensures { result ≡ is_carry cell.now }
{
    match cell {
        Cell::Carry(_) => true,
        Cell::Make(_) | Cell::Still(_) => false,
    }
}

fn lost_value(cell: &Cell, value: &Value) -> u64
    ensures { result ≡ spec.lost_value (cell.now, value.now) }
{
    if is_carry(cell) {
        0
    } else {
        value_weight(value)
    }
}

// A total with what one column loses, where it has a value. A sum that 64 bits don't hold is answered as want of memory.
fn with_lost(total: u64, cell: &Cell, value: Option<&Value>) -> Result<u64, NoMemory>
    ensures { IfOk result (λ more. more ≡ total + option_map_or (λ value. spec.lost_value (cell.now, value)) (option_copied value.entry) 0) }
{
    match value {
        Some(value) => total.checked_add(lost_value(cell, value)).ok_or(NoMemory),
        None => Ok(total),
    }
}

fn value_at(values: &[Value], at: usize) -> Option<&Value>
    ensures { option_copied result ≡ slice_get values.now at }
{
    values.get(at)
}

/// The weight of the values of a half that its lens doesn't carry. An error is want of memory.
pub fn lost_weight(cells: &[Cell], values: &[Value]) -> Result<u64, NoMemory>
    ensures { IfOk result (λ weight. weight ≡ spec.lost_weight cells.now values.now) }
{
    let mut total: u64 = 0;
    for (at, cell) in cells.iter().enumerate() {
        total = with_lost(total, cell, value_at(values, at))?;
    }
    Ok(total)
}

fn values_or_none(half: &Option<List<Value>>) -> &[Value]
    ensures { result.now ≡ unwrap_or half.now [] }
{
    match half {
        Some(values) => values.as_slice(),
        None => &[],
    }
}

// What is lost with the new version of a row that it shows.
fn lost_with_new(alloc: Global, lens: &Lens, halves: &Halves) -> Result<u64, NoMemory>
    ensures { IfOk result (λ weight. weight ≡ spec.lost_weight lens.now.new_cols (spec.shown_on side.New lens.now halves.now)) }
{
    match &halves.new {
        Some(new) => lost_weight(lens.new_cols.as_slice(), new.as_slice()),
        None => {
            let shown = unfilled(alloc, lens, values_or_none(&halves.old))?;
            lost_weight(lens.new_cols.as_slice(), shown.as_slice())
        }
    }
}

// What is lost with the version of a side of a row of a table that both versions have.
fn lost_with(alloc: Global, gone: Side, lens: &Lens, halves: &Halves) -> Result<u64, NoMemory>
    ensures { IfOk result (λ weight. weight ≡ spec.lost_weight (spec.cells_on gone lens.now) (spec.shown_on gone lens.now halves.now)) }
{
    match gone {
        Side::Old => lost_weight(lens.old_cols.as_slice(), values_or_none(&halves.old)),
        Side::New => lost_with_new(alloc, lens, halves),
    }
}

// What a row loses with the version of a side.
fn lost_by(alloc: Global, gone: Side, lens: Option<&Lens>, halves: &Halves) -> Result<u64, NoMemory>
    ensures { IfOk result (λ weight. weight ≡ option_map_or (λ lens. spec.lost_weight (spec.cells_on gone lens) (spec.shown_on gone lens halves.now)) (option_copied lens.entry) 0) }
{
    match lens {
        Some(lens) => lost_with(alloc, gone, lens, halves),
        None => Ok(0),
    }
}

fn cells_on(gone: Side, lens: &Lens) -> &[Cell]
    ensures { result.now ≡ spec.cells_on gone lens.now }
{
    match gone {
        Side::Old => lens.old_cols.as_slice(),
        Side::New => lens.new_cols.as_slice(),
    }
}

/// How many columns of a table are lost with the version of a side.
pub fn lost_columns_in(gone: Side, lens: &Lens) -> usize
    ensures { result ≡ spec.lost_columns_in gone lens.now }
{
    let mut count = 0;
    for cell in cells_on(gone, lens) {
        if !is_carry(cell) {
            count += 1;
        }
    }
    count
}

// How many columns of a table are lost, where any is. A number that 32 bits don't hold is answered as want of memory.
fn lost_in_table(
    gone: Side,
    fates: &[(u32, Fate)],
    table: &(u32, List<Kept>),
) -> Result<Option<(u32, u32)>, NoMemory>
    ensures { IfOk result (λ lost. lost ≡ spec.lost_in_table gone fates.now table.now) }
{
    let lost = match lens_among(fates, table.0) {
        Some(lens) => lost_columns_in(gone, lens),
        None => 0,
    };
    match u32::try_from(lost) {
        Ok(0) => Ok(None),
        Ok(lost) => Ok(Some((table.0, lost))),
        Err(_) => Err(NoMemory),
    }
}

fn columns_lost(
    alloc: Global,
    gone: Side,
    fates: &[(u32, Fate)],
    tables: &[(u32, List<Kept>)],
) -> Result<List<(u32, u32)>, NoMemory>
    ensures { IfOk result (λ lost. lost ≡ filter_map (spec.lost_in_table gone fates.now) tables.now) }
{
    let mut all = List::new(alloc);
    for table in tables {
        if let Some(lost) = lost_in_table(gone, fates, table)? {
            all.push(lost)?;
        }
    }
    Ok(all)
}

// ---- what stays

// The half that a row has then: that of the side that stays.
fn staying_half(gone: Side, halves: &Halves) -> &Option<List<Value>>
    ensures { result.now ≡ half (other gone) halves.now }
{
    match gone {
        Side::Old => &halves.new,
        Side::New => &halves.old,
    }
}

fn staying_row(alloc: Global, gone: Side, lens: Option<&Lens>, row: &Kept) -> Result<Kept, NoMemory>
    ensures { IfOk result (λ stays. stays ≡ spec.staying_row gone (option_copied lens.entry) row.now) }
{
    let lost = lost_by(alloc, gone, lens, &row.halves)?;
    Ok(Kept {
        key: row.key,
        halves: Halves {
            old: staying_half(gone, &row.halves).copy(alloc)?,
            new: None,
        },
        lost,
    })
}

fn staying_rows(
    alloc: Global,
    gone: Side,
    lens: Option<&Lens>,
    rows: &[Kept],
) -> Result<List<Kept>, NoMemory>
    ensures { IfOk result (λ stay. stay ≡ map (spec.staying_row gone (option_copied lens.entry)) rows.now) }
{
    let mut staying = List::new(alloc);
    for row in rows {
        staying.push(staying_row(alloc, gone, lens, row)?)?;
    }
    Ok(staying)
}

fn staying_table(
    alloc: Global,
    gone: Side,
    fates: &[(u32, Fate)],
    table: &(u32, List<Kept>),
) -> Result<(u32, List<Kept>), NoMemory>
    ensures { IfOk result (λ stays. stays ≡ spec.staying_table gone fates.now table.now) }
{
    let lens = lens_among(fates, table.0);
    let rows = staying_rows(alloc, gone, lens, table.1.as_slice())?;
    Ok((table.0, rows))
}

fn has_table(schema: &Schema, number: u32) -> bool
    ensures { result ≡ is_some (table_numbered schema.now number) }
{
    numbered(schema, number).is_some()
}

// The tables that the version which stays has.
fn staying_tables(
    alloc: Global,
    gone: Side,
    schema: &Schema,
    fates: &[(u32, Fate)],
    tables: &[(u32, List<Kept>)],
) -> Result<List<(u32, List<Kept>)>, NoMemory>
    ensures { IfOk result (λ stay. stay ≡ spec.staying_tables gone schema.now fates.now tables.now) }
{
    let mut staying = List::new(alloc);
    for table in tables {
        if has_table(schema, table.0) {
            staying.push(staying_table(alloc, gone, fates, table)?)?;
        }
    }
    Ok(staying)
}

/// The version of this name and these tables alone stands, with the steps of tidying left that the ending says.
pub fn standing_alone(
    alloc: Global,
    ending: Ending,
    name: &Name,
    schema: &Schema,
    fates: &[(u32, Fate)],
    s: &State,
) -> Result<State, NoMemory>
    ensures { IfOk result (λ t. t ≡ spec.standing_alone (record { gone = ending.gone; kind = ending.kind; left = ending.left }) name.now schema.now fates.now s.now) }
{
    let tables = staying_tables(alloc, ending.gone, schema, fates, s.tables.as_slice())?;
    let lost_columns = columns_lost(alloc, ending.gone, fates, tables.as_slice())?;
    Ok(State {
        version: name.copy(alloc)?,
        schema: schema.copy(alloc)?,
        mode: Mode::Calm,
        left: ending.left,
        kind: ending.kind,
        next_table: s.next_table,
        tables,
        lost_columns,
    })
}

// ---- tidying

fn row_without_loss(alloc: Global, row: &Kept) -> Result<Kept, NoMemory>
    ensures { IfOk result (λ same. same ≡ spec.without_loss row.now) }
{
    Ok(Kept {
        key: row.key,
        halves: row.halves.copy(alloc)?,
        lost: 0,
    })
}

fn rows_without_loss(alloc: Global, rows: &[Kept]) -> Result<List<Kept>, NoMemory>
    ensures { IfOk result (λ all. all ≡ map spec.without_loss rows.now) }
{
    let mut all = List::new(alloc);
    for row in rows {
        all.push(row_without_loss(alloc, row)?)?;
    }
    Ok(all)
}

fn tables_without_loss(
    alloc: Global,
    tables: &[(u32, List<Kept>)],
) -> Result<List<(u32, List<Kept>)>, NoMemory>
    ensures { IfOk result (λ all. all ≡ map spec.table_without_loss tables.now) }
{
    let mut all = List::new(alloc);
    for table in tables {
        let rows = rows_without_loss(alloc, table.1.as_slice())?;
        all.push((table.0, rows))?;
    }
    Ok(all)
}

/// The same state with nothing lost, and so many steps of tidying left of this kind.
pub fn without_loss(alloc: Global, left: u8, kind: Kind, s: &State) -> Result<State, NoMemory>
    ensures { IfOk result (λ t. t ≡ record s.now { left = left; kind = kind; tables = map spec.table_without_loss s.now.tables; lost_columns = [] }) }
{
    let tables = tables_without_loss(alloc, s.tables.as_slice())?;
    Ok(State {
        version: s.version.copy(alloc)?,
        schema: s.schema.copy(alloc)?,
        mode: s.mode.copy(alloc)?,
        left,
        kind,
        next_table: s.next_table,
        tables,
        lost_columns: List::new(alloc),
    })
}
