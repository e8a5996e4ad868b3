//! `create_table`, `drop_table` and `rename_table`.

ghost use Rattle.std.specs.Prelude.{◌≡◌, ◌≤◌, ◌++◌, [], ◌∷◌, Some, None, codes, IfNone, IfOk};
ghost use Rattle.std.specs.List.{position_or_len};
ghost use Rattle.std.specs.Option.{option_copied};
ghost use Rattle.sql_base.specs.Outcome.{Gives};
ghost use Rattle.mig_plan.specs.Tables as spec;

use crate::adding::{MAX_COLUMNS, columns_fault, default_fault, name_fault, with_column};
use crate::drafts::{Draft, DraftTable, has_table};
use mig_lens::{ColumnDef, PlanFault};
use sql_base::{Copying, List, Name, NoMemory, Schema, Ty, has_type};
use sql_eval::operate::is_null;
use std::alloc::Global;

/// The largest number of a table.
pub const MAX_TABLE: u32 = 4_294_967_294;

/// The most tables of a version.
pub const MAX_TABLES: usize = 64;

// ---- create_table

fn empty_table(alloc: Global, title: &Name, number: u32, key: u32) -> Result<DraftTable, NoMemory>
    ensures { IfOk result (λ table. table ≡ spec.empty_table title.now number key) }
{
    Ok(DraftTable {
        number,
        stood: false,
        name: Some(title.copy(alloc)?),
        columns: List::new(alloc),
        key,
        checks: List::new(alloc),
        uniques: List::new(alloc),
    })
}

fn key_position(columns: &[ColumnDef]) -> usize
    ensures { result ≡ position_or_len (λ column. column.pk) columns.now }
{
    for (at, column) in columns.iter().enumerate() {
        if column.pk {
            return at;
        }
    }
    columns.len()
}

/// The place of the key's column. (There are fewer than 2 ^ 32 of them; more would be answered as want of memory.)
fn key_place(columns: &[ColumnDef]) -> Result<u32, NoMemory>
    ensures { IfOk result (λ key. key ≡ position_or_len (λ column. column.pk) columns.now) }
{
    match u32::try_from(key_position(columns)) {
        Ok(place) => Ok(place),
        Err(_) => Err(NoMemory),
    }
}

/// The table that is to have these columns, before it has any.
fn first_form(
    alloc: Global,
    title: &Name,
    columns: &[ColumnDef],
    number: u32,
) -> Result<DraftTable, NoMemory>
    ensures { IfOk result (λ table. table ≡ spec.first_form title.now columns.now number) }
{
    empty_table(alloc, title, number, key_place(columns)?)
}

fn names_fault(
    alloc: Global,
    old: &Schema,
    title: &Name,
    at: u64,
    columns: &[ColumnDef],
    empty: DraftTable,
) -> Result<Option<PlanFault>, NoMemory>
    ensures { IfOk result (λ fault. fault ≡ spec.names_fault old.now title.now at columns.now empty) }
{
    let mut table = empty;
    for column in columns {
        if let Some(fault) = name_fault(alloc, old, title, &table, column)? {
            return Ok(Some(fault));
        }
        table = with_column(alloc, title, column, None, None, at, &table)?;
    }
    Ok(None)
}

fn with_columns(
    alloc: Global,
    title: &Name,
    at: u64,
    columns: &[ColumnDef],
    empty: DraftTable,
) -> Result<DraftTable, NoMemory>
    ensures { IfOk result (λ with. with ≡ spec.with_columns title.now at columns.now empty) }
{
    let mut table = empty;
    for column in columns {
        table = with_column(alloc, title, column, None, None, at, &table)?;
    }
    Ok(table)
}

fn may_be_key(column: &ColumnDef) -> bool
    ensures { result ≡ spec.may_be_key column.now }
{
    column.ty == Ty::Bigint && is_null(&column.default)
}

/// The number of columns that are to be the key.
fn key_count(columns: &[ColumnDef]) -> usize
    ensures { result ≡ spec.key_count columns.now }
{
    let mut count = 0;
    for column in columns {
        if column.pk {
            count += 1;
        }
    }
    count
}

fn keys_may_be(columns: &[ColumnDef]) -> bool
    ensures { result ≡ spec.keys_may_be columns.now }
{
    columns
        .iter()
        .all(|column| !column.pk || may_be_key(column))
}

/// Whether exactly one column is the key, and it may be.
fn has_key(columns: &[ColumnDef]) -> bool
    ensures { result ≡ spec.has_key columns.now }
{
    key_count(columns) == 1 && keys_may_be(columns)
}

fn fits_default(column: &ColumnDef) -> bool
    ensures { result ≡ spec.fits_default column.now }
{
    has_type(Some(column.ty), &column.default)
}

fn tables_fault(alloc: Global) -> Result<PlanFault, NoMemory>
    ensures { IfOk result (λ fault. fault ≡ PlanFault.Limit (codes "tables")) }
{
    Ok(PlanFault::Limit(Name::from_slice(alloc, b"tables")?))
}

fn taken_fault(
    alloc: Global,
    old: &Schema,
    at: u64,
    title: &Name,
    columns: &[ColumnDef],
    draft: &Draft,
) -> Result<Option<PlanFault>, NoMemory>
    ensures { IfOk result (λ fault. fault ≡ spec.taken_fault old.now at title.now columns.now draft.now) }
{
    if has_table(old, draft, title) {
        return Ok(Some(PlanFault::Exists(title.copy(alloc)?)));
    }
    let empty = first_form(alloc, title, columns, draft.next_table)?;
    names_fault(alloc, old, title, at, columns, empty)
}

fn all_fit(columns: &[ColumnDef]) -> bool
    ensures { result ≡ spec.all_fit columns.now }
{
    columns.iter().all(|column| fits_default(column))
}

fn kinds_fault(
    alloc: Global,
    at: u64,
    title: &Name,
    columns: &[ColumnDef],
) -> Result<Option<PlanFault>, NoMemory>
    ensures { IfOk result (λ fault. fault ≡ spec.kinds_fault at title.now columns.now) }
{
    if !has_key(columns) {
        return Ok(Some(PlanFault::KeyColumn(title.copy(alloc)?)));
    }
    if !all_fit(columns) {
        return Ok(Some(default_fault(at)));
    }
    if columns.len() > MAX_COLUMNS {
        return Ok(Some(columns_fault(alloc)?));
    }
    Ok(None)
}

// The number of these tables that the new version so far has.
fn table_count(tables: &[DraftTable]) -> usize
    ensures { result ≡ spec.table_count tables.now }
{
    let mut count = 0;
    for table in tables {
        if table.name.is_some() {
            count += 1;
        }
    }
    count
}

fn room_fault(alloc: Global, draft: &Draft) -> Result<Option<PlanFault>, NoMemory>
    ensures first { IfOk result (λ fault. fault ≡ spec.room_fault draft.now) }
    ensures few { IfOk result (λ fault. IfNone fault (draft.now.next_table ≤ spec.max_table)) }
{
    if draft.next_table > MAX_TABLE || table_count(draft.tables.as_slice()) >= MAX_TABLES {
        return Ok(Some(tables_fault(alloc)?));
    }
    Ok(None)
}

/// What is wrong with a new table, in the operation at this place.
fn create_fault(
    alloc: Global,
    old: &Schema,
    at: u64,
    title: &Name,
    columns: &[ColumnDef],
    draft: &Draft,
) -> Result<Option<PlanFault>, NoMemory>
    ensures first { IfOk result (λ fault. fault ≡ spec.create_fault old.now at title.now columns.now draft.now) }
    ensures few { IfOk result (λ fault. IfNone fault (draft.now.next_table ≤ spec.max_table)) }
{
    if let Some(fault) = taken_fault(alloc, old, at, title, columns, draft)? {
        return Ok(Some(fault));
    }
    if let Some(fault) = kinds_fault(alloc, at, title, columns)? {
        return Ok(Some(fault));
    }
    room_fault(alloc, draft)
}

fn new_table(
    alloc: Global,
    at: u64,
    title: &Name,
    columns: &[ColumnDef],
    number: u32,
) -> Result<DraftTable, NoMemory>
    ensures { IfOk result (λ table. table ≡ spec.new_table at title.now columns.now number) }
{
    let empty = first_form(alloc, title, columns, number)?;
    with_columns(alloc, title, at, columns, empty)
}

/// The draft with one table more, or the first thing that is wrong with it.
pub fn table_created(
    alloc: Global,
    old: &Schema,
    at: u64,
    title: &Name,
    columns: &[ColumnDef],
    draft: &Draft,
) -> Result<Draft, PlanFault>
    ensures { Gives PlanFault.NoMemory (spec.table_created old.now at title.now columns.now draft.now) result }
{
    if let Some(fault) = create_fault(alloc, old, at, title, columns, draft)? {
        return Err(fault);
    }
    let mut tables = draft.tables.copy(alloc)?;
    tables.push(new_table(alloc, at, title, columns, draft.next_table)?)?;
    Ok(Draft {
        tables,
        next_table: draft.next_table + 1,
    })
}

// ---- drop_table and rename_table

fn retitled(alloc: Global, name: Option<&Name>, table: &DraftTable) -> Result<DraftTable, NoMemory>
    ensures { IfOk result (λ other. other ≡ record table.now { name = option_copied name.entry }) }
{
    let name = match name {
        Some(name) => Some(name.copy(alloc)?),
        None => None,
    };
    Ok(DraftTable {
        number: table.number,
        stood: table.stood,
        name,
        columns: table.columns.copy(alloc)?,
        key: table.key,
        checks: table.checks.copy(alloc)?,
        uniques: table.uniques.copy(alloc)?,
    })
}

/// The table, which leaves the new version.
pub fn table_dropped(alloc: Global, table: &DraftTable) -> Result<DraftTable, NoMemory>
    ensures { IfOk result (λ dropped. dropped ≡ spec.table_dropped table.now) }
{
    retitled(alloc, None, table)
}

/// The table under its other name, or P9.
pub fn table_renamed(
    alloc: Global,
    old: &Schema,
    draft: &Draft,
    to: &Name,
    table: &DraftTable,
) -> Result<DraftTable, PlanFault>
    ensures { Gives PlanFault.NoMemory (spec.table_renamed old.now draft.now to.now table.now) result }
{
    if has_table(old, draft, to) {
        return Err(PlanFault::Exists(to.copy(alloc)?));
    }
    Ok(retitled(alloc, Some(to), table)?)
}
