//! A plan in the making: the old version and the new version so far, side by side, column by column.

ghost use Rattle.std.specs.Prelude.{◌≡◌, is_some, map, IfOk};
ghost use Rattle.std.specs.Option.{option_copied, option_map_or};
ghost use Rattle.std.specs.List.{list_any};
ghost use Rattle.mig_plan.specs.Draft as spec;

use crate::tables::{has_constraint, key_name, table_numbered};
use sql_base::{Check, Column, Copying, Expr, List, Name, NoMemory, Schema, Unique, try_map};
use std::alloc::Global;

/// What becomes of a column in the new version.
#[derive(Drop)]
pub struct After {
    /// The column in the new version so far; none where it has left.
    pub column: Option<Column>,
    /// What makes its values there, from the old version's row.
    pub up: Option<Expr>,
    /// What makes the old column's values, from the new version's row.
    pub down: Option<Expr>,
    /// The place of the operation that has the column as its subject.
    pub subject: Option<u64>,
}

/// A column that the old version has, or the new one so far, or both.
#[derive(Drop)]
pub struct DraftColumn {
    /// The column in the old version.
    pub before: Option<Column>,
    /// What becomes of it.
    pub after: After,
}

/// A check of the new version so far.
#[derive(Drop)]
pub struct DraftCheck {
    /// The check.
    pub check: Check,
    /// The place of the operation that made it; none where it stood before.
    pub made: Option<u64>,
}

/// A table that the old version has, or the new one so far, or both.
#[derive(Drop)]
pub struct DraftTable {
    /// Its number.
    pub number: u32,
    /// Whether the old version has it.
    pub stood: bool,
    /// Its name in the new version so far; none where it has left.
    pub name: Option<Name>,
    /// The old version's columns in their order, and then the new ones.
    pub columns: List<DraftColumn>,
    /// The place of the key's column among them.
    pub key: u32,
    /// The checks of the new version so far.
    pub checks: List<DraftCheck>,
    /// The unique constraints of the new version so far, with the places of their columns among those above.
    pub uniques: List<Unique>,
}

/// A plan in the making.
#[derive(Drop)]
pub struct Draft {
    /// The old version's tables in their order, and then the new ones.
    pub tables: List<DraftTable>,
    /// The number of the next table that is created.
    pub next_table: u32,
}

impl Copying for After {
    fn copy(&self, alloc: Global) -> Result<After, NoMemory> {
        Ok(After {
            column: self.column.copy(alloc)?,
            up: self.up.copy(alloc)?,
            down: self.down.copy(alloc)?,
            subject: self.subject,
        })
    }
}

impl Copying for DraftColumn {
    fn copy(&self, alloc: Global) -> Result<DraftColumn, NoMemory> {
        Ok(DraftColumn {
            before: self.before.copy(alloc)?,
            after: self.after.copy(alloc)?,
        })
    }
}

impl Copying for DraftCheck {
    fn copy(&self, alloc: Global) -> Result<DraftCheck, NoMemory> {
        Ok(DraftCheck {
            check: self.check.copy(alloc)?,
            made: self.made,
        })
    }
}

impl Copying for DraftTable {
    fn copy(&self, alloc: Global) -> Result<DraftTable, NoMemory> {
        Ok(DraftTable {
            number: self.number,
            stood: self.stood,
            name: self.name.copy(alloc)?,
            columns: self.columns.copy(alloc)?,
            key: self.key,
            checks: self.checks.copy(alloc)?,
            uniques: self.uniques.copy(alloc)?,
        })
    }
}

// ---- columns

/// Whether it is a column of this name.
fn is_called(column: &Option<Column>, name: &Name) -> bool
    ensures { result ≡ spec.is_called name.now column.now }
{
    match column {
        Some(column) => column.name.as_slice() == name.as_slice(),
        None => false,
    }
}

/// Whether the column has this name in the new version so far.
pub fn is_now(column: &DraftColumn, name: &Name) -> bool
    ensures { result ≡ spec.is_now name.now column.now }
{
    is_called(&column.after.column, name)
}

/// The column that a name means.
pub fn column_meant<'a>(table: &'a DraftTable, name: &Name) -> Option<&'a DraftColumn>
    ensures { option_copied result ≡ spec.column_meant table.now name.now }
{
    table
        .columns
        .as_slice()
        .iter()
        .find(|column| is_now(column, name))
}

/// Whether a column has the name, in the old version or in the new version so far.
pub fn has_column(table: &DraftTable, name: &Name) -> bool
    ensures { result ≡ spec.has_column name.now table.now }
{
    table.columns.as_slice().iter().any(|column| is_called(&column.before, name)
        || is_now(column, name))
}

/// Whether the column at this place has the name.
pub fn is_at(columns: &[DraftColumn], name: &Name, at: u32) -> bool
    ensures { result ≡ spec.is_at columns.now name.now at }
{
    match columns.get(at as usize) {
        Some(column) => is_now(column, name),
        None => false,
    }
}

/// Whether the key's column has the name.
pub fn is_key_named(table: &DraftTable, name: &Name) -> bool
    ensures { result ≡ spec.is_key_named table.now name.now }
{
    is_at(table.columns.as_slice(), name, table.key)
}

/// How many of the columns the new version has so far.
pub fn new_count(columns: &[DraftColumn]) -> usize
    ensures { result ≡ spec.new_count columns.now }
{
    let mut count = 0;
    for column in columns {
        if column.after.column.is_some() {
            count += 1;
        }
    }
    count
}

fn put_after(
    alloc: Global,
    name: &Name,
    after: &After,
    column: &DraftColumn,
) -> Result<DraftColumn, NoMemory>
    ensures { IfOk result (λ put. put ≡ spec.put_after name.now after.now column.now) }
{
    if !is_now(column, name) {
        return column.copy(alloc);
    }
    Ok(DraftColumn {
        before: column.before.copy(alloc)?,
        after: after.copy(alloc)?,
    })
}

/// The columns, with what becomes of the one of this name.
pub fn put_afters(
    alloc: Global,
    name: &Name,
    after: &After,
    columns: &[DraftColumn],
) -> Result<List<DraftColumn>, NoMemory>
    ensures { IfOk result (λ put. put ≡ map (spec.put_after name.now after.now) columns.now) }
{
    try_map(
        alloc,
        columns,
        |column| put_after(alloc, name, after, column),
    )
}

// ---- up and down

/// One of `up` and `down`, where the other one is this.
fn way(
    alloc: Global,
    given: &Option<Expr>,
    other: &Option<Expr>,
    column: Option<&Column>,
) -> Result<Option<Expr>, NoMemory>
    ensures { IfOk result (λ way. way ≡ spec.way given.now other.now (option_copied column.entry)) }
{
    match (given, other, column) {
        (Some(expr), _, _) => Ok(Some(expr.copy(alloc)?)),
        (None, Some(_), Some(column)) => Ok(Some(Expr::Col(column.name.copy(alloc)?))),
        (None, Some(_), None) | (None, None, _) => Ok(None),
    }
}

/// The column, made by `up` and `down` where either is given, and carried where neither is.
pub fn linked(
    alloc: Global,
    before: &Option<Column>,
    column: &Column,
    up: &Option<Expr>,
    down: &Option<Expr>,
    at: u64,
) -> Result<After, NoMemory>
    ensures { IfOk result (λ after. after ≡ spec.linked before.now column.now up.now down.now at) }
{
    Ok(After {
        column: Some(column.copy(alloc)?),
        up: way(alloc, up, down, before.as_ref())?,
        down: way(alloc, down, up, Some(column))?,
        subject: Some(at),
    })
}

// ---- tables

fn is_titled(table: &DraftTable, name: &Name) -> bool
    ensures { result ≡ spec.is_titled name.now table.now.name }
{
    match &table.name {
        Some(title) => title.as_slice() == name.as_slice(),
        None => false,
    }
}

/// The table that an operation means by a name.
pub fn table_meant<'a>(draft: &'a Draft, name: &Name) -> Option<&'a DraftTable>
    ensures { option_copied result ≡ spec.table_meant draft.now name.now }
{
    draft
        .tables
        .as_slice()
        .iter()
        .find(|table| is_titled(table, name) && table.stood)
}

fn is_old_title(old: &Schema, name: &Name) -> bool
    ensures { result ≡ spec.is_old_title old.now name.now }
{
    old.tables
        .as_slice()
        .iter()
        .any(|table| table.0.as_slice() == name.as_slice())
}

fn is_new_title(draft: &Draft, name: &Name) -> bool
    ensures { result ≡ spec.is_new_title draft.now name.now }
{
    draft
        .tables
        .as_slice()
        .iter()
        .any(|table| is_titled(table, name))
}

/// Whether a table has the name, in the old version or in the new version so far.
pub fn has_table(old: &Schema, draft: &Draft, name: &Name) -> bool
    ensures { result ≡ spec.has_table old.now draft.now name.now }
{
    is_old_title(old, name) || is_new_title(draft, name)
}

fn in_place(alloc: Global, changed: &DraftTable, table: &DraftTable) -> Result<DraftTable, NoMemory>
    ensures { IfOk result (λ put. put ≡ spec.in_place changed.now table.now) }
{
    if table.number == changed.number {
        changed.copy(alloc)
    } else {
        table.copy(alloc)
    }
}

/// The draft with this table in place of the one that has its number.
pub fn with_table(alloc: Global, changed: &DraftTable, draft: &Draft) -> Result<Draft, NoMemory>
    ensures { IfOk result (λ with. with ≡ spec.with_table changed.now draft.now) }
{
    let tables = draft.tables.as_slice();
    Ok(Draft {
        tables: try_map(alloc, tables, |table| in_place(alloc, changed, table))?,
        next_table: draft.next_table,
    })
}

// ---- constraints

/// Whether the check has this name.
pub fn is_check_named(check: &DraftCheck, name: &Name) -> bool
    ensures { result ≡ spec.is_check_named name.now check.now }
{
    check.check.name.as_slice() == name.as_slice()
}

/// Whether the unique constraint has this name.
pub fn is_unique_named(unique: &Unique, name: &Name) -> bool
    ensures { result ≡ spec.is_unique_named name.now unique.now }
{
    unique.name.as_slice() == name.as_slice()
}

fn has_check(table: &DraftTable, name: &Name) -> bool
    ensures { result ≡ list_any (spec.is_check_named name.now) table.now.checks }
{
    table
        .checks
        .as_slice()
        .iter()
        .any(|check| is_check_named(check, name))
}

fn has_unique(table: &DraftTable, name: &Name) -> bool
    ensures { result ≡ list_any (spec.is_unique_named name.now) table.now.uniques }
{
    table
        .uniques
        .as_slice()
        .iter()
        .any(|unique| is_unique_named(unique, name))
}

fn has_own_constraint(
    alloc: Global,
    title: &Name,
    name: &Name,
    table: &DraftTable,
) -> Result<bool, NoMemory>
    ensures { IfOk result (λ has. has ≡ spec.has_own_constraint title.now name.now table.now) }
{
    if has_check(table, name) || has_unique(table, name) {
        return Ok(true);
    }
    Ok(key_name(alloc, title)?.as_slice() == name.as_slice())
}

/// Whether the table, which has this title in the new version so far, has a constraint of this name, in the old version
/// or in the new version so far.
pub fn has_either_constraint(
    alloc: Global,
    old: &Schema,
    title: &Name,
    name: &Name,
    table: &DraftTable,
) -> Result<bool, NoMemory>
    ensures { IfOk result (λ has. has ≡ spec.has_either_constraint old.now title.now name.now table.now) }
{
    let before = match table_numbered(old, table.number) {
        Some(before) => has_constraint(alloc, before, name)?,
        None => false,
    };
    Ok(before || has_own_constraint(alloc, title, name, table)?)
}
