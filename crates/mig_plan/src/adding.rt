//! `add_column`: one column more in a table.

ghost use Rattle.std.specs.Prelude.{◌≡◌, ◌++◌, [], ◌∷◌, Some, codes, IfOk};
ghost use Rattle.std.specs.Option.{option_copied};
ghost use Rattle.sql_base.specs.Outcome.{Gives};
ghost use Rattle.mig_plan.specs.Columns as spec;
ghost use Rattle.mig_plan.specs.Versions as names;

use crate::drafts::{
    After, DraftCheck, DraftColumn, DraftTable, has_column, has_either_constraint, new_count,
};
use crate::tables::unique_name;
use mig_lens::{ColumnDef, Member, Place, PlanFault};
use sql_base::{Check, Column, Copying, Expr, List, Name, NoMemory, Schema, Unique, has_type};
use sql_eval::operate::is_null;
use std::alloc::Global;

/// The columns that a table may have.
pub const MAX_COLUMNS: usize = 32;

/// That more columns than a table may have are asked for.
pub fn columns_fault(alloc: Global) -> Result<PlanFault, NoMemory>
    ensures { IfOk result (λ fault. fault ≡ PlanFault.Limit (codes "columns")) }
{
    Ok(PlanFault::Limit(Name::from_slice(alloc, b"columns")?))
}

/// That a default of the operation at this place has another type than its column.
pub fn default_fault(at: u64) -> PlanFault
    ensures { result ≡ PlanFault.BadType (record { operation = at; member = Member.Default }) }
{
    PlanFault::BadType(Place {
        operation: at,
        member: Member::Default,
    })
}

// ---- names

fn check_name_fault(
    alloc: Global,
    old: &Schema,
    title: &Name,
    table: &DraftTable,
    check: &Option<Check>,
) -> Result<Option<PlanFault>, NoMemory>
    ensures { IfOk result (λ fault. fault ≡ spec.check_name_fault old.now title.now table.now check.now) }
{
    match check {
        Some(check) if has_either_constraint(alloc, old, title, &check.name, table)? => {
            Ok(Some(PlanFault::Exists(check.name.copy(alloc)?)))
        }
        _ => Ok(None),
    }
}

fn is_named(check: &Option<Check>, name: &Name) -> bool
    ensures { result ≡ spec.is_named name.now check.now }
{
    match check {
        Some(check) => check.name.as_slice() == name.as_slice(),
        None => false,
    }
}

fn unique_name_fault(
    alloc: Global,
    old: &Schema,
    title: &Name,
    table: &DraftTable,
    column: &ColumnDef,
) -> Result<Option<PlanFault>, NoMemory>
    ensures { IfOk result (λ fault. fault ≡ spec.unique_name_fault old.now title.now table.now column.now (names.unique_name title.now column.now.name)) }
{
    let name = unique_name(alloc, title, &column.name)?;
    if column.unique
        && (is_named(&column.check, &name)
            || has_either_constraint(alloc, old, title, &name, table)?)
    {
        return Ok(Some(PlanFault::Exists(name)));
    }
    Ok(None)
}

/// P9 for a new column of a table of this title: for its own name, its check's, and that of its unique constraint.
pub fn name_fault(
    alloc: Global,
    old: &Schema,
    title: &Name,
    table: &DraftTable,
    column: &ColumnDef,
) -> Result<Option<PlanFault>, NoMemory>
    ensures { IfOk result (λ fault. fault ≡ spec.name_fault old.now title.now table.now column.now) }
{
    if has_column(table, &column.name) {
        return Ok(Some(PlanFault::Exists(column.name.copy(alloc)?)));
    }
    if let Some(fault) = check_name_fault(alloc, old, title, table, &column.check)? {
        return Ok(Some(fault));
    }
    unique_name_fault(alloc, old, title, table, column)
}

// ---- the column

fn column_of(alloc: Global, column: &ColumnDef) -> Result<Column, NoMemory>
    ensures { IfOk result (λ made. made ≡ spec.column_of column.now) }
{
    Ok(Column {
        name: column.name.copy(alloc)?,
        ty: column.ty,
        nullable: column.nullable && !column.pk,
        default: column.default.copy(alloc)?,
    })
}

fn new_column(
    alloc: Global,
    column: &ColumnDef,
    up: Option<&Expr>,
    subject: Option<u64>,
) -> Result<DraftColumn, NoMemory>
    ensures { IfOk result (λ made. made ≡ spec.new_column column.now (option_copied up.entry) subject) }
{
    let up = match up {
        Some(up) => Some(up.copy(alloc)?),
        None => None,
    };
    Ok(DraftColumn {
        before: None,
        after: After {
            column: Some(column_of(alloc, column)?),
            up,
            down: None,
            subject,
        },
    })
}

/// A unique constraint of one column.
pub fn unique_at(alloc: Global, name: Name, at: u32) -> Result<Unique, NoMemory>
    ensures { IfOk result (λ unique. unique ≡ record { name = name; columns = at ∷ [] }) }
{
    let mut columns = List::new(alloc);
    columns.push(at)?;
    Ok(Unique { name, columns })
}

/// The checks with this one too, which the operation at a place made.
pub fn with_check(
    alloc: Global,
    checks: &List<DraftCheck>,
    check: &Option<Check>,
    at: u64,
) -> Result<List<DraftCheck>, NoMemory>
    ensures { IfOk result (λ with. with ≡ checks.now ++ spec.checks_of check.now (Some at)) }
{
    let mut with = checks.copy(alloc)?;
    if let Some(check) = check {
        with.push(DraftCheck {
            check: check.copy(alloc)?,
            made: Some(at),
        })?;
    }
    Ok(with)
}

fn with_unique(
    alloc: Global,
    uniques: &List<Unique>,
    title: &Name,
    column: &ColumnDef,
    at: u32,
) -> Result<List<Unique>, NoMemory>
    ensures { IfOk result (λ with. with ≡ uniques.now ++ spec.uniques_of title.now column.now at) }
{
    let mut with = uniques.copy(alloc)?;
    if column.unique {
        let name = unique_name(alloc, title, &column.name)?;
        with.push(unique_at(alloc, name, at)?)?;
    }
    Ok(with)
}

/// The table with the column last, and its constraints too.
///
/// (A table's places are below 2 ^ 32; one above would be answered as want of memory.)
pub fn with_column(
    alloc: Global,
    title: &Name,
    column: &ColumnDef,
    up: Option<&Expr>,
    subject: Option<u64>,
    at: u64,
    table: &DraftTable,
) -> Result<DraftTable, NoMemory>
    ensures { IfOk result (λ with. with ≡ spec.with_column title.now column.now (option_copied up.entry) subject at table.now) }
{
    let Ok(place) = u32::try_from(table.columns.len()) else {
        return Err(NoMemory);
    };
    let mut columns = table.columns.copy(alloc)?;
    columns.push(new_column(alloc, column, up, subject)?)?;
    Ok(DraftTable {
        number: table.number,
        stood: table.stood,
        name: table.name.copy(alloc)?,
        columns,
        key: table.key,
        checks: with_check(alloc, &table.checks, &column.check, at)?,
        uniques: with_unique(alloc, &table.uniques, title, column, place)?,
    })
}

// ---- add_column

fn needs_up(column: &ColumnDef, up: &Option<Expr>) -> bool
    ensures { result ≡ spec.needs_up column.now up.now }
{
    !column.nullable && is_null(&column.default) && up.is_none()
}

/// What is wrong with a new column of a table, in the operation at this place.
fn column_fault(
    alloc: Global,
    old: &Schema,
    at: u64,
    title: &Name,
    table: &DraftTable,
    column: &ColumnDef,
    up: &Option<Expr>,
) -> Result<Option<PlanFault>, NoMemory>
    ensures { IfOk result (λ fault. fault ≡ spec.column_fault old.now at title.now table.now column.now up.now) }
{
    if let Some(fault) = name_fault(alloc, old, title, table, column)? {
        return Ok(Some(fault));
    }
    if column.pk {
        return Ok(Some(PlanFault::KeyColumn(title.copy(alloc)?)));
    }
    if needs_up(column, up) {
        return Ok(Some(PlanFault::UpNeeded(title.copy(alloc)?, column.name.copy(alloc)?)));
    }
    if !has_type(Some(column.ty), &column.default) {
        return Ok(Some(default_fault(at)));
    }
    if new_count(table.columns.as_slice()) >= MAX_COLUMNS {
        return Ok(Some(columns_fault(alloc)?));
    }
    Ok(None)
}

/// The table with one column more, or the first thing that is wrong with it.
pub fn column_added(
    alloc: Global,
    old: &Schema,
    at: u64,
    title: &Name,
    column: &ColumnDef,
    up: &Option<Expr>,
    table: &DraftTable,
) -> Result<DraftTable, PlanFault>
    ensures { Gives PlanFault.NoMemory (spec.column_added old.now at title.now column.now up.now table.now) result }
{
    if let Some(fault) = column_fault(alloc, old, at, title, table, column, up)? {
        return Err(fault);
    }
    Ok(with_column(alloc, title, column, up.as_ref(), Some(at), at, table)?)
}
