//! `drop_column` and `rename_column`: a column that stands.

ghost use Rattle.std.specs.Prelude.{◌≡◌, ◌∷◌, [], not, filter, map, IfOk};
ghost use Rattle.sql_base.specs.Outcome.{Gives};
ghost use Rattle.sql_base.specs.Tree.{names_column};
ghost use Rattle.mig_plan.specs.Columns as spec;
ghost use Rattle.mig_plan.specs.Versions.{first, when};

use crate::drafts::{
    After, DraftCheck, DraftColumn, DraftTable, column_meant, has_column, is_at, is_key_named,
    put_afters,
};
use crate::renaming::renamed;
use mig_lens::PlanFault;
use sql_base::{Check, Column, Copying, Expr, List, Name, NoMemory, Unique, names_column, try_map};
use std::alloc::Global;

// ---- faults

/// P8: no column of the table has the name.
pub fn no_column(alloc: Global, title: &Name, name: &Name) -> Result<PlanFault, NoMemory>
    ensures { IfOk result (λ fault. fault ≡ PlanFault.NoSuchColumn title.now name.now) }
{
    Ok(PlanFault::NoSuchColumn(title.copy(alloc)?, name.copy(alloc)?))
}

/// P10: the key's column has the name.
pub fn key_fault(
    alloc: Global,
    title: &Name,
    table: &DraftTable,
    name: &Name,
) -> Result<Option<PlanFault>, NoMemory>
    ensures { IfOk result (λ fault. fault ≡ spec.key_fault title.now table.now name.now) }
{
    if is_key_named(table, name) {
        return Ok(Some(PlanFault::KeyColumn(title.copy(alloc)?)));
    }
    Ok(None)
}

/// P11: the column is the subject of an earlier operation.
pub fn twice_fault(
    alloc: Global,
    title: &Name,
    name: &Name,
    column: &DraftColumn,
) -> Result<Option<PlanFault>, NoMemory>
    ensures { IfOk result (λ fault. fault ≡ spec.twice_fault title.now name.now column.now) }
{
    if column.after.subject.is_some() {
        return Ok(Some(PlanFault::ColumnTwice(title.copy(alloc)?, name.copy(alloc)?)));
    }
    Ok(None)
}

// ---- drop_column

fn unique_names(columns: &[DraftColumn], name: &Name, unique: &Unique) -> bool
    ensures { result ≡ spec.unique_names columns.now name.now unique.now }
{
    unique
        .columns
        .as_slice()
        .iter()
        .any(|at| is_at(columns, name, *at))
}

fn checks_without(
    alloc: Global,
    name: &Name,
    checks: &[DraftCheck],
) -> Result<List<DraftCheck>, NoMemory>
    ensures { IfOk result (λ left. left ≡ filter (λ check. not (names_column name.now check.check.expr)) checks.now) }
{
    let mut left = List::new(alloc);
    for check in checks {
        if !names_column(&check.check.expr, name) {
            left.push(check.copy(alloc)?)?;
        }
    }
    Ok(left)
}

fn uniques_without(
    alloc: Global,
    name: &Name,
    columns: &[DraftColumn],
    uniques: &[Unique],
) -> Result<List<Unique>, NoMemory>
    ensures { IfOk result (λ left. left ≡ filter (λ unique. not (spec.unique_names columns.now name.now unique)) uniques.now) }
{
    let mut left = List::new(alloc);
    for unique in uniques {
        if !unique_names(columns, name, unique) {
            left.push(unique.copy(alloc)?)?;
        }
    }
    Ok(left)
}

fn without_column(
    alloc: Global,
    name: &Name,
    down: &Option<Expr>,
    at: u64,
    table: &DraftTable,
) -> Result<DraftTable, NoMemory>
    ensures { IfOk result (λ left. left ≡ spec.without_column name.now down.now at table.now) }
{
    let columns = table.columns.as_slice();
    let after = After {
        column: None,
        up: None,
        down: down.copy(alloc)?,
        subject: Some(at),
    };
    Ok(DraftTable {
        number: table.number,
        stood: table.stood,
        name: table.name.copy(alloc)?,
        columns: put_afters(alloc, name, &after, columns)?,
        key: table.key,
        checks: checks_without(alloc, name, table.checks.as_slice())?,
        uniques: uniques_without(alloc, name, columns, table.uniques.as_slice())?,
    })
}

fn drop_fault(
    alloc: Global,
    title: &Name,
    name: &Name,
    table: &DraftTable,
    column: &DraftColumn,
) -> Result<Option<PlanFault>, NoMemory>
    ensures { IfOk result (λ fault. fault ≡ first (spec.key_fault title.now table.now name.now ∷ spec.twice_fault title.now name.now column.now ∷ [])) }
{
    if let Some(fault) = key_fault(alloc, title, table, name)? {
        return Ok(Some(fault));
    }
    twice_fault(alloc, title, name, column)
}

/// The table without the column, or the first thing that is wrong with that.
pub fn column_dropped(
    alloc: Global,
    at: u64,
    title: &Name,
    name: &Name,
    down: &Option<Expr>,
    table: &DraftTable,
) -> Result<DraftTable, PlanFault>
    ensures { Gives PlanFault.NoMemory (spec.column_dropped at title.now name.now down.now table.now) result }
{
    let Some(column) = column_meant(table, name) else {
        return Err(no_column(alloc, title, name)?);
    };
    let Some(_) = &column.after.column else {
        return Err(no_column(alloc, title, name)?);
    };
    if let Some(fault) = drop_fault(alloc, title, name, table, column)? {
        return Err(fault);
    }
    Ok(without_column(alloc, name, down, at, table)?)
}

// ---- rename_column

fn check_renamed(
    alloc: Global,
    from: &Name,
    to: &Name,
    check: &DraftCheck,
) -> Result<DraftCheck, NoMemory>
    ensures { IfOk result (λ other. other ≡ spec.check_renamed from.now to.now check.now) }
{
    Ok(DraftCheck {
        check: Check {
            name: check.check.name.copy(alloc)?,
            expr: renamed(alloc, from, to, &check.check.expr)?,
        },
        made: check.made,
    })
}

fn checks_renamed(
    alloc: Global,
    from: &Name,
    to: &Name,
    checks: &[DraftCheck],
) -> Result<List<DraftCheck>, NoMemory>
    ensures { IfOk result (λ others. others ≡ map (spec.check_renamed from.now to.now) checks.now) }
{
    try_map(alloc, checks, |check| check_renamed(alloc, from, to, check))
}

fn after_renaming(alloc: Global, to: &Name, at: u64, column: &Column) -> Result<After, NoMemory>
    ensures { IfOk result (λ after. after ≡ spec.after_renaming to.now at column.now) }
{
    Ok(After {
        column: Some(Column {
            name: to.copy(alloc)?,
            ty: column.ty,
            nullable: column.nullable,
            default: column.default.copy(alloc)?,
        }),
        up: None,
        down: None,
        subject: Some(at),
    })
}

fn with_name(
    alloc: Global,
    from: &Name,
    to: &Name,
    at: u64,
    column: &Column,
    table: &DraftTable,
) -> Result<DraftTable, NoMemory>
    ensures { IfOk result (λ with. with ≡ spec.with_name from.now to.now at column.now table.now) }
{
    let after = after_renaming(alloc, to, at, column)?;
    Ok(DraftTable {
        number: table.number,
        stood: table.stood,
        name: table.name.copy(alloc)?,
        columns: put_afters(alloc, from, &after, table.columns.as_slice())?,
        key: table.key,
        checks: checks_renamed(alloc, from, to, table.checks.as_slice())?,
        uniques: table.uniques.copy(alloc)?,
    })
}

fn rename_fault(
    alloc: Global,
    title: &Name,
    from: &Name,
    to: &Name,
    table: &DraftTable,
    column: &DraftColumn,
) -> Result<Option<PlanFault>, NoMemory>
    ensures { IfOk result (λ fault. fault ≡ spec.rename_fault title.now from.now to.now table.now column.now) }
{
    if has_column(table, to) {
        return Ok(Some(PlanFault::Exists(to.copy(alloc)?)));
    }
    twice_fault(alloc, title, from, column)
}

/// The table with the column under its other name, or the first thing that is wrong with that.
pub fn column_renamed(
    alloc: Global,
    at: u64,
    title: &Name,
    from: &Name,
    to: &Name,
    table: &DraftTable,
) -> Result<DraftTable, PlanFault>
    ensures { Gives PlanFault.NoMemory (spec.column_renamed at title.now from.now to.now table.now) result }
{
    let Some(column) = column_meant(table, from) else {
        return Err(no_column(alloc, title, from)?);
    };
    let Some(now) = &column.after.column else {
        return Err(no_column(alloc, title, from)?);
    };
    if let Some(fault) = rename_fault(alloc, title, from, to, table, column)? {
        return Err(fault);
    }
    Ok(with_name(alloc, from, to, at, now, table)?)
}
