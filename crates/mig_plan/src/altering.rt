//! `alter_column`: a column with another type, default or constraint, or that takes NULL or no longer does.

ghost use Rattle.std.specs.Prelude.{◌≡◌, ◌++◌, [], ◌∷◌, IfOk};
ghost use Rattle.sql_base.specs.Outcome.{Gives};
ghost use Rattle.mig_plan.specs.Columns as spec;

use crate::adding::{default_fault, unique_at, with_check};
use crate::drafts::{
    After, DraftColumn, DraftTable, column_meant, has_either_constraint, is_now, linked, put_afters,
};
use crate::standing::{key_fault, no_column, twice_fault};
use mig_lens::PlanFault;
use sql_base::{
    Check, Column, Copying, Expr, List, Name, NoMemory, Schema, Ty, Unique, Value, has_type,
};
use std::alloc::Global;

// ---- the column as it is to be

fn given_default(
    alloc: Global,
    column: &Column,
    ty: Option<Ty>,
    default: &Option<Value>,
) -> Result<Value, NoMemory>
    ensures { IfOk result (λ value. value ≡ spec.given_default column.now ty default.now) }
{
    match default {
        Some(default) => default.copy(alloc),
        None => {
            if column.ty == ty.unwrap_or(column.ty) {
                column.default.copy(alloc)
            } else {
                Ok(Value::Null)
            }
        }
    }
}

fn altered(
    alloc: Global,
    column: &Column,
    ty: Option<Ty>,
    nullable: Option<bool>,
    default: &Option<Value>,
) -> Result<Column, NoMemory>
    ensures { IfOk result (λ other. other ≡ spec.altered column.now ty nullable default.now) }
{
    Ok(Column {
        name: column.name.copy(alloc)?,
        ty: ty.unwrap_or(column.ty),
        nullable: nullable.unwrap_or(column.nullable),
        default: given_default(alloc, column, ty, default)?,
    })
}

// ---- faults

fn wants_up(column: &Column, other: &Column, up: &Option<Expr>) -> bool
    ensures { result ≡ spec.wants_up column.now other.now up.now }
{
    (column.ty != other.ty || (column.nullable && !other.nullable)) && up.is_none()
}

fn wants_down(column: &Column, other: &Column, down: &Option<Expr>) -> bool
    ensures { result ≡ spec.wants_down column.now other.now down.now }
{
    (column.ty != other.ty || (!column.nullable && other.nullable)) && down.is_none()
}

fn unique_taken(
    alloc: Global,
    old: &Schema,
    title: &Name,
    table: &DraftTable,
    unique: &Option<Name>,
) -> Result<Option<PlanFault>, NoMemory>
    ensures { IfOk result (λ fault. fault ≡ spec.unique_taken old.now title.now table.now unique.now) }
{
    match unique {
        Some(name) if has_either_constraint(alloc, old, title, name, table)? => {
            Ok(Some(PlanFault::Exists(name.copy(alloc)?)))
        }
        _ => Ok(None),
    }
}

fn is_name(name: &Name, other: &Option<Name>) -> bool
    ensures { result ≡ spec.is_name name.now other.now }
{
    match other {
        Some(other) => name.as_slice() == other.as_slice(),
        None => false,
    }
}

fn check_taken(
    alloc: Global,
    old: &Schema,
    title: &Name,
    table: &DraftTable,
    unique: &Option<Name>,
    check: &Option<Check>,
) -> Result<Option<PlanFault>, NoMemory>
    ensures { IfOk result (λ fault. fault ≡ spec.check_taken old.now title.now table.now unique.now check.now) }
{
    match check {
        Some(check) => {
            if is_name(&check.name, unique)
                || has_either_constraint(alloc, old, title, &check.name, table)?
            {
                return Ok(Some(PlanFault::Exists(check.name.copy(alloc)?)));
            }
            Ok(None)
        }
        None => Ok(None),
    }
}

/// P9 of the constraints that the operation makes, P10 and P11.
fn name_fault(
    alloc: Global,
    old: &Schema,
    title: &Name,
    name: &Name,
    table: &DraftTable,
    column: &DraftColumn,
    unique: &Option<Name>,
    check: &Option<Check>,
) -> Result<Option<PlanFault>, NoMemory>
    ensures { IfOk result (λ fault. fault ≡ spec.place_fault old.now title.now name.now table.now column.now unique.now check.now) }
{
    if let Some(fault) = unique_taken(alloc, old, title, table, unique)? {
        return Ok(Some(fault));
    }
    if let Some(fault) = check_taken(alloc, old, title, table, unique, check)? {
        return Ok(Some(fault));
    }
    if let Some(fault) = key_fault(alloc, title, table, name)? {
        return Ok(Some(fault));
    }
    twice_fault(alloc, title, name, column)
}

/// P12, P13 and P15.
fn value_fault(
    alloc: Global,
    at: u64,
    title: &Name,
    name: &Name,
    now: &Column,
    other: &Column,
    up: &Option<Expr>,
    down: &Option<Expr>,
) -> Result<Option<PlanFault>, NoMemory>
    ensures { IfOk result (λ fault. fault ≡ spec.value_fault at title.now name.now now.now other.now up.now down.now) }
{
    if wants_up(now, other, up) {
        return Ok(Some(PlanFault::UpNeeded(title.copy(alloc)?, name.copy(alloc)?)));
    }
    if wants_down(now, other, down) {
        return Ok(Some(PlanFault::DownNeeded(title.copy(alloc)?, name.copy(alloc)?)));
    }
    if !has_type(Some(other.ty), &other.default) {
        return Ok(Some(default_fault(at)));
    }
    Ok(None)
}

// ---- the table

fn position_of(columns: &[DraftColumn], name: &Name) -> usize
    ensures { result ≡ spec.place_named columns.now name.now }
{
    for (at, column) in columns.iter().enumerate() {
        if is_now(column, name) {
            return at;
        }
    }
    columns.len()
}

/// The place of the column of this name among those of the draft.
///
/// (A table's places are below 2 ^ 32; one above would be answered as want of memory.)
pub fn place_named(columns: &[DraftColumn], name: &Name) -> Result<u32, NoMemory>
    ensures { IfOk result (λ place. place ≡ spec.place_named columns.now name.now) }
{
    match u32::try_from(position_of(columns, name)) {
        Ok(place) => Ok(place),
        Err(_) => Err(NoMemory),
    }
}

fn with_unique(
    alloc: Global,
    uniques: &List<Unique>,
    unique: &Option<Name>,
    at: u32,
) -> Result<List<Unique>, NoMemory>
    ensures { IfOk result (λ with. with ≡ uniques.now ++ spec.unique_over unique.now (at ∷ [])) }
{
    let mut with = uniques.copy(alloc)?;
    if let Some(name) = unique {
        with.push(unique_at(alloc, name.copy(alloc)?, at)?)?;
    }
    Ok(with)
}

fn with_altered(
    alloc: Global,
    name: &Name,
    after: &After,
    unique: &Option<Name>,
    check: &Option<Check>,
    at: u64,
    table: &DraftTable,
) -> Result<DraftTable, NoMemory>
    ensures { IfOk result (λ with. with ≡ spec.with_altered name.now after.now unique.now check.now at table.now) }
{
    let columns = table.columns.as_slice();
    let place = place_named(columns, name)?;
    Ok(DraftTable {
        number: table.number,
        stood: table.stood,
        name: table.name.copy(alloc)?,
        columns: put_afters(alloc, name, after, columns)?,
        key: table.key,
        checks: with_check(alloc, &table.checks, check, at)?,
        uniques: with_unique(alloc, &table.uniques, unique, place)?,
    })
}

/// The table with the column as it is to be, or the first thing that is wrong with that.
pub fn column_altered(
    alloc: Global,
    old: &Schema,
    at: u64,
    title: &Name,
    name: &Name,
    ty: Option<Ty>,
    nullable: Option<bool>,
    default: &Option<Value>,
    unique: &Option<Name>,
    check: &Option<Check>,
    up: &Option<Expr>,
    down: &Option<Expr>,
    table: &DraftTable,
) -> Result<DraftTable, PlanFault>
    ensures { Gives PlanFault.NoMemory (spec.column_altered old.now at title.now name.now ty nullable default.now unique.now check.now up.now down.now table.now) result }
{
    let Some(column) = column_meant(table, name) else {
        return Err(no_column(alloc, title, name)?);
    };
    let Some(now) = &column.after.column else {
        return Err(no_column(alloc, title, name)?);
    };
    if let Some(fault) = name_fault(alloc, old, title, name, table, column, unique, check)? {
        return Err(fault);
    }
    let other = altered(alloc, now, ty, nullable, default)?;
    if let Some(fault) = value_fault(alloc, at, title, name, now, &other, up, down)? {
        return Err(fault);
    }
    let after = linked(alloc, &column.before, &other, up, down, at)?;
    Ok(with_altered(alloc, name, &after, unique, check, at, table)?)
}
