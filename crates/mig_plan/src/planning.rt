//! What a migration makes of a schema, or why it has no plan.

ghost use Rattle.std.specs.Prelude.{◌≡◌, map, IfOk};
ghost use Rattle.sql_base.specs.Outcome.{Gives, every};
ghost use Rattle.mig_plan.specs.Plan as spec;

use crate::adding::{MAX_COLUMNS, column_added, columns_fault};
use crate::altering::column_altered;
use crate::constraints::{constraint_created, constraint_dropped};
use crate::creating::{table_created, table_dropped, table_renamed};
use crate::drafts::{After, Draft, DraftCheck, DraftColumn, DraftTable, table_meant, with_table};
use crate::expressions::first_bad;
use crate::finishing::finished;
use crate::standing::{column_dropped, column_renamed};
use crate::tables::Table;
use mig_lens::{Migration, Op, Plan, PlanFault};
use sql_base::{Check, Column, Copying, List, Name, NoMemory, Schema, try_map};
use std::alloc::Global;

// ---- the first draft

fn carried(alloc: Global, column: &Column) -> Result<DraftColumn, NoMemory>
    ensures { IfOk result (λ carried. carried ≡ spec.carried column.now) }
{
    Ok(DraftColumn {
        before: Some(column.copy(alloc)?),
        after: After {
            column: Some(column.copy(alloc)?),
            up: None,
            down: None,
            subject: None,
        },
    })
}

fn standing_check(alloc: Global, check: &Check) -> Result<DraftCheck, NoMemory>
    ensures { IfOk result (λ stood. stood ≡ spec.standing_check check.now) }
{
    Ok(DraftCheck {
        check: check.copy(alloc)?,
        made: None,
    })
}

fn kept(alloc: Global, table: &Table) -> Result<DraftTable, NoMemory>
    ensures { IfOk result (λ kept. kept ≡ spec.kept table.now) }
{
    let shape = &table.2;
    Ok(DraftTable {
        number: table.1,
        stood: true,
        name: Some(table.0.copy(alloc)?),
        columns: try_map(
            alloc,
            shape.columns.as_slice(),
            |column| carried(alloc, column),
        )?,
        key: shape.key,
        checks: try_map(
            alloc,
            shape.checks.as_slice(),
            |check| standing_check(alloc, check),
        )?,
        uniques: shape.uniques.copy(alloc)?,
    })
}

/// A table before any operation.
fn first_table(alloc: Global, table: &Table) -> Result<DraftTable, PlanFault>
    ensures { Gives PlanFault.NoMemory (spec.first_table table.now) result }
{
    if table.2.columns.len() > MAX_COLUMNS {
        return Err(columns_fault(alloc)?);
    }
    Ok(kept(alloc, table)?)
}

fn first_tables(alloc: Global, tables: &[Table]) -> Result<List<DraftTable>, PlanFault>
    ensures { Gives PlanFault.NoMemory (every (map spec.first_table tables.now)) result }
{
    try_map(alloc, tables, |table| first_table(alloc, table))
}

fn begun(alloc: Global, old: &Schema, next_table: u32) -> Result<Draft, PlanFault>
    ensures { Gives PlanFault.NoMemory (spec.begun old.now next_table) result }
{
    let tables = first_tables(alloc, old.tables.as_slice())?;
    Ok(Draft { tables, next_table })
}

// ---- operations

/// The name by which an operation means a table. Of `create_table` it is that of the new one.
fn title_of(op: &Op) -> &Name
    ensures { result.now ≡ spec.title_of op.now }
{
    match op {
        Op::CreateTable { name, .. } => name,
        Op::DropTable { name } => name,
        Op::RenameTable { from, .. } => from,
        Op::AddColumn { table, .. } => table,
        Op::DropColumn { table, .. } => table,
        Op::RenameColumn { table, .. } => table,
        Op::AlterColumn { table, .. } => table,
        Op::CreateConstraint { table, .. } => table,
        Op::DropConstraint { table, .. } => table,
    }
}

/// The table that the operation at this place means, after it.
fn changed(
    alloc: Global,
    old: &Schema,
    at: u64,
    op: &Op,
    draft: &Draft,
    table: &DraftTable,
) -> Result<DraftTable, PlanFault>
    ensures { Gives PlanFault.NoMemory (spec.changed old.now at op.now draft.now table.now) result }
{
    match op {
        Op::CreateTable { .. } => Ok(table.copy(alloc)?),
        Op::DropTable { .. } => Ok(table_dropped(alloc, table)?),
        Op::RenameTable { to, .. } => table_renamed(alloc, old, draft, to, table),
        Op::AddColumn {
            table: title,
            column,
            up,
        } => column_added(alloc, old, at, title, column, up, table),
        Op::DropColumn {
            table: title,
            column,
            down,
        } => column_dropped(alloc, at, title, column, down, table),
        Op::RenameColumn {
            table: title,
            from,
            to,
        } => column_renamed(alloc, at, title, from, to, table),
        Op::AlterColumn {
            table: title,
            column,
            ty,
            nullable,
            default,
            unique,
            check,
            up,
            down,
        } => column_altered(
            alloc, old, at, title, column, *ty, *nullable, default, unique, check, up, down, table,
        ),
        Op::CreateConstraint {
            table: title,
            name,
            columns,
            check,
            up,
            down,
        } => {
            let names = columns.as_slice();
            let (ups, downs) = (up.as_slice(), down.as_slice());
            let made = constraint_created(
                alloc, old, at, title, name, names, check, ups, downs, table,
            )?;
            Ok(made)
        }
        Op::DropConstraint {
            table: title,
            name,
            up,
            down,
        } => constraint_dropped(alloc, at, title, name, up, down, table),
    }
}

/// The draft after the operation at this place, which means a table.
fn on_table(
    alloc: Global,
    old: &Schema,
    at: u64,
    op: &Op,
    draft: &Draft,
) -> Result<Draft, PlanFault>
    ensures { Gives PlanFault.NoMemory (spec.on_table old.now at op.now draft.now) result }
{
    let Some(table) = table_meant(draft, title_of(op)) else {
        return Err(PlanFault::NoSuchTable(title_of(op).copy(alloc)?));
    };
    let changed = changed(alloc, old, at, op, draft, table)?;
    Ok(with_table(alloc, &changed, draft)?)
}

/// The operation at this place, done on the draft so far.
fn done(alloc: Global, old: &Schema, at: u64, op: &Op, draft: &Draft) -> Result<Draft, PlanFault>
    ensures { Gives PlanFault.NoMemory (spec.done old.now at op.now draft.now) result }
{
    match op {
        Op::CreateTable { name, columns } => {
            let made = table_created(alloc, old, at, name, columns.as_slice(), draft)?;
            Ok(made)
        }
        Op::DropTable { .. }
        | Op::RenameTable { .. }
        | Op::AddColumn { .. }
        | Op::DropColumn { .. }
        | Op::RenameColumn { .. }
        | Op::AlterColumn { .. }
        | Op::CreateConstraint { .. }
        | Op::DropConstraint { .. } => on_table(alloc, old, at, op, draft),
    }
}

/// What a migration makes of a schema, of which `next_table` is the number of the next table that it creates.
///
/// An error is the first fault of the operations in order, and after them P14, as the rules of each operation say; and
/// P20 `columns` where a table of the schema has too many columns to begin with. It may be `NoMemory` wherever memory
/// was refused.
pub fn plan(alloc: Global, old: &Schema, next_table: u32, m: &Migration) -> Result<Plan, PlanFault>
    ensures { Gives PlanFault.NoMemory (spec.plan_of old.now next_table m.now) result }
{
    let ops = m.operations.as_slice();
    let mut draft = begun(alloc, old, next_table)?;
    for (at, op) in ops.iter().enumerate() {
        draft = done(alloc, old, at as u64, op, &draft)?;
    }
    if let Some(place) = first_bad(alloc, old, draft.tables.as_slice())? {
        return Err(PlanFault::BadExpr(place));
    }
    Ok(finished(alloc, &draft)?)
}
