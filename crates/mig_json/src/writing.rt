//! From a migration to its canonical text, by way of its JSON value.

ghost use Rattle.std.specs.Prelude.{◌≡◌, map, IfOk};
ghost use Rattle.serde_json.specs.Data.{no_members};
ghost use Rattle.serde_json.specs.Data as json;
ghost use Rattle.serde_json.specs.View.{view, members_view};
ghost use Rattle.mig_json.specs.Writing as spec;
ghost use Rattle.mig_json.specs.declared.members.Operation.TheVariants as operation;

use crate::put::{
    may_put_check, may_put_expression, may_put_flag, may_put_literal, may_put_named, may_put_pairs,
    may_put_type, may_put_ways, put, put_column, put_columns, put_expression, put_name, put_names,
    put_word,
};
use mig_lens::{ColumnDef, Migration, Op, Ways};
use serde_json::{Map, Value};
use sql_base::{Check, Expr, List, Name, NoMemory, SqlBytes, Ty};
use std::alloc::Global;

// ---- operations

/// The object with this one member.
fn titled(alloc: Global, title: &str, members: Map<String, Value>) -> Result<Value, NoMemory>
    ensures { IfOk result (λ v. view v ≡
        json.object (json.member title.now (json.object (members_view members.entries)) no_members)) }
{
    let mut one = Map::new(alloc);
    put(alloc, &mut one, title, Value::from(members))?;
    Ok(Value::from(one))
}

fn create_table(alloc: Global, name: &Name, columns: &List<ColumnDef>) -> Result<Value, NoMemory>
    ensures { IfOk result (λ v. view v ≡
        spec.titled operation.CreateTable (name.now, (map spec.column_values columns.now, tt))) }
{
    let mut members = Map::new(alloc);
    put_name(alloc, &mut members, "name", name)?;
    put_columns(alloc, &mut members, "columns", columns.as_slice())?;
    titled(alloc, "create_table", members)
}

fn drop_table(alloc: Global, name: &Name) -> Result<Value, NoMemory>
    ensures { IfOk result (λ v. view v ≡ spec.titled operation.DropTable (name.now, tt)) }
{
    let mut members = Map::new(alloc);
    put_name(alloc, &mut members, "name", name)?;
    titled(alloc, "drop_table", members)
}

fn rename_table(alloc: Global, from: &Name, to: &Name) -> Result<Value, NoMemory>
    ensures { IfOk result (λ v. view v ≡ spec.titled operation.RenameTable (from.now, (to.now, tt))) }
{
    let mut members = Map::new(alloc);
    put_name(alloc, &mut members, "from", from)?;
    put_name(alloc, &mut members, "to", to)?;
    titled(alloc, "rename_table", members)
}

fn add_column(
    alloc: Global,
    table: &Name,
    column: &ColumnDef,
    up: &Option<Expr>,
) -> Result<Value, NoMemory>
    ensures { IfOk result (λ v. view v ≡ spec.titled operation.AddColumn
        (table.now, (spec.column_values column.now, (up.now, tt)))) }
{
    let mut members = Map::new(alloc);
    put_name(alloc, &mut members, "table", table)?;
    put_column(alloc, &mut members, "column", column)?;
    may_put_expression(alloc, &mut members, "up", up)?;
    titled(alloc, "add_column", members)
}

fn drop_column(
    alloc: Global,
    table: &Name,
    column: &Name,
    down: &Option<Expr>,
) -> Result<Value, NoMemory>
    ensures { IfOk result (λ v. view v ≡ spec.titled operation.DropColumn (table.now, (column.now, (down.now, tt)))) }
{
    let mut members = Map::new(alloc);
    put_name(alloc, &mut members, "table", table)?;
    put_name(alloc, &mut members, "column", column)?;
    may_put_expression(alloc, &mut members, "down", down)?;
    titled(alloc, "drop_column", members)
}

fn rename_column(alloc: Global, table: &Name, from: &Name, to: &Name) -> Result<Value, NoMemory>
    ensures { IfOk result (λ v. view v ≡ spec.titled operation.RenameColumn (table.now, (from.now, (to.now, tt)))) }
{
    let mut members = Map::new(alloc);
    put_name(alloc, &mut members, "table", table)?;
    put_name(alloc, &mut members, "from", from)?;
    put_name(alloc, &mut members, "to", to)?;
    titled(alloc, "rename_column", members)
}

fn alter_column(
    alloc: Global,
    table: &Name,
    column: &Name,
    ty: Option<Ty>,
    nullable: Option<bool>,
    default: &Option<sql_base::Value>,
    unique: &Option<Name>,
    check: &Option<Check>,
    up: &Option<Expr>,
    down: &Option<Expr>,
) -> Result<Value, NoMemory>
    ensures { IfOk result (λ v. view v ≡
        spec.titled operation.AlterColumn
        (spec.altered_values table.now column.now ty nullable default.now unique.now check.now
        up.now down.now)) }
{
    let mut members = Map::new(alloc);
    put_name(alloc, &mut members, "table", table)?;
    put_name(alloc, &mut members, "column", column)?;
    may_put_type(alloc, &mut members, "type", ty)?;
    may_put_flag(alloc, &mut members, "nullable", nullable)?;
    may_put_literal(alloc, &mut members, "default", default.as_ref())?;
    may_put_named(alloc, &mut members, "unique", unique)?;
    may_put_check(alloc, &mut members, "check", check)?;
    may_put_expression(alloc, &mut members, "up", up)?;
    may_put_expression(alloc, &mut members, "down", down)?;
    titled(alloc, "alter_column", members)
}

fn create_unique(
    alloc: Global,
    table: &Name,
    name: &Name,
    columns: &List<Name>,
    up: &List<(Name, Expr)>,
    down: &List<(Name, Expr)>,
) -> Result<Value, NoMemory>
    ensures { IfOk result (λ v. view v ≡
        spec.titled operation.CreateUnique (
          table.now,
          (
            name.now,
            (
              tt,
              (
                columns.now,
                (
                  spec.unless_empty up.now,
                  (spec.unless_empty down.now, tt),
                ),
              ),
            ),
          ),
        )) }
{
    let mut members = Map::new(alloc);
    put_name(alloc, &mut members, "table", table)?;
    put_name(alloc, &mut members, "name", name)?;
    put_word(alloc, &mut members, "type", "unique")?;
    put_names(alloc, &mut members, "columns", columns.as_slice())?;
    may_put_pairs(alloc, &mut members, "up", up.as_slice())?;
    may_put_pairs(alloc, &mut members, "down", down.as_slice())?;
    titled(alloc, "create_constraint", members)
}

fn create_check(
    alloc: Global,
    table: &Name,
    name: &Name,
    columns: &List<Name>,
    check: &Expr,
    up: &List<(Name, Expr)>,
    down: &List<(Name, Expr)>,
) -> Result<Value, NoMemory>
    ensures { IfOk result (λ v. view v ≡
        spec.titled operation.CreateCheck (
          table.now,
          (
            name.now,
            (
              tt,
              (
                columns.now,
                (
                  check.now,
                  (
                    spec.unless_empty up.now,
                    (spec.unless_empty down.now, tt),
                  ),
                ),
              ),
            ),
          ),
        )) }
{
    let mut members = Map::new(alloc);
    put_name(alloc, &mut members, "table", table)?;
    put_name(alloc, &mut members, "name", name)?;
    put_word(alloc, &mut members, "type", "check")?;
    put_names(alloc, &mut members, "columns", columns.as_slice())?;
    put_expression(alloc, &mut members, "check", check)?;
    may_put_pairs(alloc, &mut members, "up", up.as_slice())?;
    may_put_pairs(alloc, &mut members, "down", down.as_slice())?;
    titled(alloc, "create_constraint", members)
}

fn drop_constraint(
    alloc: Global,
    table: &Name,
    name: &Name,
    up: &Option<Ways>,
    down: &Option<Ways>,
) -> Result<Value, NoMemory>
    ensures { IfOk result (λ v. view v ≡ spec.titled operation.DropConstraint
        (table.now, (name.now, (up.now, (down.now, tt))))) }
{
    let mut members = Map::new(alloc);
    put_name(alloc, &mut members, "table", table)?;
    put_name(alloc, &mut members, "name", name)?;
    may_put_ways(alloc, &mut members, "up", up)?;
    may_put_ways(alloc, &mut members, "down", down)?;
    titled(alloc, "drop_constraint", members)
}

fn create_constraint(
    alloc: Global,
    table: &Name,
    name: &Name,
    columns: &List<Name>,
    check: &Option<Expr>,
    up: &List<(Name, Expr)>,
    down: &List<(Name, Expr)>,
) -> Result<Value, NoMemory>
    ensures { IfOk result (λ v. view v ≡
        spec.constraint_data table.now name.now columns.now check.now up.now down.now) }
{
    match check {
        Some(check) => create_check(alloc, table, name, columns, check, up, down),
        None => create_unique(alloc, table, name, columns, up, down),
    }
}

#[tactic(auto, unfolding(crate::specs::Writing::operation_data))]
fn operation_value(alloc: Global, op: &Op) -> Result<Value, NoMemory>
    ensures { IfOk result (λ v. view v ≡ spec.operation_data op.now) }
{
    match op {
        Op::CreateTable { name, columns } => create_table(alloc, name, columns),
        Op::DropTable { name } => drop_table(alloc, name),
        Op::RenameTable { from, to } => rename_table(alloc, from, to),
        Op::AddColumn { table, column, up } => add_column(alloc, table, column, up),
        Op::DropColumn {
            table,
            column,
            down,
        } => drop_column(alloc, table, column, down),
        Op::RenameColumn { table, from, to } => rename_column(alloc, table, from, to),
        Op::AlterColumn {
            table,
            column,
            ty,
            nullable,
            default,
            unique,
            check,
            up,
            down,
        } => alter_column(
            alloc, table, column, *ty, *nullable, default, unique, check, up, down,
        ),
        Op::CreateConstraint {
            table,
            name,
            columns,
            check,
            up,
            down,
        } => create_constraint(alloc, table, name, columns, check, up, down),
        Op::DropConstraint {
            table,
            name,
            up,
            down,
        } => drop_constraint(alloc, table, name, up, down),
    }
}

fn operation_values(alloc: Global, operations: &[Op]) -> Result<Vec<Value>, NoMemory>
    ensures { IfOk result (λ vs. map view vs.items ≡ map spec.operation_data operations.now) }
{
    let mut values = Vec::new(alloc);
    for op in operations {
        values.push(operation_value(alloc, op)?)?;
    }
    Ok(values)
}

// ---- the whole

#[tactic(auto, unfolding(crate::specs::Writing::json_of))]
fn migration_value(alloc: Global, m: &Migration) -> Result<Value, NoMemory>
    ensures { IfOk result (λ v. view v ≡ spec.json_of m.now) }
{
    let mut members = Map::new(alloc);
    put_name(alloc, &mut members, "name", &m.name)?;
    let operations = operation_values(alloc, m.operations.as_slice())?;
    put(alloc, &mut members, "operations", Value::from(operations))?;
    Ok(Value::from(members))
}

/// The canonical text of a migration: the compact text of its JSON value, with keys in byte order, members at their
/// default left out, expressions in canonical text and types by their first name. Bytes of a name that aren't UTF-8
/// stand as U+FFFD; a migration that was read has none. `laws::canonical_texts_are_read` has that what is written of a
/// migration that was read is read as that migration. An error is want of memory.
#[tactic(auto, unfolding(crate::specs::Writing::canonical_text), using(crate::proofs::Compact::no_float))]
pub fn write_migration(alloc: Global, m: &Migration) -> Result<SqlBytes, NoMemory>
    ensures { IfOk result (λ out. out ≡ spec.canonical_text m.now) }
{
    let value = migration_value(alloc, m)?;
    let text = value.to_vec(alloc)?;
    Ok(SqlBytes::from_vec(text))
}
