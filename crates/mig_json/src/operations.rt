//! The members of each operation.

ghost use Rattle.std.specs.Prelude.{◌≡◌, [], List, Option, unwrap_or};
ghost use Rattle.serde_json.specs.View.{view};
ghost use Rattle.sql_base.specs.declared.exprs.Expr.{Expr};
ghost use Rattle.mig_json.specs.Kind.{MembersMake};
ghost use Rattle.mig_json.specs.Table as table;

use crate::faults::JsonFault;
use crate::members::Operation;
use crate::objects::{
    may_check, may_each, may_named, may_ways, must_column, must_columns, must_names,
};
use crate::values::{
    may_expression, may_flag, may_literal, may_type, read_expression, read_name, read_none,
    read_word,
};
use mig_lens::{Member, Op};
use serde_json::Value;
use sql_base::{Expr, List, Name};
use std::alloc::Global;

fn create_table(alloc: Global, at: u64, operation: &Value) -> Result<Op, JsonFault>
    ensures { MembersMake table.create_table.fields table.create_table.made at [] (view operation.now) result }
{
    let name = read_name(alloc, at, "", "name", operation.get("name"))?;
    let columns = must_columns(alloc, at, operation.get("columns"))?;
    Ok(Op::CreateTable { name, columns })
}

fn drop_table(alloc: Global, at: u64, operation: &Value) -> Result<Op, JsonFault>
    ensures { MembersMake table.drop_table.fields table.drop_table.made at [] (view operation.now) result }
{
    let name = read_name(alloc, at, "", "name", operation.get("name"))?;
    Ok(Op::DropTable { name })
}

fn rename_table(alloc: Global, at: u64, operation: &Value) -> Result<Op, JsonFault>
    ensures { MembersMake table.rename_table.fields table.rename_table.made at [] (view operation.now) result }
{
    let from = read_name(alloc, at, "", "from", operation.get("from"))?;
    let to = read_name(alloc, at, "", "to", operation.get("to"))?;
    Ok(Op::RenameTable { from, to })
}

fn add_column(alloc: Global, at: u64, operation: &Value) -> Result<Op, JsonFault>
    ensures { MembersMake table.add_column.fields table.add_column.made at [] (view operation.now) result }
{
    let table = read_name(alloc, at, "", "table", operation.get("table"))?;
    let column = must_column(alloc, at, operation.get("column"))?;
    let up = may_expression(alloc, at, Member::Up, "", "up", operation.get("up"))?;
    Ok(Op::AddColumn { table, column, up })
}

fn drop_column(alloc: Global, at: u64, operation: &Value) -> Result<Op, JsonFault>
    ensures { MembersMake table.drop_column.fields table.drop_column.made at [] (view operation.now) result }
{
    let table = read_name(alloc, at, "", "table", operation.get("table"))?;
    let column = read_name(alloc, at, "", "column", operation.get("column"))?;
    let down = may_expression(alloc, at, Member::Down, "", "down", operation.get("down"))?;
    Ok(Op::DropColumn {
        table,
        column,
        down,
    })
}

fn rename_column(alloc: Global, at: u64, operation: &Value) -> Result<Op, JsonFault>
    ensures { MembersMake table.rename_column.fields table.rename_column.made at [] (view operation.now) result }
{
    let table = read_name(alloc, at, "", "table", operation.get("table"))?;
    let from = read_name(alloc, at, "", "from", operation.get("from"))?;
    let to = read_name(alloc, at, "", "to", operation.get("to"))?;
    Ok(Op::RenameColumn { table, from, to })
}

fn alter_column(alloc: Global, at: u64, operation: &Value) -> Result<Op, JsonFault>
    ensures { MembersMake table.alter_column.fields table.alter_column.made at [] (view operation.now) result }
{
    let table = read_name(alloc, at, "", "table", operation.get("table"))?;
    let column = read_name(alloc, at, "", "column", operation.get("column"))?;
    let ty = may_type(alloc, at, "", "type", operation.get("type"))?;
    let nullable = may_flag(alloc, at, "", "nullable", operation.get("nullable"))?;
    let default = may_literal(
        alloc,
        at,
        Member::Default,
        "",
        "default",
        operation.get("default"),
    )?;
    let unique = may_named(alloc, at, operation.get("unique"))?;
    let check = may_check(alloc, at, "", "check", operation.get("check"))?;
    let up = may_expression(alloc, at, Member::Up, "", "up", operation.get("up"))?;
    let down = may_expression(alloc, at, Member::Down, "", "down", operation.get("down"))?;
    Ok(Op::AlterColumn {
        table,
        column,
        ty,
        nullable,
        default,
        unique,
        check,
        up,
        down,
    })
}

fn pairs_or_none(alloc: Global, pairs: Option<List<(Name, Expr)>>) -> List<(Name, Expr)>
    ensures { result ≡ unwrap_or pairs [] }
{
    match pairs {
        Some(pairs) => pairs,
        None => List::new(alloc),
    }
}

fn create_unique(alloc: Global, at: u64, operation: &Value) -> Result<Op, JsonFault>
    ensures { MembersMake table.create_unique.fields table.create_unique.made at [] (view operation.now) result }
{
    let table = read_name(alloc, at, "", "table", operation.get("table"))?;
    let name = read_name(alloc, at, "", "name", operation.get("name"))?;
    read_word(alloc, at, "", "type", "unique", operation.get("type"))?;
    let columns = must_names(alloc, at, operation.get("columns"))?;
    read_none(alloc, at, "", "check", operation.get("check"))?;
    let up = may_each(alloc, at, Member::Up, ".up", operation.get("up"))?;
    let down = may_each(alloc, at, Member::Down, ".down", operation.get("down"))?;
    Ok(Op::CreateConstraint {
        table,
        name,
        columns,
        check: None,
        up: pairs_or_none(alloc, up),
        down: pairs_or_none(alloc, down),
    })
}

fn create_check(alloc: Global, at: u64, operation: &Value) -> Result<Op, JsonFault>
    ensures { MembersMake table.create_check.fields table.create_check.made at [] (view operation.now) result }
{
    let table = read_name(alloc, at, "", "table", operation.get("table"))?;
    let name = read_name(alloc, at, "", "name", operation.get("name"))?;
    read_word(alloc, at, "", "type", "check", operation.get("type"))?;
    let columns = must_names(alloc, at, operation.get("columns"))?;
    let check = read_expression(
        alloc,
        at,
        Member::Check,
        "",
        "check",
        operation.get("check"),
    )?;
    let up = may_each(alloc, at, Member::Up, ".up", operation.get("up"))?;
    let down = may_each(alloc, at, Member::Down, ".down", operation.get("down"))?;
    Ok(Op::CreateConstraint {
        table,
        name,
        columns,
        check: Some(check),
        up: pairs_or_none(alloc, up),
        down: pairs_or_none(alloc, down),
    })
}

fn drop_constraint(alloc: Global, at: u64, operation: &Value) -> Result<Op, JsonFault>
    ensures { MembersMake table.drop_constraint.fields table.drop_constraint.made at [] (view operation.now) result }
{
    let table = read_name(alloc, at, "", "table", operation.get("table"))?;
    let name = read_name(alloc, at, "", "name", operation.get("name"))?;
    let up = may_ways(alloc, at, Member::Up, ".up", operation.get("up"))?;
    let down = may_ways(alloc, at, Member::Down, ".down", operation.get("down"))?;
    Ok(Op::DropConstraint {
        table,
        name,
        up,
        down,
    })
}

/// What the members of the operation's value make.
pub(crate) fn read_members(
    alloc: Global,
    at: u64,
    operation: Operation,
    value: &Value,
) -> Result<Op, JsonFault>
    ensures { let form = table.form operation in
        MembersMake form.fields form.made at [] (view value.now) result }
{
    match operation {
        Operation::CreateTable => create_table(alloc, at, value),
        Operation::DropTable => drop_table(alloc, at, value),
        Operation::RenameTable => rename_table(alloc, at, value),
        Operation::AddColumn => add_column(alloc, at, value),
        Operation::DropColumn => drop_column(alloc, at, value),
        Operation::RenameColumn => rename_column(alloc, at, value),
        Operation::AlterColumn => alter_column(alloc, at, value),
        Operation::CreateUnique => create_unique(alloc, at, value),
        Operation::CreateCheck => create_check(alloc, at, value),
        Operation::DropConstraint => drop_constraint(alloc, at, value),
    }
}
