//! Migrations and faults as words.
use crate::JsonFault;
use mig_lens::{ColumnDef, Member, Migration, Op, Place, Ways};
use sql_base::{Check, Expr, List, Name, Ty, Value};
use sql_text::print_expr;
use std::alloc::Global;
use std::test::Fail;

fn word(name: &Name) -> &str {
    str::from_utf8(name.as_slice()).unwrap_or("?")
}

fn ty(ty: Ty) -> &'static str {
    match ty {
        Ty::Bigint => "bigint",
        Ty::Text => "text",
        Ty::Boolean => "boolean",
    }
}

fn place(alloc: Global, number: &str, place: &Place) -> Result<String, Fail> {
    let member = match place.member {
        Member::Up => "up",
        Member::Down => "down",
        Member::Check => "check",
        Member::Default => "default",
        Member::TypeName => "type",
    };
    let at = place.operation;
    Ok(format!(in alloc; "{number} operations[{at}].{member}")?)
}

/// The number of the refusal, and what is printed after it.
pub fn fault(alloc: Global, fault: &JsonFault) -> Result<String, Fail> {
    match fault {
        JsonFault::TooLong { len } => Ok(format!(in alloc; "P20 {len}")?),
        JsonFault::Json(path) => Ok(format!(in alloc; "P16 {}", word(path))?),
        JsonFault::BadExpr(at) => place(alloc, "P14", at),
        JsonFault::BadType(at) => place(alloc, "P15", at),
        JsonFault::NoMemory => Ok(String::from_str(alloc, "memory")?),
    }
}

fn expr(alloc: Global, expr: &Expr) -> Result<String, Fail> {
    let text = print_expr(alloc, expr)?;
    Ok(String::from_str(alloc, str::from_utf8(text.as_slice()).unwrap_or("?"))?)
}

fn literal(alloc: Global, literal: &Value) -> Result<String, Fail> {
    match literal {
        Value::Null => Ok(String::from_str(alloc, "NULL")?),
        Value::Int(n) => Ok(format!(in alloc; "{n}")?),
        Value::Text(text) => Ok(format!(in alloc; "'{}'", text.as_str())?),
        Value::Bool(b) => Ok(format!(in alloc; "{b}")?),
    }
}

fn check(alloc: Global, check: &Check) -> Result<String, Fail> {
    let name = word(&check.name);
    let text = expr(alloc, &check.expr)?;
    Ok(format!(in alloc; "{name}={text}")?)
}

fn pairs(alloc: Global, pairs: &List<(Name, Expr)>) -> Result<String, Fail> {
    let mut all = String::from_str(alloc, "[")?;
    for (name, tree) in pairs.as_slice() {
        let text = expr(alloc, tree)?;
        all.push_str(format!(in alloc; " {}={text}", word(name))?.as_str())?;
    }
    all.push_str(" ]")?;
    Ok(all)
}

fn ways(alloc: Global, ways: &Ways) -> Result<String, Fail> {
    match ways {
        Ways::One(tree) => expr(alloc, tree),
        Ways::Each(each) => pairs(alloc, each),
    }
}

/// ` word=`, and the text where there is one.
fn put(all: &mut String, label: &str, text: Option<String>) -> Result<(), Fail> {
    if let Some(text) = text {
        all.push_str(label)?;
        all.push_str(text.as_str())?;
    }
    Ok(())
}

fn column(alloc: Global, column: &ColumnDef) -> Result<String, Fail> {
    let mut all = format!(in alloc; " ({} {}", word(&column.name), ty(column.ty))?;
    all.push_str(if column.nullable { " null" } else { "" })?;
    all.push_str(if column.pk { " pk" } else { "" })?;
    all.push_str(if column.unique { " unique" } else { "" })?;
    if column.default != Value::Null {
        put(
            &mut all,
            " default=",
            Some(literal(alloc, &column.default)?),
        )?;
    }
    if let Some(one) = &column.check {
        put(&mut all, " check ", Some(check(alloc, one)?))?;
    }
    all.push(')')?;
    Ok(all)
}

fn maybe(alloc: Global, all: &mut String, label: &str, tree: &Option<Expr>) -> Result<(), Fail> {
    match tree {
        Some(tree) => put(all, label, Some(expr(alloc, tree)?)),
        None => Ok(()),
    }
}

fn created(alloc: Global, name: &Name, columns: &List<ColumnDef>) -> Result<String, Fail> {
    let mut all = format!(in alloc; "create_table {}", word(name))?;
    for one in columns.as_slice() {
        all.push_str(column(alloc, one)?.as_str())?;
    }
    Ok(all)
}

fn altered(alloc: Global, op: &Op) -> Result<String, Fail> {
    let Op::AlterColumn {
        table,
        column,
        ty: to,
        nullable,
        default,
        unique,
        check: one,
        up,
        down,
    } = op
    else {
        return Ok(String::new(alloc));
    };
    let mut all = format!(in alloc; "alter_column {} {}", word(table), word(column))?;
    if let Some(to) = to {
        all.push_str(format!(in alloc; " {}", ty(*to))?.as_str())?;
    }
    if let Some(nullable) = nullable {
        all.push_str(format!(in alloc; " nullable={nullable}")?.as_str())?;
    }
    if let Some(default) = default {
        put(&mut all, " default=", Some(literal(alloc, default)?))?;
    }
    if let Some(unique) = unique {
        all.push_str(format!(in alloc; " unique {}", word(unique))?.as_str())?;
    }
    if let Some(one) = one {
        put(&mut all, " check ", Some(check(alloc, one)?))?;
    }
    maybe(alloc, &mut all, " up=", up)?;
    maybe(alloc, &mut all, " down=", down)?;
    Ok(all)
}

fn constrained(alloc: Global, op: &Op) -> Result<String, Fail> {
    let Op::CreateConstraint {
        table,
        name,
        columns,
        check,
        up,
        down,
    } = op
    else {
        return Ok(String::new(alloc));
    };
    let mut all = format!(in alloc; "create_constraint {} {} (", word(table), word(name))?;
    for one in columns.as_slice() {
        all.push_str(format!(in alloc; " {}", word(one))?.as_str())?;
    }
    all.push_str(" )")?;
    maybe(alloc, &mut all, " check=", check)?;
    put(&mut all, " up=", Some(pairs(alloc, up)?))?;
    put(&mut all, " down=", Some(pairs(alloc, down)?))?;
    Ok(all)
}

fn moved(alloc: Global, op: &Op) -> Result<String, Fail> {
    match op {
        Op::DropTable { name } => Ok(format!(in alloc; "drop_table {}", word(name))?),
        Op::RenameTable { from, to } => {
            let (from, to) = (word(from), word(to));
            Ok(format!(in alloc; "rename_table {from} {to}")?)
        }
        Op::RenameColumn { table, from, to } => {
            let (table, from, to) = (word(table), word(from), word(to));
            Ok(format!(in alloc; "rename_column {table} {from} {to}")?)
        }
        _ => Ok(String::new(alloc)),
    }
}

fn freed(
    alloc: Global,
    table: &Name,
    name: &Name,
    up: &Option<Ways>,
    down: &Option<Ways>,
) -> Result<String, Fail> {
    let mut all = format!(in alloc; "drop_constraint {} {}", word(table), word(name))?;
    if let Some(up) = up {
        put(&mut all, " up=", Some(ways(alloc, up)?))?;
    }
    if let Some(down) = down {
        put(&mut all, " down=", Some(ways(alloc, down)?))?;
    }
    Ok(all)
}

fn operation(alloc: Global, op: &Op) -> Result<String, Fail> {
    match op {
        Op::CreateTable { name, columns } => created(alloc, name, columns),
        Op::AddColumn {
            table,
            column: one,
            up,
        } => {
            let one = column(alloc, one)?;
            let mut all = format!(in alloc; "add_column {}{one}", word(table))?;
            maybe(alloc, &mut all, " up=", up)?;
            Ok(all)
        }
        Op::DropColumn {
            table,
            column,
            down,
        } => {
            let mut all = format!(in alloc; "drop_column {} {}", word(table), word(column))?;
            maybe(alloc, &mut all, " down=", down)?;
            Ok(all)
        }
        Op::AlterColumn { .. } => altered(alloc, op),
        Op::CreateConstraint { .. } => constrained(alloc, op),
        Op::DropConstraint {
            table,
            name,
            up,
            down,
        } => freed(alloc, table, name, up, down),
        _ => moved(alloc, op),
    }
}

/// The name, and each operation behind `; `.
pub fn migration(alloc: Global, m: &Migration) -> Result<String, Fail> {
    let mut all = String::from_str(alloc, word(&m.name))?;
    for op in m.operations.as_slice() {
        all.push_str("; ")?;
        all.push_str(operation(alloc, op)?.as_str())?;
    }
    Ok(all)
}
