mod tables;
mod trees;

use sql_base::{
    Check, Column, Copying, EvalFault, Expr, Items, List, Name, NoMemory, Schema, Shape, SqlBytes,
    Stmt, Ty, TypeFault, Unique, Value, depth, names_column, row_fits, weight,
};
use sql_eval::{eval, type_of};
use std::alloc::Global;
use std::test::Fail;
use tables::{TYPES, VALUES};
use trees::{literal, text, tree};

fn name(alloc: Global, word: &str) -> Result<Name, NoMemory> {
    Name::from_slice(alloc, word.as_bytes())
}

fn column(alloc: Global, word: &str, ty: Ty, nullable: bool) -> Result<Column, NoMemory> {
    Ok(Column {
        name: name(alloc, word)?,
        ty,
        nullable,
        default: Value::Null,
    })
}

fn one<T: Drop>(alloc: Global, item: T) -> Result<List<T>, NoMemory> {
    let mut list = List::new(alloc);
    list.push(item)?;
    Ok(list)
}

fn columns(alloc: Global) -> Result<List<Column>, NoMemory> {
    let mut columns = one(alloc, column(alloc, "id", Ty::Bigint, false)?)?;
    columns.push(column(alloc, "name", Ty::Text, false)?)?;
    columns.push(column(alloc, "flag", Ty::Boolean, true)?)?;
    Ok(columns)
}

fn check(alloc: Global) -> Result<Check, Fail> {
    let expr = tree(alloc, "id 0 >")?;
    Ok(Check {
        name: name(alloc, "id_some")?,
        expr,
    })
}

fn unique(alloc: Global) -> Result<Unique, NoMemory> {
    Ok(Unique {
        name: name(alloc, "people_name_key")?,
        columns: one(alloc, 1)?,
    })
}

fn people(alloc: Global) -> Result<Shape, Fail> {
    Ok(Shape {
        columns: columns(alloc)?,
        key: 0,
        checks: one(alloc, check(alloc)?)?,
        uniques: one(alloc, unique(alloc)?)?,
    })
}

fn ann(alloc: Global) -> Result<List<Value>, Fail> {
    let mut row = List::new(alloc);
    row.push(Value::Int(7))?;
    row.push(text(alloc, "ann")?.ok_or("not a text")?)?;
    row.push(Value::Null)?;
    Ok(row)
}

fn fault(word: &str) -> Option<EvalFault> {
    match word {
        "DivZero" => Some(EvalFault::DivZero),
        "Range" => Some(EvalFault::Range),
        "BadText" => Some(EvalFault::BadText),
        "TooLong" => Some(EvalFault::TooLong),
        _ => None,
    }
}

fn comes_to(
    alloc: Global,
    e: &Expr,
    shape: &Shape,
    row: &[Value],
    wanted: &str,
) -> Result<bool, NoMemory> {
    match (eval(alloc, e, shape, row), fault(wanted)) {
        (Err(found), Some(fault)) => Ok(found == fault),
        (Ok(found), None) => match literal(alloc, wanted)? {
            Some(value) => Ok(found == value),
            None => Ok(false),
        },
        _ => Ok(false),
    }
}

fn is_the_value(alloc: Global, line: &str, shape: &Shape, row: &[Value]) -> Result<bool, Fail> {
    match line.split_once(" => ") {
        Some((expression, wanted)) => {
            let e = tree(alloc, expression)?.copy(alloc)?;
            Ok(comes_to(alloc, &e, shape, row, wanted)?)
        }
        None => Ok(line.starts_with('#')),
    }
}

/// The first line of the table that is wrong.
fn first_wrong_value<'a>(
    alloc: Global,
    table: &'a str,
    shape: &Shape,
    row: &[Value],
) -> Result<Option<&'a str>, Fail> {
    for line in table.split('\n') {
        if !line.is_empty() && !is_the_value(alloc, line, shape, row)? {
            return Ok(Some(line));
        }
    }
    Ok(None)
}

#[test]
fn values_are_the_manuals(rt: HostRuntime) -> Result<(), Fail> {
    let alloc = rt.alloc();
    let wrong = first_wrong_value(alloc, VALUES, &people(alloc)?, ann(alloc)?.as_slice())?;
    assert!(rt; wrong.is_none(), "{wrong:?}");
    Ok(())
}

fn type_word(found: Result<Option<Ty>, TypeFault>) -> &'static str {
    match found {
        Ok(None) => "NULL",
        Ok(Some(Ty::Bigint)) => "bigint",
        Ok(Some(Ty::Text)) => "text",
        Ok(Some(Ty::Boolean)) => "boolean",
        Err(TypeFault::NoColumn(_)) => "NoColumn",
        Err(TypeFault::Mismatch) => "Mismatch",
        Err(TypeFault::NoMemory) => "NoMemory",
    }
}

fn is_the_type(alloc: Global, line: &str, shape: &Shape) -> Result<bool, Fail> {
    match line.split_once(" => ") {
        Some((expression, wanted)) => {
            let e = tree(alloc, expression)?;
            Ok(type_word(type_of(alloc, &e, shape)) == wanted)
        }
        None => Ok(line.starts_with('#')),
    }
}

/// The first line of the table that is wrong.
fn first_wrong_type<'a>(
    alloc: Global,
    table: &'a str,
    shape: &Shape,
) -> Result<Option<&'a str>, Fail> {
    for line in table.split('\n') {
        if !line.is_empty() && !is_the_type(alloc, line, shape)? {
            return Ok(Some(line));
        }
    }
    Ok(None)
}

#[test]
fn types_are_as_the_rules_say(rt: HostRuntime) -> Result<(), Fail> {
    let alloc = rt.alloc();
    let wrong = first_wrong_type(alloc, TYPES, &people(alloc)?.copy(alloc)?)?;
    assert!(rt; wrong.is_none(), "{wrong:?}");
    Ok(())
}

#[test]
fn trees_are_measured(rt: HostRuntime) -> Result<(), Fail> {
    let alloc = rt.alloc();
    let e = tree(alloc, "id 1 + id 2 = 3 4 case/1 *")?;
    assert!(rt; depth(&e) == 4);
    assert!(rt; names_column(&e, &name(alloc, "id")?));
    assert!(rt; !names_column(&e, &name(alloc, "flag")?));
    Ok(())
}

#[test]
fn rows_are_measured(rt: HostRuntime) -> Result<(), Fail> {
    let alloc = rt.alloc();
    let shape = people(alloc)?;
    let row = ann(alloc)?.copy(alloc)?;
    assert!(rt; row_fits(&shape, row.as_slice()));
    assert!(rt; !row_fits(&shape, &[]));
    assert!(rt; weight(row.as_slice()) == 16);
    Ok(())
}

fn insert(alloc: Global) -> Result<Stmt, Fail> {
    let row = one(alloc, tree(alloc, "1 2 +")?)?;
    let columns = one(alloc, name(alloc, "id")?)?;
    Ok(Stmt::Insert(name(alloc, "people")?, columns, one(alloc, row)?))
}

fn update(alloc: Global) -> Result<Stmt, Fail> {
    let sets = one(alloc, (name(alloc, "name")?, tree(alloc, "name upper")?))?;
    Ok(Stmt::Update(name(alloc, "people")?, sets, Some(tree(alloc, "TRUE")?)))
}

fn query(alloc: Global) -> Result<Stmt, Fail> {
    let items = Items::Listed(one(alloc, tree(alloc, "id")?)?);
    Ok(Stmt::Query(name(alloc, "people")?, items, None))
}

#[test]
fn statements_are_copied(rt: HostRuntime) -> Result<(), Fail> {
    let alloc = rt.alloc();
    let mut all = one(alloc, insert(alloc)?)?;
    all.push(update(alloc)?)?;
    all.push(query(alloc)?)?;
    all.push(Stmt::Delete(name(alloc, "people")?, None))?;
    all.push(Stmt::SetPath(one(alloc, name(alloc, "public_init")?)?))?;
    assert!(rt; all.copy(alloc)?.len() == 5);
    Ok(())
}

#[test]
fn schemas_are_copied(rt: HostRuntime) -> Result<(), Fail> {
    let alloc = rt.alloc();
    let tables = one(alloc, (name(alloc, "people")?, 1, people(alloc)?))?;
    assert!(rt; Schema { tables }.copy(alloc)?.tables.len() == 1);
    let bytes = SqlBytes::from_vec([1, 2].to_vec(alloc)?);
    assert!(rt; bytes.copy(alloc)?.as_slice().len() == 2);
    Ok(())
}
