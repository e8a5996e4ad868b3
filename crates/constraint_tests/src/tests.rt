// Constraints over rows, and indexes of values, against tables of what the rules say.
ghost use Rattle.std.specs.Prelude.{◌≡◌, ◌≤◌, length, IfOk};
ghost use Rattle.row_rules.specs.Rows.{Ascends};
ghost use Rattle.sql_eval.specs.Shape.{max_columns};

use crate::{change, put};
use constraint::{Keyed, check_row, clash, validate};
use mig_lens::Side;
use row_index::SideIndex;
use row_rules::{Change, Halves, Kept};
use sql_base::{
    BinOp, Check, Column, EvalFault, Expr, List, Name, NoMemory, RowFault, Shape, SqlText, Ty,
    Unique, Value,
};
use sqlite_items::Boxed;
use std::alloc::Global;
use std::test::Fail;
use uniq_index::UniqIndex;

// Of each case the third column, which takes NULL where a `?` stands behind it; the checks, of
// which `x` is `x > 0` and `/x` is `1 / x > 0`; a row; and its fault. The columns before it are `id`,
// the key, and `name`, which isn't nullable.
const FAULTS: [(&str, &str, &str, Option<RowFault>); 11] = [
    ("age", "", "1 a 0", None),
    ("age", "age", "1 a 5", None),
    ("age", "age", "1 a 0", Some(RowFault::Check(0))),
    ("n", "", "2 b NULL", Some(RowFault::Null(2))),
    ("age?", "", "2 b NULL", None),
    ("age?", "age", "2 b NULL", None),
    ("age?", "age", "2 NULL 0", Some(RowFault::Null(1))),
    ("age?", "/age", "2 b NULL", None),
    (
        "age",
        "/age age",
        "1 a 0",
        Some(RowFault::Eval(0, EvalFault::DivZero)),
    ),
    ("age", "age /age", "1 a 0", Some(RowFault::Check(0))),
    ("age", "id age", "1 a -1", Some(RowFault::Check(1))),
];

// Of each case the third column, the checks, the columns of unique constraints, rows, and what
// isn't met with its key.
const TABLES: [(&str, &str, &str, &str, &str); 11] = [
    ("age", "age", "", "1 a 0;2 b 0;3 c 0", "users_age 1"),
    ("age", "age", "", "1 a 1;2 b 0;3 c 0", "users_age 2"),
    ("age", "age", "name", "1 a 1;2 b 2", ""),
    ("age?", "", "", "4 d 1;5 NULL 1", "users_name_not_null 5"),
    ("age", "/age", "", "-7 a 1;-6 b 0", "users_age -6"),
    (
        "code?",
        "",
        "code",
        "1 a NULL;2 a NULL;3 b x;4 c x",
        "users_code_key 3",
    ),
    ("code?", "", "code", "1 a NULL;2 a NULL;3 b x", ""),
    (
        "code?",
        "",
        "code",
        "1 a x;2 a y;3 b y;4 c x",
        "users_code_key 1",
    ),
    (
        "code?",
        "",
        "code",
        "1 a x;2 b x;3 c y;4 NULL z",
        "users_name_not_null 4",
    ),
    (
        "code?",
        "",
        "name code",
        "1 c x;2 a x;3 a y",
        "users_name_key 2",
    ),
    ("code?", "", "name code", "", ""),
];

fn named(alloc: Global, parts: &[&str]) -> Result<Name, NoMemory> {
    let mut bytes = Vec::new(alloc);
    for part in parts {
        bytes.extend_from_slice(part.as_bytes())?;
    }
    Name::from_slice(alloc, bytes.as_slice())
}

fn column(alloc: Global, word: &str, ty: Ty) -> Result<Column, NoMemory> {
    let name = word.strip_suffix('?');
    Ok(Column {
        name: named(alloc, &[name.unwrap_or(word)])?,
        ty,
        nullable: name.is_some(),
        default: Value::Null,
    })
}

fn columns(alloc: Global, third: &str) -> Result<List<Column>, NoMemory>
    ensures { IfOk result (λ columns. length columns ≤ 3) }
{
    let ty = if third.starts_with("code") {
        Ty::Text
    } else {
        Ty::Bigint
    };
    let mut columns = List::new(alloc);
    columns.push(column(alloc, "id", Ty::Bigint)?)?;
    columns.push(column(alloc, "name", Ty::Text)?)?;
    columns.push(column(alloc, third, ty)?)?;
    Ok(columns)
}

fn number(n: i64) -> Expr {
    Expr::Lit(Value::Int(n))
}

fn operation(alloc: Global, op: BinOp, left: Expr, right: Expr) -> Result<Expr, NoMemory> {
    Ok(Expr::Bin(op, Boxed::new(alloc, left)?, Boxed::new(alloc, right)?))
}

fn check(alloc: Global, word: &str) -> Result<Check, NoMemory> {
    let divisor = word.strip_prefix('/');
    let column = divisor.unwrap_or(word);
    let value = Expr::Col(named(alloc, &[column])?);
    let value = if divisor.is_some() {
        operation(alloc, BinOp::Div, number(1), value)?
    } else {
        value
    };
    Ok(Check {
        name: named(alloc, &["users_", column])?,
        expr: operation(alloc, BinOp::Gt, value, number(0))?,
    })
}

fn checks(alloc: Global, words: &str) -> Result<List<Check>, NoMemory> {
    let mut checks = List::new(alloc);
    for word in words.split_whitespace() {
        checks.push(check(alloc, word)?)?;
    }
    Ok(checks)
}

fn unique(alloc: Global, column: &str) -> Result<Unique, NoMemory> {
    let mut columns = List::new(alloc);
    columns.push(if column == "name" { 1 } else { 2 })?;
    Ok(Unique {
        name: named(alloc, &["users_", column, "_key"])?,
        columns,
    })
}

fn uniques(alloc: Global, words: &str) -> Result<List<Unique>, NoMemory> {
    let mut uniques = List::new(alloc);
    for word in words.split_whitespace() {
        uniques.push(unique(alloc, word)?)?;
    }
    Ok(uniques)
}

fn users(alloc: Global, third: &str, conditions: &str, of: &str) -> Result<Shape, NoMemory>
    ensures { IfOk result (λ shape. length shape.columns ≤ max_columns) }
{
    Ok(Shape {
        columns: columns(alloc, third)?,
        key: 0,
        checks: checks(alloc, conditions)?,
        uniques: uniques(alloc, of)?,
    })
}

fn value(alloc: Global, word: &str) -> Result<Value, Fail> {
    if word == "NULL" {
        return Ok(Value::Null);
    }
    match word.parse::<i64>() {
        Ok(n) => Ok(Value::Int(n)),
        Err(_) => match SqlText::read(alloc, word.as_bytes())? {
            Some(text) => Ok(Value::Text(text)),
            None => Err("not a text")?,
        },
    }
}

fn values(alloc: Global, words: &str) -> Result<List<Value>, Fail> {
    let mut values = List::new(alloc);
    for word in words.split_whitespace() {
        values.push(value(alloc, word)?)?;
    }
    Ok(values)
}

fn keyed(alloc: Global, words: &str) -> Result<Keyed, Fail> {
    let row = values(alloc, words)?;
    let key = match row.get(0) {
        Some(Value::Int(key)) => *key,
        _ => 0,
    };
    Ok((key, row))
}

fn rows(alloc: Global, words: &str) -> Result<Vec<Keyed>, Fail> {
    let mut rows = Vec::new(alloc);
    for row in words.split(';') {
        if !row.is_empty() {
            rows.push(keyed(alloc, row)?)?;
        }
    }
    Ok(rows)
}

fn fault(
    alloc: Global,
    third: &str,
    conditions: &str,
    row: &str,
) -> Result<Option<RowFault>, Fail> {
    let row = values(alloc, row)?;
    let shape = users(alloc, third, conditions, "")?;
    Ok(check_row(alloc, &shape, row.as_slice())?)
}

fn broken(alloc: Global, shape: Shape, words: &str) -> Result<Option<(Name, i64)>, Fail>
    requires { length shape.columns ≤ max_columns }
{
    let table = named(alloc, &["users"])?;
    let rows = rows(alloc, words)?;
    Ok(validate(alloc, &table, &shape, rows.as_slice())?)
}

// What isn't met, as the tables have it.
fn told(alloc: Global, broken: Option<(Name, i64)>) -> Result<String, Fail> {
    match broken {
        Some((name, key)) => {
            let name = String::from_utf8_lossy(alloc, name.as_slice())?;
            Ok(format!(in alloc; "{name} {key}")?)
        }
        None => Ok(String::new(alloc)),
    }
}

#[test]
fn a_row_has_the_first_fault(rt: HostRuntime) -> Result<(), Fail> {
    for (third, conditions, row, wanted) in FAULTS {
        let fault = fault(rt.alloc(), third, conditions, row)?;
        assert!(rt; fault == wanted);
    }
    Ok(())
}

#[test]
fn tables_are_valid_or_a_constraint_is_told(rt: HostRuntime) -> Result<(), Fail> {
    for (third, conditions, of, words, wanted) in TABLES {
        let shape = users(rt.alloc(), third, conditions, of)?;
        let broken = broken(rt.alloc(), shape, words)?;
        let broken = told(rt.alloc(), broken)?;
        assert_eq!(rt; broken.as_str(), wanted);
    }
    Ok(())
}

#[test]
fn a_key_clashes_with_the_least_other(rt: HostRuntime) -> Result<(), Fail> {
    let code = unique(rt.alloc(), "code")?;
    let rows = rows(rt.alloc(), "1 a NULL;2 a NULL;3 b x;4 c x;5 d x;6 e y")?;
    let found = |key: i64| clash(&code, rows.as_slice(), key);
    assert_eq!(rt;
        (found(1), found(2), found(6), found(7)),
        (None, None, None, None)
    );
    assert_eq!(rt; (found(3), found(4), found(5)), (Some(4), Some(3), Some(3)));
    Ok(())
}

// The codes of rows 1 to 3.
fn three_codes(alloc: Global) -> Result<UniqIndex, Fail> {
    let mut index = UniqIndex::new(alloc);
    for (key, code) in [(3, "x"), (1, "NULL"), (2, "NULL")] {
        let code = values(alloc, code)?;
        let _former = put(&mut index, key, code)?;
    }
    Ok(index)
}

#[test]
fn an_index_finds_the_least_other_key(rt: HostRuntime) -> Result<(), Fail> {
    let mut index = three_codes(rt.alloc())?;
    let x = values(rt.alloc(), "x")?;
    let none = values(rt.alloc(), "NULL")?;
    assert_eq!(rt;
        (index.clash(x.as_slice(), 4), index.clash(x.as_slice(), 3)),
        (Some(3), None)
    );
    assert_eq!(rt;
        (index.clash(none.as_slice(), 4), index.clash(&[], 4)),
        (None, None)
    );
    assert!(rt; put(&mut index, 4, values(rt.alloc(), "x")?)?.is_none());
    assert_eq!(rt;
        (index.clash(x.as_slice(), 4), index.clash(x.as_slice(), 3)),
        (Some(3), Some(4))
    );
    assert!(rt; put(&mut index, 1, values(rt.alloc(), "x")?)?.is_some());
    assert_eq!(rt; index.clash(x.as_slice(), 4), Some(1));
    Ok(())
}

#[test]
fn a_removed_key_clashes_no_more(rt: HostRuntime) -> Result<(), Fail> {
    let mut index = three_codes(rt.alloc())?;
    let x = values(rt.alloc(), "x")?;
    assert!(rt; index.remove(3).is_some() && index.remove(3).is_none());
    assert_eq!(rt; index.clash(x.as_slice(), 4), None);
    assert!(rt; index.remove(2).is_some() && index.remove(7).is_none());
    Ok(())
}

fn half(alloc: Global, words: Option<&str>) -> Result<Option<List<Value>>, Fail> {
    match words {
        Some(words) => Ok(Some(values(alloc, words)?)),
        None => Ok(None),
    }
}

fn kept(alloc: Global, key: i64, old: &str, new: Option<&str>) -> Result<Kept, Fail>
    ensures { IfOk result (λ row. row.key ≡ key) }
{
    let halves = Halves {
        old: half(alloc, Some(old))?,
        new: half(alloc, new)?,
    };
    Ok(Kept {
        key,
        halves,
        lost: 0,
    })
}

// Rows 1 to 3, of which the second misses its new half.
fn three_rows(alloc: Global) -> Result<List<Kept>, Fail>
    ensures { IfOk result Ascends }
{
    let one = kept(alloc, 1, "1 a x", Some("1 a y"))?;
    let two = kept(alloc, 2, "2 b x", None)?;
    let three = kept(alloc, 3, "3 c z", Some("3 c z"))?;
    let mut rows = List::new(alloc);
    rows.push(one)?;
    rows.push(two)?;
    rows.push(three)?;
    Ok(rows)
}

// Row 1 gets another code, row 2 its new half, row 3 goes, and row 4 comes.
fn four_changes(alloc: Global) -> Result<List<Change>, Fail> {
    let mut changes = List::new(alloc);
    changes.push(Change::Put(kept(alloc, 1, "1 a x", Some("1 a w"))?))?;
    changes.push(Change::Put(kept(alloc, 2, "2 b x", Some("2 b x"))?))?;
    changes.push(Change::Remove(3))?;
    changes.push(Change::Put(kept(alloc, 4, "4 d v", None)?))?;
    Ok(changes)
}

// For each code from v to z whether a row other than these has it.
fn codes_of_others(
    alloc: Global,
    index: &SideIndex,
    code: &Unique,
    keys: &[i64],
) -> Result<String, Fail> {
    let mut found = String::new(alloc);
    for word in ["v", "w", "x", "y", "z", "NULL"] {
        let half = values(alloc, "0 NULL")?;
        let mut half = half;
        half.push(value(alloc, word)?)?;
        if index.other_alike(code, half.as_slice(), keys) == Some(true) {
            found.push_str(word)?;
        }
    }
    Ok(found)
}

#[test]
fn the_indexes_of_a_side_change_as_its_rows_do(rt: HostRuntime) -> Result<(), Fail> {
    let alloc = rt.alloc();
    let of = uniques(alloc, "code")?;
    let code = unique(alloc, "code")?;
    let rows = three_rows(alloc)?;
    let changes = four_changes(alloc)?;
    let (of, rows, changes) = (of.as_slice(), rows.as_slice(), changes.as_slice());
    for (side, before, others, after) in [
        (Side::Old, "xz", "xz", "vx"),
        (Side::New, "yz", "z", "wx"),
    ] {
        let mut index = SideIndex::build(alloc, of, side, &rows)?;
        assert_eq!(rt;
            codes_of_others(alloc, &index, &code, &[])?.as_str(),
            before
        );
        assert_eq!(rt;
            codes_of_others(alloc, &index, &code, &[1])?.as_str(),
            others
        );
        change(alloc, &mut index, side, rows, changes)?;
        assert_eq!(rt; codes_of_others(alloc, &index, &code, &[])?.as_str(), after);
    }
    Ok(())
}
