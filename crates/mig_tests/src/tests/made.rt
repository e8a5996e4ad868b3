//! Schemas, migrations and rows from words.
use mig_lens::{ColumnDef, Migration, Op, Ways};
use sql_base::{
    Arm, BinOp, Check, Column, Expr, List, Name, NoMemory, Schema, Shape, SqlText, Ty, Value,
};
use sqlite_items::{Boxed, Items};
use std::alloc::Global;
use std::test::Fail;

pub fn name(alloc: Global, word: &str) -> Result<Name, NoMemory> {
    Name::from_slice(alloc, word.as_bytes())
}

pub fn one<T: Drop>(alloc: Global, item: T) -> Result<List<T>, NoMemory> {
    let mut list = List::new(alloc);
    list.push(item)?;
    Ok(list)
}

fn column(alloc: Global, word: &str, ty: Ty) -> Result<Column, NoMemory> {
    Ok(Column {
        name: name(alloc, word)?,
        ty,
        nullable: false,
        default: Value::Null,
    })
}

/// `users` with the key `id` and the text `name`, neither nullable: table 1.
pub fn users(alloc: Global) -> Result<Schema, NoMemory> {
    let mut columns = one(alloc, column(alloc, "id", Ty::Bigint)?)?;
    columns.push(column(alloc, "name", Ty::Text)?)?;
    let shape = Shape {
        columns,
        key: 0,
        checks: List::new(alloc),
        uniques: List::new(alloc),
    };
    Ok(Schema {
        tables: one(alloc, (name(alloc, "users")?, 1, shape))?,
    })
}

pub fn text(alloc: Global, word: &str) -> Result<Value, Fail> {
    Ok(Value::Text(SqlText::read(alloc, word.as_bytes())?.ok_or("not a text")?))
}

/// A word in quotes, a number or `NULL`.
fn literal(alloc: Global, word: &str) -> Result<Option<Value>, Fail> {
    if let Some(quoted) = word.strip_prefix('\'') {
        return Ok(Some(text(alloc, quoted.strip_suffix('\'').unwrap_or(quoted))?));
    }
    if word == "NULL" {
        return Ok(Some(Value::Null));
    }
    Ok(word.parse::<i64>().ok().map(Value::Int))
}

fn pair(alloc: Global, op: BinOp, column: &str, value: Value) -> Result<Expr, Fail> {
    let left = Boxed::new(alloc, Expr::Col(name(alloc, column)?))?;
    Ok(Expr::Bin(op, left, Boxed::new(alloc, Expr::Lit(value))?))
}

/// NULL where the name is this, else the other value.
fn null_for(alloc: Global, word: &str, other: Value) -> Result<Expr, Fail> {
    let mut arms = Items::new(alloc);
    let when = pair(alloc, BinOp::Eq, "name", text(alloc, word)?)?;
    arms.push(Arm {
        when,
        gives: Expr::Lit(Value::Null),
    })?;
    Ok(Expr::Case(arms, Boxed::new(alloc, Expr::Lit(other))?))
}

/// A literal, a column's name, or one of six expressions that have a word of their own.
fn expr(alloc: Global, word: &str) -> Result<Expr, Fail> {
    match word {
        "age>0" => pair(alloc, BinOp::Gt, "age", Value::Int(0)),
        "id/0" => pair(alloc, BinOp::Div, "id", Value::Int(0)),
        "id+max" => pair(alloc, BinOp::Add, "id", Value::Int(i64::MAX)),
        "1_but_b" => null_for(alloc, "b", Value::Int(1)),
        "number" => {
            let name = Boxed::new(alloc, Expr::Col(name(alloc, "name")?))?;
            Ok(Expr::Cast(name, Ty::Bigint))
        }
        "x_but_a" => null_for(alloc, "a", text(alloc, "x")?),
        _ => match literal(alloc, word)? {
            Some(value) => Ok(Expr::Lit(value)),
            None => Ok(Expr::Col(name(alloc, word)?)),
        },
    }
}

fn check(alloc: Global, words: &str) -> Result<Check, Fail> {
    let (word, condition) = words.split_once(':').ok_or("a check has a name")?;
    Ok(Check {
        name: name(alloc, word)?,
        expr: expr(alloc, condition)?,
    })
}

/// Whether this is one of the words.
fn has(words: &str, wanted: &str) -> bool {
    for word in words.split(' ') {
        if word == wanted {
            return true;
        }
    }
    false
}

/// What stands behind `front` in the first word that begins so.
fn behind<'a>(words: &'a str, front: &str) -> Option<&'a str> {
    for word in words.split(' ') {
        if let Some(rest) = word.strip_prefix(front) {
            return Some(rest);
        }
    }
    None
}

fn default(alloc: Global, words: &str) -> Result<Value, Fail> {
    match behind(words, "default=") {
        Some(word) => Ok(literal(alloc, word)?.ok_or("not a literal")?),
        None => Ok(Value::Null),
    }
}

fn checked(alloc: Global, words: &str) -> Result<Option<Check>, Fail> {
    match behind(words, "check=") {
        Some(words) => Ok(Some(check(alloc, words)?)),
        None => Ok(None),
    }
}

fn up(alloc: Global, words: &str) -> Result<Option<Expr>, Fail> {
    match behind(words, "up=") {
        Some(word) => Ok(Some(expr(alloc, word)?)),
        None => Ok(None),
    }
}

fn defined(alloc: Global, word: &str, words: &str) -> Result<ColumnDef, Fail> {
    let name = name(alloc, word)?;
    let default = default(alloc, words)?;
    let check = checked(alloc, words)?;
    let ty = if has(words, "text") {
        Ty::Text
    } else {
        Ty::Bigint
    };
    Ok(ColumnDef {
        name,
        ty,
        nullable: has(words, "null"),
        pk: has(words, "pk"),
        unique: has(words, "unique"),
        default,
        check,
    })
}

fn add_column(alloc: Global, table: &str, column: &str, words: &str) -> Result<Op, Fail> {
    let table = name(alloc, table)?;
    let column = defined(alloc, column, words)?;
    let up = up(alloc, words)?;
    Ok(Op::AddColumn { table, column, up })
}

/// `add_column`: table, column, `bigint` or `text`, and then `null`, `pk`, `unique`, `default=`, `check=NAME:` and `up=`
/// as there are.
fn added(alloc: Global, words: &str) -> Result<Op, Fail> {
    let (table, words) = words.split_once(' ').ok_or("no column")?;
    let (column, words) = words.split_once(' ').ok_or("no type")?;
    add_column(alloc, table, column, words)
}

fn expr_behind(alloc: Global, words: &str, front: &str) -> Result<Option<Expr>, Fail> {
    match behind(words, front) {
        Some(word) => Ok(Some(expr(alloc, word)?)),
        None => Ok(None),
    }
}

fn name_behind(alloc: Global, words: &str, front: &str) -> Result<Option<Name>, Fail> {
    match behind(words, front) {
        Some(word) => Ok(Some(name(alloc, word)?)),
        None => Ok(None),
    }
}

/// A word, and the words behind it.
fn parted(words: &str) -> (&str, &str) {
    words.split_once(' ').unwrap_or((words, ""))
}

/// `NAME:EXPRESSION` behind this, or nothing.
fn pairs_behind(alloc: Global, words: &str, front: &str) -> Result<List<(Name, Expr)>, Fail> {
    match behind(words, front) {
        Some(words) => {
            let (column, word) = words.split_once(':').ok_or("no column")?;
            Ok(one(alloc, (name(alloc, column)?, expr(alloc, word)?))?)
        }
        None => Ok(List::new(alloc)),
    }
}

/// One expression behind this, or `NAME:EXPRESSION` for one column.
fn ways_behind(alloc: Global, words: &str, front: &str) -> Result<Option<Ways>, Fail> {
    match behind(words, front) {
        Some(word) if word.contains(':') => {
            Ok(Some(Ways::Each(pairs_behind(alloc, words, front)?)))
        }
        Some(word) => Ok(Some(Ways::One(expr(alloc, word)?))),
        None => Ok(None),
    }
}

fn type_of(words: &str) -> Option<Ty> {
    if has(words, "text") {
        return Some(Ty::Text);
    }
    if has(words, "bigint") {
        Some(Ty::Bigint)
    } else {
        None
    }
}

fn nullable(words: &str) -> Option<bool> {
    if has(words, "null") {
        return Some(true);
    }
    if has(words, "not_null") {
        Some(false)
    } else {
        None
    }
}

/// `alter`: table, column, and then `bigint` or `text`, `null` or `not_null`, `default=`, `unique=`, `check=NAME:`, `up=`
/// and `down=` as there are.
fn altered(alloc: Global, words: &str) -> Result<Op, Fail> {
    let (table, words) = parted(words);
    let (column, words) = parted(words);
    let default = match behind(words, "default=") {
        Some(_) => Some(default(alloc, words)?),
        None => None,
    };
    Ok(Op::AlterColumn {
        table: name(alloc, table)?,
        column: name(alloc, column)?,
        ty: type_of(words),
        nullable: nullable(words),
        default,
        unique: name_behind(alloc, words, "unique=")?,
        check: checked(alloc, words)?,
        up: up(alloc, words)?,
        down: expr_behind(alloc, words, "down=")?,
    })
}

/// `constrain`: table, name, columns with commas between them, and then `expr=`, `up=COLUMN:` and `down=COLUMN:`.
fn constrained(alloc: Global, words: &str) -> Result<Op, Fail> {
    let (table, words) = parted(words);
    let (constraint, words) = parted(words);
    let (listed, words) = parted(words);
    let mut columns = List::new(alloc);
    for column in listed.split(',') {
        columns.push(name(alloc, column)?)?;
    }
    Ok(Op::CreateConstraint {
        table: name(alloc, table)?,
        name: name(alloc, constraint)?,
        columns,
        check: expr_behind(alloc, words, "expr=")?,
        up: pairs_behind(alloc, words, "up=")?,
        down: pairs_behind(alloc, words, "down=")?,
    })
}

/// `free`: table, name, and then `up=` and `down=`.
fn freed(alloc: Global, words: &str) -> Result<Op, Fail> {
    let (table, words) = parted(words);
    let (constraint, words) = parted(words);
    Ok(Op::DropConstraint {
        table: name(alloc, table)?,
        name: name(alloc, constraint)?,
        up: ways_behind(alloc, words, "up=")?,
        down: ways_behind(alloc, words, "down=")?,
    })
}

/// `create`: a name, and then columns as `add_column` has them, with ` | ` between them.
fn created(alloc: Global, words: &str) -> Result<Op, Fail> {
    let (table, words) = parted(words);
    let mut columns = List::new(alloc);
    for words in words.split(" | ") {
        let (column, words) = parted(words);
        columns.push(defined(alloc, column, words)?)?;
    }
    Ok(Op::CreateTable {
        name: name(alloc, table)?,
        columns,
    })
}

fn dropped(alloc: Global, words: &str) -> Result<Op, Fail> {
    let (table, words) = parted(words);
    if words.is_empty() {
        return Ok(Op::DropTable {
            name: name(alloc, table)?,
        });
    }
    let (column, words) = parted(words);
    Ok(Op::DropColumn {
        table: name(alloc, table)?,
        column: name(alloc, column)?,
        down: expr_behind(alloc, words, "down=")?,
    })
}

fn renamed(alloc: Global, words: &str) -> Result<Op, Fail> {
    let (first, words) = parted(words);
    let (second, third) = parted(words);
    if third.is_empty() {
        return Ok(Op::RenameTable {
            from: name(alloc, first)?,
            to: name(alloc, second)?,
        });
    }
    Ok(Op::RenameColumn {
        table: name(alloc, first)?,
        from: name(alloc, second)?,
        to: name(alloc, third)?,
    })
}

fn operation(alloc: Global, words: &str) -> Result<Op, Fail> {
    let (kind, rest) = parted(words);
    match kind {
        "create" => created(alloc, rest),
        "drop" => dropped(alloc, rest),
        "rename" => renamed(alloc, rest),
        "alter" => altered(alloc, rest),
        "constrain" => constrained(alloc, rest),
        "free" => freed(alloc, rest),
        _ => added(alloc, words),
    }
}

fn operations(alloc: Global, words: &str) -> Result<List<Op>, Fail> {
    let mut all = List::new(alloc);
    for words in words.split("; ") {
        all.push(operation(alloc, words)?)?;
    }
    Ok(all)
}

/// Operations, with `; ` between them: `create`, `drop` and `rename` of a table or a column, `alter`, `constrain`, `free`,
/// and without such a word `add_column`.
pub fn migration(alloc: Global, words: &str) -> Result<Migration, Fail> {
    let name = name(alloc, "02")?;
    let operations = operations(alloc, words)?;
    Ok(Migration { name, operations })
}
