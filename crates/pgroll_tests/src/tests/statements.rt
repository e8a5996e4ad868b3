// Statements of a test, what they have to come to, and whether a reply is that.
use machine::{Asked, Reply};
use mig_lens::{ColumnDef, Kind, Migration, Op, Refusal};
use roll_core::{Cmd, Core};
use sql_base::{Code, Expr, Items, List, Name, NoMemory, SqlText, Stmt, Ty, Value};
use sql_parse::{ParseFault, parse_stmt};
use sqlite_items::Boxed;
use std::alloc::Global;

pub const VERSION: &str = "public_01_users";

/// What is said to the engine.
#[derive(Clone, Copy)]
pub enum Said {
    /// A line, through a path of versions.
    Line(&'static [&'static str], &'static str),
    /// A SELECT of these columns of the table `users`.
    Columns(&'static [&'static str]),
    /// A SELECT of the key and of the name as a number.
    Numbers,
    /// SET of a path of these versions.
    Path(&'static [&'static str]),
    /// An INSERT into a table, with these names of columns, of the row with the key 7 and a text of so many bytes.
    Row(&'static str, &'static [&'static str], usize),
    /// The start of the migration `02`, which adds a text column `n` made of the name.
    Start,
    /// The same, with the column's values NULL.
    Constant,
    /// A batch of at most two rows.
    Batch,
    /// A step of completing.
    Complete,
    /// A step of rolling back.
    RollBack,
}

/// What it has to come to.
#[derive(Clone, Copy)]
pub enum Wanted {
    /// One row is written.
    Written,
    /// So many rows are written.
    Inserted(u32),
    /// So many rows are updated.
    Updated(u32),
    /// So many rows are deleted.
    Deleted(u32),
    /// The path is set.
    Set,
    /// These rows are shown.
    Shown(&'static [(i64, &'static str)]),
    /// It is refused, with this code, about this, at the row of this key.
    Refused(Code, Option<&'static str>, Option<i64>),
    /// Memory is wanting.
    NoMemory,
    /// The migration is started.
    Started,
    /// So many rows are filled; where it is none, none was left.
    Filled(u32),
    /// This step of completing is done.
    Completed(u8),
    /// This step of rolling back is done.
    RolledBack(u8),
    /// It is refused, since steps of this kind are left.
    Unfinished(Kind),
    /// It isn't completed, since a row is still to be filled: that of the key 1.
    NotFilled,
    /// No migration is active.
    Inactive,
}

/// How a NULL is written here in place of a text.
pub const NULL: &str = "\\N";

/// A path of these versions, or another list of names.
pub fn names_of(alloc: Global, words: &[&str]) -> Result<Vec<Name>, NoMemory> {
    let mut names = Vec::new(alloc);
    for word in words {
        names.push(Name::from_slice(alloc, word.as_bytes())?)?;
    }
    Ok(names)
}

/// The longest line here, in bytes.
const LONGEST: usize = 4_096;

// The statement that a line reads as, or nothing where it reads as none.
fn statement_of(alloc: Global, line: &str) -> Result<Option<Stmt>, NoMemory> {
    if line.len() > LONGEST {
        return Ok(None);
    }
    match parse_stmt(alloc, line.as_bytes()) {
        Ok(stmt) => Ok(Some(stmt)),
        Err(ParseFault::NoMemory) => Err(NoMemory),
        Err(_) => Ok(None),
    }
}

// The reply to a statement, through a path of versions.
fn reply_through(
    alloc: Global,
    core: &mut Core,
    path: &[&str],
    stmt: &Stmt,
) -> Result<Option<Reply>, NoMemory> {
    let path = names_of(alloc, path)?;
    Ok(Some(core.statement(&path, stmt)))
}

// The reply to a line, or nothing where it reads as no statement.
fn line(
    alloc: Global,
    core: &mut Core,
    path: &[&str],
    line: &str,
) -> Result<Option<Reply>, NoMemory> {
    match &statement_of(alloc, line)? {
        Some(stmt) => reply_through(alloc, core, path, stmt),
        None => Ok(None),
    }
}

// A text of so many bytes.
fn text(alloc: Global, length: usize) -> Result<Value, NoMemory> {
    match SqlText::read(alloc, &vec![in alloc; b'x'; length]?)? {
        Some(text) => Ok(Value::Text(text)),
        None => Ok(Value::Null),
    }
}

// The values of a row, as they are written.
fn values(alloc: Global, length: usize) -> Result<List<Expr>, NoMemory> {
    let text = text(alloc, length)?;
    let mut values = List::new(alloc);
    values.push(Expr::Lit(Value::Int(7)))?;
    values.push(Expr::Lit(text))?;
    Ok(values)
}

fn insert(alloc: Global, table: &str, columns: &[&str], length: usize) -> Result<Stmt, NoMemory> {
    let table = Name::from_slice(alloc, table.as_bytes())?;
    let columns = List::from_vec(names_of(alloc, columns)?);
    let mut rows = List::new(alloc);
    rows.push(values(alloc, length)?)?;
    Ok(Stmt::Insert(table, columns, rows))
}

// The reply to an INSERT of a row.
fn row(
    alloc: Global,
    core: &mut Core,
    table: &str,
    columns: &[&str],
    length: usize,
) -> Result<Option<Reply>, NoMemory> {
    let stmt = insert(alloc, table, columns, length)?;
    reply_through(alloc, core, &[VERSION], &stmt)
}

// The reply to a SELECT of these items.
fn query(alloc: Global, core: &mut Core, items: List<Expr>) -> Result<Option<Reply>, NoMemory> {
    let table = Name::from_slice(alloc, b"users")?;
    let stmt = Stmt::Query(table, Items::Listed(items), None);
    reply_through(alloc, core, &[VERSION], &stmt)
}

fn column(alloc: Global, name: &str) -> Result<Expr, NoMemory> {
    Ok(Expr::Col(Name::from_slice(alloc, name.as_bytes())?))
}

fn columns(alloc: Global, core: &mut Core, names: &[&str]) -> Result<Option<Reply>, NoMemory> {
    let mut items = List::new(alloc);
    for name in names {
        items.push(column(alloc, *name)?)?;
    }
    query(alloc, core, items)
}

fn numbers(alloc: Global, core: &mut Core) -> Result<Option<Reply>, NoMemory> {
    let mut items = List::new(alloc);
    items.push(column(alloc, "id")?)?;
    items.push(Expr::Cast(Boxed::new(alloc, column(alloc, "name")?)?, Ty::Bigint))?;
    query(alloc, core, items)
}

fn set_path(alloc: Global, core: &mut Core, words: &[&str]) -> Result<Option<Reply>, NoMemory> {
    let stmt = Stmt::SetPath(List::from_vec(names_of(alloc, words)?));
    reply_through(alloc, core, &[VERSION], &stmt)
}

fn added(alloc: Global, up: Option<Expr>) -> Result<Migration, NoMemory> {
    let column = ColumnDef {
        name: Name::from_slice(alloc, b"n")?,
        ty: Ty::Text,
        nullable: true,
        pk: false,
        unique: false,
        default: Value::Null,
        check: None,
    };
    let mut operations = List::new(alloc);
    operations.push(Op::AddColumn {
        table: Name::from_slice(alloc, b"users")?,
        column,
        up,
    })?;
    Ok(Migration {
        name: Name::from_slice(alloc, b"02")?,
        operations,
    })
}

fn start(alloc: Global, core: &mut Core, up: Option<Expr>) -> Result<Option<Reply>, NoMemory> {
    let asked = Asked::Read(added(alloc, up)?);
    Ok(Some(core.ddl(&Cmd::Start(asked))?))
}

/// The reply to what is said, or nothing where it reads as no statement.
pub fn reply_to(alloc: Global, core: &mut Core, said: Said) -> Result<Option<Reply>, NoMemory> {
    match said {
        Said::Line(path, text) => line(alloc, core, path, text),
        Said::Columns(names) => columns(alloc, core, names),
        Said::Numbers => numbers(alloc, core),
        Said::Path(words) => set_path(alloc, core, words),
        Said::Row(table, columns, length) => row(alloc, core, table, columns, length),
        Said::Start => start(alloc, core, Some(column(alloc, "name")?)),
        Said::Constant => start(alloc, core, None),
        Said::Batch => Ok(Some(core.batch(2))),
        Said::Complete => Ok(Some(core.ddl(&Cmd::Complete)?)),
        Said::RollBack => Ok(Some(core.ddl(&Cmd::Rollback)?)),
    }
}

fn is_about(name: &Option<Name>, about: Option<&str>) -> bool {
    match (name, about) {
        (Some(name), Some(about)) => name.as_slice() == about.as_bytes(),
        (None, None) => true,
        _ => false,
    }
}

fn is_row(row: &[Value], wanted: (i64, &str)) -> bool {
    match row {
        [Value::Int(key), Value::Text(text)] => *key == wanted.0 && text.as_str() == wanted.1,
        [Value::Int(key), Value::Null] => *key == wanted.0 && wanted.1 == NULL,
        _ => false,
    }
}

fn are_rows(rows: &[List<Value>], wanted: &[(i64, &str)]) -> bool {
    if rows.len() != wanted.len() {
        return false;
    }
    for (at, row) in rows.iter().enumerate() {
        if !is_row(row.as_slice(), wanted[at]) {
            return false;
        }
    }
    true
}

fn is_kind(kind: Kind, wanted: Kind) -> bool {
    matches!(
        (kind, wanted),
        (Kind::Nothing, Kind::Nothing)
            | (Kind::Complete, Kind::Complete)
            | (Kind::Rollback, Kind::Rollback)
    )
}

/// Whether a reply is what is wanted.
pub fn is_wanted(reply: &Reply, wanted: Wanted) -> bool {
    match (reply, wanted) {
        (Reply::Insert(count), Wanted::Written) => *count == 1,
        (Reply::Insert(count), Wanted::Inserted(wanted)) => *count == wanted,
        (Reply::Update(count), Wanted::Updated(wanted)) => *count == wanted,
        (Reply::Delete(count), Wanted::Deleted(wanted)) => *count == wanted,
        (Reply::Set, Wanted::Set) => true,
        (Reply::Select(rows), Wanted::Shown(wanted)) => are_rows(rows.as_slice(), wanted),
        (Reply::Error { code, name, key }, Wanted::Refused(wanted, about, at)) => {
            *code == wanted && is_about(name, about) && *key == at
        }
        (Reply::Start(name), Wanted::Started) => name.as_slice() == b"02".as_slice(),
        (Reply::Fill { count, .. }, Wanted::Filled(wanted)) => *count == wanted,
        (Reply::Filled, Wanted::Filled(wanted)) => wanted == 0,
        (Reply::Complete(step), Wanted::Completed(wanted)) => *step == wanted,
        (Reply::Rollback(step), Wanted::RolledBack(wanted)) => *step == wanted,
        (Reply::Refused(Refusal::Unfinished(kind)), Wanted::Unfinished(wanted)) => {
            is_kind(*kind, wanted)
        }
        (Reply::Refused(Refusal::NoActive), Wanted::Inactive) => true,
        (Reply::Refused(Refusal::NotFilled(table, key)), Wanted::NotFilled) => {
            table.as_slice() == b"users".as_slice() && *key == 1
        }
        (Reply::Error { code, name, key }, Wanted::NoMemory) => {
            *code == Code::C53200 && name.is_none() && key.is_none()
        }
        _ => false,
    }
}

/// Whether there is a reply, and it is what is wanted.
pub fn comes_to(reply: &Option<Reply>, wanted: Wanted) -> bool {
    match reply {
        Some(reply) => is_wanted(reply, wanted),
        None => false,
    }
}

/// Whether there is a reply to what is said, and it is what is wanted.
pub fn is_replied(
    alloc: Global,
    core: &mut Core,
    said: Said,
    wanted: Wanted,
) -> Result<bool, NoMemory> {
    let reply = reply_to(alloc, core, said)?;
    Ok(comes_to(&reply, wanted))
}
