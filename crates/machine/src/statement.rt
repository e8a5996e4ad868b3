//! The begin of a statement: its table, its names and types, and an INSERT's values.
ghost use Rattle.std.specs.Prelude.{◌≡◌};
ghost use Rattle.std.specs.Option.{ok_or};
ghost use Rattle.machine.specs.Plain as plain;
ghost use Rattle.machine.specs.Plain.{AnswersAs};
ghost use Rattle.machine.specs.State as state;
ghost use Rattle.machine.specs.Statement as spec;

use crate::events::Reply;
use crate::replies::{error_reply, no_table, over_limit};
use crate::states::State;
use crate::tables::{FoundTable, site_of, table_of};
use row_rules::{Job, SiteRef, Stop, delete_job, insert_job, query_error, update_job};
use sql_base::{Expr, Items, List, Name, Stmt};
use std::alloc::Global;

/// The most rows of one INSERT.
pub const MAX_INSERT: usize = 100;

/// What a statement is once its begin is over.
#[derive(Drop)]
pub enum BegunRef<'a> {
    /// This job on the rows of this site.
    Writes(SiteRef<'a>, Job),
    /// A question about the rows of this site: its items and its WHERE.
    Shows(SiteRef<'a>, &'a Items, &'a Option<Expr>),
    /// The path is set.
    Sets,
}

// The table of a name through a path, or the refusal.
fn found_table<'a>(
    alloc: Global,
    s: &'a State,
    path: &[Name],
    name: &Name,
) -> Result<FoundTable<'a>, Stop<Reply>>
    ensures { AnswersAs plain.found (ok_or (state.table_of s.now path.now name.now) (spec.no_table name.now)) result }
{
    match table_of(s, path, name) {
        Some(found) => Ok(found),
        None => Err(Stop::Because(no_table(alloc, name)?)),
    }
}

fn begun_insert<'a>(
    alloc: Global,
    s: &'a State,
    path: &[Name],
    name: &Name,
    names: &[Name],
    rows: &[List<Expr>],
) -> Result<BegunRef<'a>, Stop<Reply>>
    ensures { AnswersAs plain.begun (spec.begun s.now path.now (Stmt.Insert name.now names.now rows.now)) result }
{
    if rows.len() > MAX_INSERT {
        return Err(Stop::Because(over_limit(alloc, b"insert")?));
    }
    let found = found_table(alloc, s, path, name)?;
    match insert_job(alloc, found.table, names, rows) {
        Ok(job) => Ok(BegunRef::Writes(site_of(s, found), job)),
        Err(Stop::Because(error)) => Err(Stop::Because(error_reply(error))),
        Err(Stop::NoMemory) => Err(Stop::NoMemory),
    }
}

fn begun_update<'a>(
    alloc: Global,
    s: &'a State,
    path: &[Name],
    name: &Name,
    sets: &[(Name, Expr)],
    condition: &Option<Expr>,
) -> Result<BegunRef<'a>, Stop<Reply>>
    ensures { AnswersAs plain.begun (spec.begun s.now path.now (Stmt.Update name.now sets.now condition.now)) result }
{
    let found = found_table(alloc, s, path, name)?;
    match update_job(alloc, &found.table.2, sets, condition) {
        Ok(job) => Ok(BegunRef::Writes(site_of(s, found), job)),
        Err(Stop::Because(error)) => Err(Stop::Because(error_reply(error))),
        Err(Stop::NoMemory) => Err(Stop::NoMemory),
    }
}

fn begun_delete<'a>(
    alloc: Global,
    s: &'a State,
    path: &[Name],
    name: &Name,
    condition: &Option<Expr>,
) -> Result<BegunRef<'a>, Stop<Reply>>
    ensures { AnswersAs plain.begun (spec.begun s.now path.now (Stmt.Delete name.now condition.now)) result }
{
    let found = found_table(alloc, s, path, name)?;
    match delete_job(alloc, &found.table.2, condition) {
        Ok(job) => Ok(BegunRef::Writes(site_of(s, found), job)),
        Err(Stop::Because(error)) => Err(Stop::Because(error_reply(error))),
        Err(Stop::NoMemory) => Err(Stop::NoMemory),
    }
}

fn begun_query<'a>(
    alloc: Global,
    s: &'a State,
    path: &[Name],
    name: &Name,
    items: &'a Items,
    condition: &'a Option<Expr>,
) -> Result<BegunRef<'a>, Stop<Reply>>
    ensures { AnswersAs plain.begun (spec.begun s.now path.now (Stmt.Query name.now items.now condition.now)) result }
{
    let found = found_table(alloc, s, path, name)?;
    match query_error(alloc, &found.table.2, items, condition)? {
        Some(error) => Err(Stop::Because(error_reply(error))),
        None => Ok(BegunRef::Shows(site_of(s, found), items, condition)),
    }
}

/// The begin of a statement that is said through a path. Its table is that of the first version of the path that stands
/// and has one of the name (42P01: none does), but an INSERT of more than 100 rows is 54000 before that. What comes
/// next is of `row_rules`: `insert_job`, `update_job`, `delete_job`, `query_error`.
pub fn begun<'a>(
    alloc: Global,
    s: &'a State,
    path: &[Name],
    stmt: &'a Stmt,
) -> Result<BegunRef<'a>, Stop<Reply>>
    ensures { AnswersAs plain.begun (spec.begun s.now path.now stmt.now) result }
{
    match stmt {
        Stmt::Insert(name, names, rows) => {
            begun_insert(alloc, s, path, name, names.as_slice(), rows.as_slice())
        }
        Stmt::Update(name, sets, condition) => {
            begun_update(alloc, s, path, name, sets.as_slice(), condition)
        }
        Stmt::Delete(name, condition) => begun_delete(alloc, s, path, name, condition),
        Stmt::Query(name, items, condition) => {
            begun_query(alloc, s, path, name, items, condition)
        }
        Stmt::SetPath(_) => Ok(BegunRef::Sets),
    }
}
