//! What the machine answers, beside the replies to commands.
ghost use Rattle.std.specs.Prelude.{◌≡◌, IfOk, Some, length};
ghost use Rattle.std.specs.Int.{int_max, int_min};
ghost use Rattle.sql_eval.specs.Row.{least};
ghost use Rattle.row_rules.specs.Causes as causes;
ghost use Rattle.row_rules.specs.Changes.{key_changed, keys_changed};
ghost use Rattle.row_rules.specs.Rows.{greatest};
ghost use Rattle.row_rules.specs.Site as sites;
ghost use Rattle.machine.specs.Statement as spec;
ghost use Rattle.machine.specs.Step as step;

use crate::events::Reply;
use row_rules::causes::row_error;
use row_rules::{Cause, Change, Job, SiteRef, SqlError};
use sql_base::{Code, Copying, Name, NoMemory};
use std::alloc::Global;

// ---- refusals

// A refusal that names nothing.
fn bare(code: Code) -> Reply
    ensures { result ≡ Reply.Error code None None }
{
    Reply::Error {
        code,
        name: None,
        key: None,
    }
}

// A refusal that names something.
fn naming(alloc: Global, code: Code, name: &[u8]) -> Result<Reply, NoMemory>
    ensures { IfOk result (λ reply. reply ≡ Reply.Error code (Some name.now) None) }
{
    Ok(Reply::Error {
        code,
        name: Some(Name::from_slice(alloc, name)?),
        key: None,
    })
}

/// A statement is refused for this error.
pub fn error_reply(error: SqlError) -> Reply
    ensures { result ≡ spec.error_reply error }
{
    Reply::Error {
        code: error.code,
        name: error.name,
        key: error.key,
    }
}

/// A statement is refused for this cause, which was found in a row.
pub fn row_reply(cause: Cause) -> Reply
    ensures { result ≡ spec.error_reply (causes.row_error cause) }
{
    error_reply(row_error(cause))
}

/// The line reads as no statement.
pub fn syntax() -> Reply
    ensures { result ≡ spec.syntax }
{
    bare(Code::C42601)
}

/// An integer literal is wider than 64 bits.
pub fn wide_literal() -> Reply
    ensures { result ≡ step.wide_literal }
{
    bare(Code::C22003)
}

/// Memory is wanting.
pub fn no_memory() -> Reply
    ensures { result ≡ spec.no_memory }
{
    bare(Code::C53200)
}

/// The limit of this name is passed.
pub fn over_limit(alloc: Global, name: &[u8]) -> Result<Reply, NoMemory>
    ensures { IfOk result (λ reply. reply ≡ spec.over_limit name.now) }
{
    naming(alloc, Code::C54000, name)
}

/// The path finds no table of this name.
pub fn no_table(alloc: Global, table: &Name) -> Result<Reply, NoMemory>
    ensures { IfOk result (λ reply. reply ≡ spec.no_table table.now) }
{
    naming(alloc, Code::C42P01, table.as_slice())
}

/// There would be more rows than there may be.
pub fn too_many_rows(alloc: Global) -> Result<Reply, NoMemory>
    ensures { IfOk result (λ reply. reply ≡ spec.too_many_rows) }
{
    over_limit(alloc, b"rows")
}

// ---- rows that were written

fn key_changed(change: &Change) -> i64
    ensures { result ≡ key_changed change.now }
{
    match change {
        Change::Put(row) => row.key,
        Change::Remove(key) => *key,
    }
}

// The lesser of a key and of another one, where there is another one.
fn lesser(key: i64, other: Option<i64>) -> i64
    ensures { result ≡ elim other [ None ↦ key | Some l ↦ int_min key l ] }
{
    match other {
        Some(other) => key.min(other),
        None => key,
    }
}

fn greater(key: i64, other: Option<i64>) -> i64
    ensures { result ≡ elim other [ None ↦ key | Some l ↦ int_max key l ] }
{
    match other {
        Some(other) => key.max(other),
        None => key,
    }
}

fn least_changed(changes: &[Change]) -> Option<i64>
    ensures { result ≡ least (keys_changed changes.now) }
{
    let mut least = None;
    let mut at = changes.len();
    while at > 0 {
        at -= 1;
        least = Some(lesser(key_changed(&changes[at]), least));
    }
    least
}

fn greatest_changed(changes: &[Change]) -> Option<i64>
    ensures { result ≡ greatest (keys_changed changes.now) }
{
    let mut greatest = None;
    let mut at = changes.len();
    while at > 0 {
        at -= 1;
        greatest = Some(greater(key_changed(&changes[at]), greatest));
    }
    greatest
}

// The same, of so many changes.
fn counted_reply(
    alloc: Global,
    site: SiteRef<'_>,
    job: &Job,
    changes: &[Change],
    count: u32,
) -> Result<Reply, NoMemory>
    requires { count ≡ length changes.now }
    ensures { IfOk result (λ reply. reply ≡ spec.written_reply (sites.site_of site.entry) job.now changes.now) }
{
    match job {
        Job::Put(_) => Ok(Reply::Insert(count)),
        Job::Alter(_, _) => Ok(Reply::Update(count)),
        Job::Remove(_) => Ok(Reply::Delete(count)),
        Job::Fill => Ok(Reply::Fill {
            table: site.here.0.copy(alloc)?,
            count,
            first: least_changed(changes).unwrap_or(0),
            last: greatest_changed(changes).unwrap_or(0),
        }),
    }
}

/// The reply to a job that made these changes to the rows of a site. It has a number of 32 bits: more changes than that
/// are answered as want of memory.
pub fn written_reply(
    alloc: Global,
    site: SiteRef<'_>,
    job: &Job,
    changes: &[Change],
) -> Result<Reply, NoMemory>
    ensures { IfOk result (λ reply. reply ≡ spec.written_reply (sites.site_of site.entry) job.now changes.now) }
{
    match u32::try_from(changes.len()) {
        Ok(count) => counted_reply(alloc, site, job, changes, count),
        Err(_) => Err(NoMemory),
    }
}
