//! Rows that a statement or a batch writes.
ghost use Rattle.std.specs.Prelude.{◌≡◌, ◌≤◌, ◌<◌, ◌^◌, ◌-◌, None, Ok, Err, Some, IfOk, OnErr, OnOk, length, map, min, slice_get};
ghost use Rattle.row_rules.specs.InReach.{ShowKeys};
ghost use Rattle.row_rules.specs.Outcome.{Answers};
ghost use Rattle.row_rules.specs.Site as sites;
ghost use Rattle.std.specs.List.{AllByRecursion};
ghost use Rattle.machine.specs.Sites.{JobStands};
ghost use Rattle.machine.specs.Statement as statement;
ghost use Rattle.roll_core.specs.Changing as changing;
ghost use Rattle.roll_core.specs.Running as spec;
ghost use Rattle.roll_core.specs.Seen.{row_count, seen};
ghost use Rattle.roll_core.specs.Store.{rows_meant};

use crate::changing::put_changes;
use crate::laws::laws_below;
use crate::reach::changes_reached;
use crate::statement::place_of;
use crate::store::StoredTable;
use machine::parts::{MAX_ROWS, error_reply, row_reply, too_many_rows, written_reply};
use machine::{Reply, State};
use row_rules::{Change, Job, SiteRef, Stop, refused_together};
use sql_base::{List, NoMemory};
use std::alloc::Global;

// The number of rows in all tables, or the largest number where they are more.
fn row_count(tables: &[StoredTable]) -> u64
    ensures { result ≡ min (row_count tables.now) (2 ^ 64 - 1) }
{
    let mut count: u64 = 0;
    for table in tables {
        count = count.saturating_add(table.rows.len() as u64);
    }
    count
}

// Whether there would be more rows than there may be, where there are so many.
fn too_many(count: u64, job: &Job, changes: &[Change]) -> bool
    requires { count ≤ 262144 }
    ensures { result ≡ spec.too_many count job.now changes.now }
{
    match job {
        Job::Put(_) => changes.len() as u64 > MAX_ROWS - count,
        Job::Alter(_, _) | Job::Remove(_) | Job::Fill => false,
    }
}

// Why the changes that a statement makes to a table aren't accepted together, where there are so many rows in all.
fn refused_all(
    alloc: Global,
    table: &StoredTable,
    count: u64,
    site: SiteRef<'_>,
    job: &Job,
    changes: &[Change],
) -> Result<Option<Reply>, NoMemory>
    requires { count ≤ 262144 }
    ensures { IfOk result (λ reply. reply ≡ spec.refused_all (seen table.now) count (sites.site_of site.entry) job.now changes.now) }
{
    if let Some(error) = refused_together(alloc, site, job, table, changes)? {
        return Ok(Some(error_reply(error)));
    }
    if too_many(count, job, changes) {
        return Ok(Some(too_many_rows(alloc)?));
    }
    Ok(None)
}

/// Puts the changes of a job into the table at a place, and tells of them. An error is want of memory, and then the tables
/// are as they were.
pub fn put_at(
    alloc: Global,
    tables: &mut [StoredTable],
    at: usize,
    site: SiteRef<'_>,
    job: &Job,
    changes: &[Change],
) -> Result<Reply, NoMemory>
    requires { at < length tables.old }
    ensures reply { IfOk result (λ reply. reply ≡ statement.written_reply (sites.site_of site.entry) job.now changes.now) }
    ensures ok { OnOk result (Some (map seen tables.new) ≡ changing.with_changes at changes.now tables.old) }
    ensures err { OnErr result (map seen tables.new ≡ map seen tables.old) }
{
    let reply = written_reply(alloc, site, job, changes)?;
    let table = &mut tables[at];
    put_changes(alloc, table, changes)?;
    Ok(reply)
}

// What a statement changes in a table, or why it is refused, where there are so many rows in all.
fn accepted_changes(
    alloc: Global,
    table: &StoredTable,
    count: u64,
    site: SiteRef<'_>,
    job: &Job,
) -> Result<List<Change>, Stop<Reply>>
    requires few { count ≤ 262144 }
    requires shows { ShowKeys (sites.site_of site) (rows_meant (seen table.now)) }
    ensures { Answers (spec.accepted (seen table.now) count (sites.site_of site.entry) job.now) result }
{
    let made = match changes_reached(alloc, table, site, job) {
        Ok(made) => made,
        Err(Stop::Because(cause)) => return Err(Stop::Because(row_reply(cause))),
        Err(Stop::NoMemory) => return Err(Stop::NoMemory),
    };
    match refused_all(alloc, table, count, site, job, made.as_slice())? {
        Some(reply) => Err(Stop::Because(reply)),
        None => Ok(made),
    }
}

/// Writes: what a statement's job does to the rows of the table of a site.
pub fn written(
    alloc: Global,
    frame: &State,
    tables: &mut [StoredTable],
    site: SiteRef<'_>,
    job: &Job,
) -> Result<Reply, Stop<Reply>>
    requires runs { spec.Runs frame.now (map seen tables.old) }
    requires there { spec.IsSite frame.now (sites.site_of site) }
    requires job { JobStands (sites.shape_of site.here.now) job.now }
    requires statement { spec.IsStatement job.now }
    ensures answers { spec.Comes frame.now (map seen tables.old) (statement.written (spec.meant frame.now (map seen tables.old)) (sites.site_of site.entry) job.now) result (map seen tables.new) }
    ensures forms { spec.SameForms (map seen tables.old) (map seen tables.new) }
    ensures stored { AllByRecursion spec.RowsStored (map seen tables.new) }
{
    laws_below();
    let at = place_of(tables, site.here.1);
    let count = row_count(tables);
    let made = accepted_changes(alloc, &tables[at], count, site, job)?;
    Ok(put_at(alloc, tables, at, site, job, made.as_slice())?)
}
