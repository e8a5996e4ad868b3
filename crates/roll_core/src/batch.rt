//! Batches of rows that are filled.
ghost use Rattle.std.specs.Prelude.{◌≡◌, ◌<◌, Some, false, length, map};
ghost use Rattle.std.specs.List.{AllByRecursion};
ghost use Rattle.machine.specs.Done.{as_outcome};
ghost use Rattle.machine.specs.Follows.{goes_on_filling};
ghost use Rattle.machine.specs.Migrate as migrate;
ghost use Rattle.row_rules.specs.Changes.{changes};
ghost use Rattle.row_rules.specs.Outcome.{Answers, map_fault};
ghost use Rattle.row_rules.specs.Site as sites;
ghost use Rattle.row_rules.specs.declared.kinds.Job.TheVariants as jobs;
ghost use Rattle.roll_core.specs.Batch as batch;
ghost use Rattle.roll_core.specs.Running as spec;
ghost use Rattle.roll_core.specs.Seen.{seen};
ghost use Rattle.roll_core.specs.Store.{rows_meant};

use crate::forms::Form;
use crate::laws::laws_below;
use crate::store::StoredTable;
use crate::writing::put_at;
use machine::parts::{filling_site, may_not_fill, refused_batch, shared};
use machine::{Reply, State};
use mig_lens::Refusal;
use row_rules::{
    Change, Job, Kept, SiteRef, Stop, any_missing, cause_together, changes, missing_rows,
};
use sql_base::List;
use std::alloc::Global;

// Whether a row of the table is still to be filled. One version alone has nothing to fill.
fn is_unfilled(table: &StoredTable) -> bool
    ensures { result ≡ batch.is_unfilled (seen table.now) }
{
    match &table.form {
        Form::Paired(_) => any_missing(table),
        Form::Own(_) | Form::Left(_) | Form::Trimmed(_) | Form::Returned(_) => false,
    }
}

// The place of the first table with a row that is still to be filled.
fn unfilled_at(tables: &[StoredTable]) -> Option<usize>
    ensures { batch.FirstUnfilled (map seen tables.now) result }
{
    for (at, table) in tables.iter().enumerate() {
        if is_unfilled(table) {
            return Some(at);
        }
    }
    None
}

// What is done to these rows, each made and looked at before the next one, or why it isn't (P19).
fn changes_or_refusal(
    alloc: Global,
    site: SiteRef<'_>,
    job: &Job,
    rows: &[Kept],
) -> Result<List<Change>, Stop<Refusal>>
    ensures { Answers (map_fault (migrate.refused_batch (sites.name_of (sites.site_of site.entry).here)) (changes (sites.site_of site.entry) job.now rows.now)) result }
{
    match changes(alloc, site, job, &rows) {
        Ok(all) => Ok(all),
        Err(Stop::Because(cause)) => {
            Err(Stop::Because(refused_batch(alloc, &site.here.0, &cause)?))
        }
        Err(Stop::NoMemory) => Err(Stop::NoMemory),
    }
}

// What is done to the first so many rows of a table that are still to be filled, where it is accepted.
fn batch_changes(
    alloc: Global,
    site: SiteRef<'_>,
    job: &Job,
    table: &StoredTable,
    n: u32,
) -> Result<List<Change>, Stop<Refusal>>
    ensures { Answers (batch.batch_changes (sites.site_of site.entry) job.now (rows_meant (seen table.now)) n) result }
{
    let rows = missing_rows(alloc, table, n)?;
    let all = changes_or_refusal(alloc, site, job, rows.as_slice())?;
    if let Some(cause) = cause_together(alloc, site, job, table, all.as_slice())? {
        return Err(Stop::Because(refused_batch(alloc, &site.here.0, &cause)?));
    }
    Ok(all)
}

// The first so many rows that are still to be filled of the table at a place are filled through this site.
fn fill_through(
    alloc: Global,
    tables: &mut [StoredTable],
    at: usize,
    site: SiteRef<'_>,
    job: &Job,
    n: u32,
) -> Result<Reply, Stop<Reply>>
    requires within { at < length tables.old }
    ensures { batch.FillsThrough (sites.site_of site.entry) job.now at n tables.old result (map seen tables.new) }
{
    let all = match batch_changes(alloc, site, job, &tables[at], n) {
        Ok(all) => all,
        Err(Stop::Because(refusal)) => return Err(Stop::Because(Reply::Refused(refusal))),
        Err(Stop::NoMemory) => return Err(Stop::NoMemory),
    };
    Ok(put_at(alloc, tables, at, site, job, all.as_slice())?)
}

// The first so many rows that are still to be filled of the table at a place are filled, where both versions have it.
fn fill_at(
    alloc: Global,
    frame: &State,
    tables: &mut [StoredTable],
    at: usize,
    job: &Job,
    n: u32,
) -> Result<Reply, Stop<Reply>>
    requires runs { spec.Runs frame.now (map seen tables.old) }
    requires within { at < length tables.old }
    requires job { job.now ≡ jobs.Fill }
    ensures { batch.Fills frame.now (map seen tables.old) (batch.batch_at frame.now (map seen tables.old) (Some at) n) result (map seen tables.new) }
{
    laws_below();
    let table = &tables[at];
    let Some(pair) = shared(frame, table.number) else {
        return Ok(Reply::Filled);
    };
    fill_through(alloc, tables, at, filling_site(frame, pair), job, n)
}

// The same, of the table at a place, if there is one.
fn fill_first(
    alloc: Global,
    frame: &State,
    tables: &mut [StoredTable],
    first: Option<usize>,
    n: u32,
) -> Result<Reply, Stop<Reply>>
    requires runs { spec.Runs frame.now (map seen tables.old) }
    requires first { batch.FirstUnfilled (map seen tables.old) first }
    ensures { batch.Fills frame.now (map seen tables.old) (batch.batch_at frame.now (map seen tables.old) first n) result (map seen tables.new) }
{
    match first {
        Some(at) => fill_at(alloc, frame, tables, at, &Job::Fill, n),
        None => Ok(Reply::Filled),
    }
}

/// What a batch of at most so many rows comes to, which takes the least keys that are still to be filled of the first table
/// that has any. Where it fills none the tables are as they were.
pub fn least_fill(
    alloc: Global,
    frame: &State,
    tables: &mut [StoredTable],
    n: u32,
) -> Result<Reply, Stop<Reply>>
    requires { spec.Runs frame.now (map seen tables.old) }
    ensures answers { spec.Comes frame.now (map seen tables.old) (as_outcome (migrate.least_fill (spec.meant frame.now (map seen tables.old)) n)) result (map seen tables.new) }
    ensures looks { goes_on_filling (spec.reply_of result) ≡ false → map seen tables.new ≡ map seen tables.old }
    ensures forms { spec.SameForms (map seen tables.old) (map seen tables.new) }
    ensures stored { AllByRecursion spec.RowsStored (map seen tables.new) }
{
    laws_below();
    if let Some(refusal) = may_not_fill(alloc, frame, n)? {
        return Err(Stop::Because(Reply::Refused(refusal)));
    }
    let first = unfilled_at(tables);
    fill_first(alloc, frame, tables, first, n)
}
