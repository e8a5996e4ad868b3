//! Rows that are written, and rows that are shown.
ghost use Rattle.std.specs.Prelude.{◌≡◌, IfOk};
ghost use Rattle.row_rules.specs.Outcome.{Answers};
ghost use Rattle.row_rules.specs.Site as sites;
ghost use Rattle.machine.specs.Plain.{replied, told};
ghost use Rattle.machine.specs.State as state;
ghost use Rattle.machine.specs.Statement as spec;

use crate::events::Reply;
use crate::replies::{error_reply, row_reply, too_many_rows, written_reply};
use crate::rows::{MAX_ROWS, row_count, with_rows};
use crate::states::State;
use crate::tables::rows_of;
use row_rules::{Change, Job, SiteRef, Stop, after_changes, changes, refused_together, rows_shown};
use sql_base::{Copying, Expr, Items, NoMemory};
use std::alloc::Global;

// The state with the rows that these changes leave.
fn state_after(
    alloc: Global,
    s: &State,
    site: SiteRef<'_>,
    all: &[Change],
) -> Result<State, NoMemory>
    ensures { IfOk result (λ t. t ≡ state.with_rows s.now (sites.number_of site.entry.here.now) (spec.rows_after s.now (sites.site_of site.entry) all.now)) }
{
    let rows = after_changes(alloc, all, rows_of(s, site.here.1))?;
    with_rows(alloc, s, site.here.1, &rows)
}

/// The changes of a job stand: the reply, and the state with its rows.
pub fn job_done(
    alloc: Global,
    s: &State,
    site: SiteRef<'_>,
    job: &Job,
    all: &[Change],
) -> Result<(Reply, State), NoMemory>
    ensures { IfOk result (λ done. done ≡ told (spec.changed s.now (sites.site_of site.entry) job.now all.now)) }
{
    let reply = written_reply(alloc, site, job, all)?;
    let after = state_after(alloc, s, site, all)?;
    Ok((reply, after))
}

// There would be more rows in all tables than there may be.
fn too_many(
    alloc: Global,
    s: &State,
    site: SiteRef<'_>,
    all: &[Change],
) -> Result<Option<Reply>, NoMemory>
    ensures { IfOk result (λ reply. reply ≡ spec.too_many s.now (sites.site_of site.entry) all.now) }
{
    let after = state_after(alloc, s, site, all)?;
    if row_count(&after) > MAX_ROWS {
        Ok(Some(too_many_rows(alloc)?))
    } else {
        Ok(None)
    }
}

// Why the rows of a statement aren't accepted together.
fn refused_all(
    alloc: Global,
    s: &State,
    site: SiteRef<'_>,
    job: &Job,
    all: &[Change],
) -> Result<Option<Reply>, NoMemory>
    ensures { IfOk result (λ reply. reply ≡ spec.refused_all s.now (sites.site_of site.entry) job.now all.now) }
{
    match refused_together(alloc, site, job, &rows_of(s, site.here.1), all)? {
        Some(error) => Ok(Some(error_reply(error))),
        None => too_many(alloc, s, site, all),
    }
}

fn job_settled(
    alloc: Global,
    s: &State,
    site: SiteRef<'_>,
    job: &Job,
    all: &[Change],
) -> Result<(Reply, State), Stop<Reply>>
    ensures { Answers (replied (spec.settled s.now (sites.site_of site.entry) job.now all.now)) result }
{
    match refused_all(alloc, s, site, job, all)? {
        Some(reply) => Err(Stop::Because(reply)),
        None => Ok(job_done(alloc, s, site, job, all)?),
    }
}

/// A job is done on the rows of a site, or refused.
pub fn job_outcome(
    alloc: Global,
    s: &State,
    site: SiteRef<'_>,
    job: &Job,
) -> Result<(Reply, State), Stop<Reply>>
    ensures { Answers (replied (spec.written s.now (sites.site_of site.entry) job.now)) result }
{
    match changes(alloc, site, job, &rows_of(s, site.here.1)) {
        Ok(all) => job_settled(alloc, s, site, job, all.as_slice()),
        Err(Stop::Because(cause)) => Err(Stop::Because(row_reply(cause))),
        Err(Stop::NoMemory) => Err(Stop::NoMemory),
    }
}

/// What a question about the rows of a site comes to.
pub fn query_outcome(
    alloc: Global,
    s: &State,
    site: SiteRef<'_>,
    items: &Items,
    condition: &Option<Expr>,
) -> Result<(Reply, State), Stop<Reply>>
    ensures { Answers (replied (spec.shown s.now (sites.site_of site.entry) items.now condition.now)) result }
{
    match rows_shown(alloc, site, items, condition, &rows_of(s, site.here.1)) {
        Ok(rows) => {
            let same = s.copy(alloc)?;
            Ok((Reply::Select(rows), same))
        }
        Err(Stop::Because(error)) => Err(Stop::Because(error_reply(error))),
        Err(Stop::NoMemory) => Err(Stop::NoMemory),
    }
}
