//! The rows that a statement looks at. Where its WHERE names one key it is given the row of this key, found by it, or
//! none; else all rows of its table.
ghost use Rattle.std.specs.Prelude.{◌≡◌, Some, IfOk};
ghost use Rattle.row_rules.specs.Causes.{max_reply};
ghost use Rattle.row_rules.specs.Changes as changing;
ghost use Rattle.row_rules.specs.InReach.{ShowKeys};
ghost use Rattle.row_rules.specs.Outcome.{Answers};
ghost use Rattle.row_rules.specs.Reach.{row_alone, rows_reached};
ghost use Rattle.row_rules.specs.Show as showing;
ghost use Rattle.row_rules.specs.Site as sites;
ghost use Rattle.roll_core.specs.Running as spec;
ghost use Rattle.roll_core.specs.Seen.{seen};
ghost use Rattle.roll_core.specs.Store.{rows_meant};

use crate::store::{StoredTable, kept};
use row_rules::{
    Cause, Change, Job, Kept, SiteRef, SqlError, Stop, changes, key_named, rows_shown,
};
use sql_base::{Expr, Items, List, NoMemory, Shape, Value};
use std::alloc::Global;

// The row of a key, if there is one.
fn row_of(alloc: Global, table: &StoredTable, key: i64) -> Result<Option<Kept>, NoMemory>
    ensures { IfOk result (λ row. row_alone row ≡ rows_reached (Some key) (rows_meant (seen table.now))) }
{
    row_rules::reach_laws::a_key_reaches_one_row();
    match table.rows.get(key) {
        Some(values) => {
            let row = kept(alloc, &table.form, key, values)?;
            Ok(Some(row))
        }
        None => Ok(None),
    }
}

// The one key that a statement's job reaches, where its WHERE names one.
fn job_reach(job: &Job, shape: &Shape) -> Option<i64>
    ensures { result ≡ spec.job_reach shape.now job.now }
{
    match job {
        Job::Alter(_, condition) => key_named(condition, shape),
        Job::Remove(condition) => key_named(condition, shape),
        Job::Put(_) | Job::Fill => None,
    }
}

/// What a statement's job does to the rows of its table, or why it doesn't.
pub fn changes_reached(
    alloc: Global,
    table: &StoredTable,
    site: SiteRef<'_>,
    job: &Job,
) -> Result<List<Change>, Stop<Cause>>
    requires { ShowKeys (sites.site_of site) (rows_meant (seen table.now)) }
    ensures { Answers (changing.changes (sites.site_of site.entry) job.now (rows_meant (seen table.now))) result }
{
    row_rules::reach_laws::statements_stay_within_reach();
    match job_reach(job, &site.here.2) {
        Some(key) => {
            let row = row_of(alloc, table, key)?;
            changes(alloc, site, job, &row)
        }
        None => changes(alloc, site, job, table),
    }
}

/// What a SELECT shows of its table, or why it doesn't.
pub fn shown_reached(
    alloc: Global,
    table: &StoredTable,
    site: SiteRef<'_>,
    items: &Items,
    condition: &Option<Expr>,
) -> Result<List<List<Value>>, Stop<SqlError>>
    requires { ShowKeys (sites.site_of site) (rows_meant (seen table.now)) }
    ensures { Answers (showing.rows_shown (sites.site_of site.entry) items.now condition.now max_reply (rows_meant (seen table.now))) result }
{
    row_rules::reach_laws::statements_stay_within_reach();
    match key_named(condition, &site.here.2) {
        Some(key) => {
            let row = row_of(alloc, table, key)?;
            rows_shown(alloc, site, items, condition, &row)
        }
        None => rows_shown(alloc, site, items, condition, table),
    }
}
