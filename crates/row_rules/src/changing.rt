//! What a job does to the rows of a table, row by row.
ghost use Rattle.std.specs.Prelude.{map};
ghost use Rattle.sql_base.specs.Outcome.{Gives, and_then, every};
ghost use Rattle.sql_base.specs.declared.faults.EvalFault.TheVariants as EvalFault;
ghost use Rattle.row_rules.specs.Causes as causes;
ghost use Rattle.row_rules.specs.Changes as spec;
ghost use Rattle.row_rules.specs.Inner as inner;
ghost use Rattle.row_rules.specs.Outcome.{Answers, map_fault};
ghost use Rattle.row_rules.specs.Site as sites;

use crate::halves::shown;
use crate::kinds::{Cause, Change, Job, Kept};
use crate::outcomes::{in_row, puts};
use crate::rows::TableRows;
use crate::sites::SiteRef;
use crate::stops::Stop;
use crate::writing::{altered_row, filled_row, new_row};
use sql_base::{EvalFault, Expr, List, Shape, Value};
use sql_eval::eval;
use sql_eval::operate::is_truth;
use std::alloc::Global;

// ---- WHERE

/// Whether the WHERE is true of a row, where there is one.
pub fn passes(
    alloc: Global,
    shape: &Shape,
    condition: &Option<Expr>,
    row: &[Value],
) -> Result<bool, EvalFault>
    ensures { Gives EvalFault.NoMemory (spec.passes shape.now condition.now row.now) result }
{
    match condition {
        Some(condition) => {
            let value = eval(alloc, condition, shape, row)?;
            Ok(is_truth(true, &value))
        }
        None => Ok(true),
    }
}

fn has_passed(
    alloc: Global,
    site: SiteRef<'_>,
    condition: &Option<Expr>,
    row: &Kept,
) -> Result<bool, Stop<Cause>>
    ensures { Answers (inner.has_passed (sites.site_of site.entry) condition.now row.now) result }
{
    let values = shown(alloc, site, &row.halves)?;
    in_row(
        alloc,
        row.key,
        passes(alloc, &site.here.2, condition, values.as_slice()),
    )
}

// The rows that pass, in their order.
fn matching<T: TableRows>(
    alloc: Global,
    site: SiteRef<'_>,
    condition: &Option<Expr>,
    rows: &T,
) -> Result<List<Kept>, Stop<Cause>>
    ensures { Answers (spec.matching (sites.site_of site.entry) condition.now (T.rows rows.now)) result }
{
    let mut matching = List::new(alloc);
    for at in 0..rows.count() {
        let row = rows.row_at(alloc, at)?;
        if !has_passed(alloc, site, condition, &row)? {
            continue;
        }
        matching.push(row)?;
    }
    Ok(matching)
}

// ---- the jobs

fn new_rows(
    alloc: Global,
    site: SiteRef<'_>,
    rows: &[List<Value>],
) -> Result<List<Change>, Stop<Cause>>
    ensures { Answers (spec.put_all (every (map (spec.new_row (sites.site_of site.entry)) rows.now))) result }
{
    puts(alloc, rows, |values| new_row(alloc, site, values))
}

fn all_altered(
    alloc: Global,
    site: SiteRef<'_>,
    sets: &[(u32, Expr)],
    rows: &[Kept],
) -> Result<List<Change>, Stop<Cause>>
    ensures { Answers (spec.put_all (every (map (spec.altered_row (sites.site_of site.entry) sets.now) rows.now))) result }
{
    puts(alloc, rows, |row| altered_row(alloc, site, sets, row))
}

fn altered_rows<T: TableRows>(
    alloc: Global,
    site: SiteRef<'_>,
    sets: &[(u32, Expr)],
    condition: &Option<Expr>,
    rows: &T,
) -> Result<List<Change>, Stop<Cause>>
    ensures { Answers (spec.put_all (and_then (spec.matching (sites.site_of site.entry) condition.now (T.rows rows.now)) (λ found. every (map (spec.altered_row (sites.site_of site.entry) sets.now) found)))) result }
{
    let found = matching(alloc, site, condition, rows)?;
    all_altered(alloc, site, sets, found.as_slice())
}

fn removed_rows<T: TableRows>(
    alloc: Global,
    site: SiteRef<'_>,
    condition: &Option<Expr>,
    rows: &T,
) -> Result<List<Change>, Stop<Cause>>
    ensures { Answers (inner.removed (sites.site_of site.entry) condition.now (T.rows rows.now)) result }
{
    let mut removed = List::new(alloc);
    for at in 0..rows.count() {
        let row = rows.row_at(alloc, at)?;
        if !has_passed(alloc, site, condition, &row)? {
            continue;
        }
        removed.push(Change::Remove(row.key))?;
    }
    Ok(removed)
}

fn filled_rows<T: TableRows>(
    alloc: Global,
    site: SiteRef<'_>,
    rows: &T,
) -> Result<List<Change>, Stop<Cause>>
    ensures { Answers (spec.put_all (every (map (spec.filled_row (sites.site_of site.entry)) (T.rows rows.now)))) result }
{
    let mut filled = List::new(alloc);
    for at in 0..rows.count() {
        let row = rows.row_at(alloc, at)?;
        match filled_row(alloc, site, &row) {
            Ok(row) => filled.push(Change::Put(row))?,
            Err(stop) => return Err(stop),
        }
    }
    Ok(filled)
}

/// What a job does to these rows, which are all of its table's, or those of them that it may take: for each row that it
/// writes or removes one change, an INSERT's as written and others in the rows' order. Each row is made and looked at
/// before the next one; the first cause that is found refuses all.
pub fn changes<T: TableRows>(
    alloc: Global,
    site: SiteRef<'_>,
    job: &Job,
    rows: &T,
) -> Result<List<Change>, Stop<Cause>>
    ensures { Answers (spec.changes (sites.site_of site.entry) job.now (T.rows rows.now)) result }
{
    match job {
        Job::Put(values) => new_rows(alloc, site, values.as_slice()),
        Job::Alter(sets, condition) => altered_rows(alloc, site, sets.as_slice(), condition, rows),
        Job::Remove(condition) => removed_rows(alloc, site, condition, rows),
        Job::Fill => filled_rows(alloc, site, rows),
    }
}
