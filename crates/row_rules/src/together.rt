//! What is looked at when all rows of a statement or a batch are made, and the rows afterwards.
ghost use Rattle.std.specs.Prelude.{◌≡◌, ◌^◌, ◌-◌, ◌++◌, IfOk, OnOk, min, nat_lt};
ghost use Rattle.std.specs.List.{filter};
ghost use Rattle.std.specs.Ordering.{int_eq};
ghost use Rattle.sql_eval.specs.Row.{least};
ghost use Rattle.row_rules.specs.Accept as accept;
ghost use Rattle.row_rules.specs.Changes as spec;
ghost use Rattle.row_rules.specs.Inner as inner;
ghost use Rattle.row_rules.specs.Rows.{Ascends};
ghost use Rattle.row_rules.specs.Site as sites;

use crate::acceptance::clashes;
use crate::causes::{heavy_statement, row_error, taken_key};
use crate::kinds::{Cause, Change, Job, Kept, SqlError, Table};
use crate::rows::{TableRows, all_rows};
use crate::sites::SiteRef;
use constraint::with_least;
use sql_base::{Copying, List, NoMemory, Value, try_map, weight};
use std::alloc::Global;
use std::cmp::Ordering;

/// The heaviest rows of one statement.
pub const MAX_TOTAL: u64 = 100_663_296;

// ---- the rows afterwards

// Appends copies of rows.
fn push_all(out: &mut List<Kept>, alloc: Global, rows: &[Kept]) -> Result<(), NoMemory>
    ensures { OnOk result (out.new ≡ out.old ++ rows.now) }
{
    for row in rows {
        out.push(row.copy(alloc)?)?;
    }
    Ok(())
}

// These rows, which ascend by key, with one more in its place.
fn put_row(alloc: Global, row: &Kept, rows: &[Kept]) -> Result<List<Kept>, NoMemory>
    ensures { IfOk result (λ all. all ≡ spec.put_row row.now rows.now) }
{
    let mut all = List::new(alloc);
    for (at, other) in rows.iter().enumerate() {
        match row.key.cmp(&other.key) {
            Ordering::Greater => all.push(other.copy(alloc)?)?,
            Ordering::Equal => {
                all.push(row.copy(alloc)?)?;
                push_all(&mut all, alloc, &rows[at + 1..])?;
                return Ok(all);
            }
            Ordering::Less => {
                all.push(row.copy(alloc)?)?;
                push_all(&mut all, alloc, &rows[at..])?;
                return Ok(all);
            }
        }
    }
    all.push(row.copy(alloc)?)?;
    Ok(all)
}

// The rows without those of a key.
fn without_key(alloc: Global, key: i64, rows: &[Kept]) -> Result<List<Kept>, NoMemory>
    ensures { IfOk result (λ all. all ≡ inner.without_key key rows.now) }
{
    let mut all = List::new(alloc);
    for row in rows {
        if row.key != key {
            all.push(row.copy(alloc)?)?;
        }
    }
    Ok(all)
}

fn after_change(alloc: Global, change: &Change, rows: &[Kept]) -> Result<List<Kept>, NoMemory>
    ensures { IfOk result (λ all. all ≡ spec.after_change change.now rows.now) }
{
    match change {
        Change::Put(row) => put_row(alloc, row, rows),
        Change::Remove(key) => without_key(alloc, *key, rows),
    }
}

/// The rows of a table after these changes. Rows before and after ascend by key.
pub fn after_changes(
    alloc: Global,
    changes: &[Change],
    rows: &[Kept],
) -> Result<List<Kept>, NoMemory>
    ensures { IfOk result (λ all. all ≡ spec.after_changes changes.now rows.now) }
{
    let mut all = List::new(alloc);
    push_all(&mut all, alloc, rows)?;
    for change in changes {
        all = after_change(alloc, change, all.as_slice())?;
    }
    Ok(all)
}

// ---- keys

// Whether more than one of the rows that are put have this key.
fn has_twice(changes: &[Change], key: i64) -> bool
    ensures { result ≡ nat_lt 1 (accept.times key (spec.rows_put changes.now)) }
{
    let mut found = false;
    for change in changes {
        if let Change::Put(row) = change {
            if key == row.key {
                if found {
                    return true;
                }
                found = true;
            }
        }
    }
    false
}

fn is_taken<T: TableRows>(older: &T, changes: &[Change], key: i64) -> bool
    ensures { result ≡ accept.is_taken (T.rows older.now) (spec.rows_put changes.now) key }
{
    older.has_key(key) || has_twice(changes, key)
}

// The least taken key, where that of this change is looked at beside the least of others.
fn with_change<T: TableRows>(
    older: &T,
    changes: &[Change],
    change: &Change,
    least: Option<i64>,
) -> Option<i64>
    ensures { result ≡ inner.with_change (accept.is_taken (T.rows older.now) (spec.rows_put changes.now)) change.now least }
{
    match change {
        Change::Put(row) => with_least(row.key, is_taken(older, changes, row.key), least),
        Change::Remove(_) => least,
    }
}

fn least_taken<T: TableRows>(older: &T, changes: &[Change]) -> Option<i64>
    ensures { result ≡ inner.least_taken (T.rows older.now) (spec.rows_put changes.now) (spec.rows_put changes.now) }
{
    let mut least = None;
    let mut at = changes.len();
    while at > 0 {
        at -= 1;
        least = with_change(older, changes, &changes[at], least);
    }
    least
}

fn key_cause<T: TableRows>(
    alloc: Global,
    table: &Table,
    older: &T,
    changes: &[Change],
) -> Result<Option<Cause>, NoMemory>
    ensures { IfOk result (λ cause. cause ≡ accept.key_cause table.now (T.rows older.now) (spec.rows_put changes.now)) }
{
    match least_taken(older, changes) {
        Some(key) => Ok(Some(taken_key(alloc, table, key)?)),
        None => Ok(None),
    }
}

fn new_keys_cause<T: TableRows>(
    alloc: Global,
    site: SiteRef<'_>,
    job: &Job,
    older: &T,
    changes: &[Change],
) -> Result<Option<Cause>, NoMemory>
    ensures { IfOk result (λ cause. cause ≡ spec.new_keys_cause (sites.site_of site.entry) job.now (T.rows older.now) changes.now) }
{
    match job {
        Job::Put(_) => key_cause(alloc, site.here, older, changes),
        Job::Alter(_, _) | Job::Remove(_) | Job::Fill => Ok(None),
    }
}

// ---- unique constraints

fn has_uniques(site: SiteRef<'_>) -> bool
    ensures { result ≡ inner.has_uniques (sites.site_of site.entry) }
{
    site.here.2.uniques.len() > 0
        || match site.there {
            Some(beside) => beside.table.2.uniques.len() > 0,
            None => false,
        }
}

fn key_changed(change: &Change) -> i64
    ensures { result ≡ spec.key_changed change.now }
{
    match change {
        Change::Put(row) => row.key,
        Change::Remove(key) => *key,
    }
}

fn keys_changed(alloc: Global, changes: &[Change]) -> Result<List<i64>, NoMemory>
    ensures { IfOk result (λ keys. keys ≡ spec.keys_changed changes.now) }
{
    try_map(alloc, changes, |change| Ok(key_changed(change)))
}

// Of older rows that ascend.
fn clashes_beside<T: TableRows>(
    alloc: Global,
    site: SiteRef<'_>,
    older: &T,
    changes: &[Change],
) -> Result<Option<Cause>, NoMemory>
    requires { Ascends (T.rows older.now) }
    ensures { IfOk result (λ cause. cause ≡ inner.clashes_after (sites.site_of site.entry) (T.rows older.now) changes.now) }
{
    let keys = keys_changed(alloc, changes)?;
    let written = after_changes(alloc, changes, &[])?;
    clashes(alloc, site, written.as_slice(), older, keys.as_slice())
}

// Of any older rows.
fn clashes_among<T: TableRows>(
    alloc: Global,
    site: SiteRef<'_>,
    older: &T,
    changes: &[Change],
) -> Result<Option<Cause>, NoMemory>
    ensures { IfOk result (λ cause. cause ≡ inner.clashes_after (sites.site_of site.entry) (T.rows older.now) changes.now) }
{
    let rows = all_rows(alloc, older)?;
    let rows = after_changes(alloc, changes, rows.as_slice())?;
    let keys = keys_changed(alloc, changes)?;
    let none: Option<Kept> = None;
    clashes(alloc, site, rows.as_slice(), &none, keys.as_slice())
}

#[tactic(auto, using(crate::proofs::Uniques::no_clashes))]
fn clashes_after<T: TableRows>(
    alloc: Global,
    site: SiteRef<'_>,
    older: &T,
    changes: &[Change],
) -> Result<Option<Cause>, NoMemory>
    ensures { IfOk result (λ cause. cause ≡ inner.clashes_after (sites.site_of site.entry) (T.rows older.now) changes.now) }
{
    if !has_uniques(site) {
        return Ok(None);
    }
    if older.ascend() {
        return clashes_beside(alloc, site, older, changes);
    }
    clashes_among(alloc, site, older, changes)
}

/// Why the rows that these changes leave aren't accepted beside each other: the least new key that another row has, then
/// the unique constraints, the written side's first. Older rows are copied only where they don't ascend by key and a
/// version has a unique constraint.
pub fn cause_together<T: TableRows>(
    alloc: Global,
    site: SiteRef<'_>,
    job: &Job,
    older: &T,
    changes: &[Change],
) -> Result<Option<Cause>, NoMemory>
    ensures { IfOk result (λ cause. cause ≡ spec.cause_together (sites.site_of site.entry) job.now (T.rows older.now) changes.now) }
{
    match new_keys_cause(alloc, site, job, older, changes)? {
        Some(cause) => Ok(Some(cause)),
        None => clashes_after(alloc, site, older, changes),
    }
}

// ---- weight

fn half_weight(half: &Option<List<Value>>) -> u64
    ensures { result ≡ min (accept.half_weight half.now) (2 ^ 64 - 1) }
{
    match half {
        Some(values) => weight(values.as_slice()),
        None => 0,
    }
}

fn row_weight(row: &Kept) -> u64
    ensures { result ≡ min (accept.row_weight row.now) (2 ^ 64 - 1) }
{
    half_weight(&row.halves.old)
        .saturating_add(half_weight(&row.halves.new))
        .saturating_add(row.lost)
}

fn change_weight(change: &Change) -> u64
    ensures { result ≡ min (inner.change_weight change.now) (2 ^ 64 - 1) }
{
    match change {
        Change::Put(row) => row_weight(row),
        Change::Remove(_) => 0,
    }
}

// The weight of all rows that these changes leave written, or the largest number where they weigh more.
fn total_weight(changes: &[Change]) -> u64
    ensures { result ≡ min (accept.total_weight (spec.rows_put changes.now)) (2 ^ 64 - 1) }
{
    let mut total: u64 = 0;
    for change in changes {
        total = total.saturating_add(change_weight(change));
    }
    total
}

/// The same for a statement: after these causes comes the weight of all rows that it leaves written (54000).
pub fn refused_together<T: TableRows>(
    alloc: Global,
    site: SiteRef<'_>,
    job: &Job,
    older: &T,
    changes: &[Change],
) -> Result<Option<SqlError>, NoMemory>
    ensures { IfOk result (λ error. error ≡ spec.refused_together (sites.site_of site.entry) job.now (T.rows older.now) changes.now) }
{
    if let Some(cause) = cause_together(alloc, site, job, older, changes)? {
        return Ok(Some(row_error(cause)));
    }
    if total_weight(changes) > MAX_TOTAL {
        return Ok(Some(heavy_statement(alloc)?));
    }
    Ok(None)
}
