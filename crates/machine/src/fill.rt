//! FILL: a batch of rows gets its new halves.
ghost use Rattle.std.specs.Prelude.{◌≡◌, IfOk, Ok, take};
ghost use Rattle.std.specs.List.{list_any};
ghost use Rattle.std.specs.Ordering.{int_eq};
ghost use Rattle.row_rules.specs.Changes.{cause_together, changes};
ghost use Rattle.row_rules.specs.Outcome.{Answers};
ghost use Rattle.row_rules.specs.Rows as rules;
ghost use Rattle.row_rules.specs.Site.{number_of};
ghost use Rattle.machine.specs.Migrate as spec;
ghost use Rattle.machine.specs.Plain as plain;
ghost use Rattle.machine.specs.Plain.{replied, told};
ghost use Rattle.machine.specs.State as state;
ghost use Rattle.machine.specs.Statement.{changed};

use crate::events::Reply;
use crate::phases::phase_of;
use crate::refusals::{limit, refused_batch};
use crate::states::State;
use crate::tables::{SharedTable, filling_site, rows_of, shared};
use crate::writing::job_done;
use mig_lens::Refusal;
use phase_steps::may_fill;
use row_rules::{Cause, Change, Job, Kept, Stop, any_missing, cause_together, changes};
use sql_base::{Copying, List, NoMemory};
use std::alloc::Global;

/// The most rows of one batch.
pub const MAX_BATCH: u32 = 10_000;

// ---- whether a batch may be filled

/// Why no batch of this size can be filled: it has no row or more than 10,000 (P20), steps of tidying are left (P3), or no
/// migration is active (P2).
pub fn may_not_fill(alloc: Global, s: &State, n: u32) -> Result<Option<Refusal>, NoMemory>
    ensures { IfOk result (λ refusal. refusal ≡ spec.may_not_fill s.now n) }
{
    if n == 0 || n > MAX_BATCH {
        return Ok(Some(limit(alloc, b"batch")?));
    }
    Ok(may_fill(phase_of(s)))
}

// ---- which rows it takes

fn has_missing(s: &State, number: u32) -> bool
    ensures { result ≡ spec.has_missing s.now number }
{
    match shared(s, number) {
        Some(_) => any_missing(&rows_of(s, number)),
        None => false,
    }
}

// The first table that has a row to be filled.
fn first_unfilled(s: &State) -> Option<u32>
    ensures { result ≡ spec.first_of (spec.unfilled_tables s.now) }
{
    for table in s.tables.as_slice() {
        if has_missing(s, table.0) {
            return Some(table.0);
        }
    }
    None
}

// The keys of the rows that are still to be filled.
fn keys_to_fill(alloc: Global, rows: &[Kept]) -> Result<List<i64>, NoMemory>
    ensures { IfOk result (λ keys. keys ≡ rules.missing_keys rows.now) }
{
    let mut keys = List::new(alloc);
    for row in rows {
        if row.halves.new.is_none() {
            keys.push(row.key)?;
        }
    }
    Ok(keys)
}

fn missing_keys(alloc: Global, s: &State, number: u32) -> Result<List<i64>, NoMemory>
    ensures { IfOk result (λ keys. keys ≡ state.missing_keys s.now number) }
{
    match shared(s, number) {
        Some(_) => keys_to_fill(alloc, rows_of(s, number)),
        None => Ok(List::new(alloc)),
    }
}

fn first_keys(keys: &[i64], n: u32) -> &[i64]
    ensures { result.now ≡ take n keys.now }
{
    &keys[..(n as usize).min(keys.len())]
}

fn has_key_of(keys: &[i64], row: &Kept) -> bool
    ensures { result ≡ list_any (int_eq row.now.key) keys.now }
{
    keys.iter().any(|key| row.key == *key)
}

// The rows of these keys.
fn rows_at(alloc: Global, keys: &[i64], rows: &[Kept]) -> Result<List<Kept>, NoMemory>
    ensures { IfOk result (λ all. all ≡ rules.rows_at keys.now rows.now) }
{
    let mut all = List::new(alloc);
    for row in rows {
        if has_key_of(keys, row) {
            all.push(row.copy(alloc)?)?;
        }
    }
    Ok(all)
}

// ---- the batch

// These rows get their new halves: each is made and looked at before the next one.
fn filled_rows(
    alloc: Global,
    s: &State,
    pair: SharedTable<'_>,
    rows: &[Kept],
) -> Result<List<Change>, Stop<Cause>>
    ensures { Answers (changes (state.filling_site s.now (plain.pair pair.entry)) Job.Fill rows.now) result }
{
    changes(alloc, filling_site(s, pair), &Job::Fill, &rows)
}

// Why the filled rows aren't accepted beside the others.
fn batch_cause(
    alloc: Global,
    s: &State,
    pair: SharedTable<'_>,
    all: &[Change],
) -> Result<Option<Cause>, NoMemory>
    ensures { IfOk result (λ cause. cause ≡ cause_together (state.filling_site s.now (plain.pair pair.entry)) Job.Fill (state.rows_of s.now (number_of pair.entry.new.now)) all.now) }
{
    let rows = rows_of(s, pair.new.1);
    cause_together(alloc, filling_site(s, pair), &Job::Fill, &rows, all)
}

// The filled rows stand.
fn batch_changed(
    alloc: Global,
    s: &State,
    pair: SharedTable<'_>,
    all: &[Change],
) -> Result<(Reply, State), NoMemory>
    ensures { IfOk result (λ done. done ≡ told (changed s.now (state.filling_site s.now (plain.pair pair.entry)) Job.Fill all.now)) }
{
    job_done(alloc, s, filling_site(s, pair), &Job::Fill, all)
}

// The filled rows stand, where they are accepted beside the others.
fn batch_settled(
    alloc: Global,
    s: &State,
    pair: SharedTable<'_>,
    all: &[Change],
) -> Result<(Reply, State), Stop<Refusal>>
    ensures { Answers (replied (spec.batch_settled s.now (plain.pair pair.entry) all.now)) result }
{
    match batch_cause(alloc, s, pair, all)? {
        Some(cause) => Err(Stop::Because(refused_batch(alloc, &pair.new.0, &cause)?)),
        None => Ok(batch_changed(alloc, s, pair, all)?),
    }
}

// These rows are filled, where each is accepted and all together.
fn batch(
    alloc: Global,
    s: &State,
    pair: SharedTable<'_>,
    rows: &[Kept],
) -> Result<(Reply, State), Stop<Refusal>>
    ensures { Answers (replied (spec.batch s.now (plain.pair pair.entry) rows.now)) result }
{
    match filled_rows(alloc, s, pair, rows) {
        Ok(all) => batch_settled(alloc, s, pair, all.as_slice()),
        Err(Stop::Because(cause)) => {
            Err(Stop::Because(refused_batch(alloc, &pair.new.0, &cause)?))
        }
        Err(Stop::NoMemory) => Err(Stop::NoMemory),
    }
}

// There is nothing to fill.
fn all_filled(alloc: Global, s: &State) -> Result<(Reply, State), Stop<Refusal>>
    ensures { Answers (Ok (Reply.Filled, s.now)) result }
{
    let same = s.copy(alloc)?;
    Ok((Reply::Filled, same))
}

fn fill_keys(
    alloc: Global,
    s: &State,
    number: u32,
    keys: &[i64],
) -> Result<(Reply, State), Stop<Refusal>>
    ensures { Answers (replied (spec.fill_keys s.now number keys.now)) result }
{
    match shared(s, number) {
        Some(pair) => {
            let rows = rows_at(alloc, keys, rows_of(s, number))?;
            batch(alloc, s, pair, rows.as_slice())
        }
        None => all_filled(alloc, s),
    }
}

fn least_batch(alloc: Global, s: &State, n: u32) -> Result<(Reply, State), Stop<Refusal>>
    ensures { Answers (replied (spec.least_batch s.now n (spec.first_of (spec.unfilled_tables s.now)))) result }
{
    match first_unfilled(s) {
        Some(number) => {
            let keys = missing_keys(alloc, s, number)?;
            fill_keys(alloc, s, number, first_keys(keys.as_slice(), n))
        }
        None => all_filled(alloc, s),
    }
}

/// The batch of one lane: the least n keys that are still to be filled, of the first table that has any.
pub fn least_fill(alloc: Global, s: &State, n: u32) -> Result<(Reply, State), Stop<Refusal>>
    ensures { Answers (replied (spec.least_fill s.now n)) result }
{
    match may_not_fill(alloc, s, n)? {
        Some(refusal) => Err(Stop::Because(refusal)),
        None => least_batch(alloc, s, n),
    }
}
