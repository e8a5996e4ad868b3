//! What a migration's start and its completion look at in the rows of a table, and what the start leaves.
ghost use Rattle.std.specs.Prelude.{◌≡◌, IfOk, map};
ghost use Rattle.std.specs.List.{list_any};
ghost use Rattle.std.specs.Option.{option_map};
ghost use Rattle.mig_lens.specs.Layout as layout;
ghost use Rattle.mig_lens.specs.declared.columns.Side.TheVariants.{New};
ghost use Rattle.row_rules.specs.Accept as accept;
ghost use Rattle.row_rules.specs.Inner as inner;
ghost use Rattle.row_rules.specs.Outcome.{first_some};
ghost use Rattle.row_rules.specs.Steps as spec;

use crate::acceptance::{MAX_WEIGHT, half_broken};
use crate::kinds::{Halves, Kept, Table};
use crate::rows::TableRows;
use constraint::{Keyed, uniques_broken};
use mig_lens::{Cell, Lens, unfilled};
use sql_base::{Copying, List, Name, NoMemory, Value, weight};
use std::alloc::Global;

// ---- the start

fn is_make(cell: &Cell) -> bool
    ensures { result ≡ layout.is_make cell.now }
{
    match cell {
        Cell::Make(_) => true,
        Cell::Carry(_) | Cell::Still(_) => false,
    }
}

// Whether a new column has to be made.
fn is_marked(lens: &Lens) -> bool
    ensures { result ≡ layout.has_mark lens.now }
{
    lens.new_cols.as_slice().iter().any(is_make)
}

// The new half that a row begins with.
fn begun_half(
    alloc: Global,
    lens: &Lens,
    old: &Option<List<Value>>,
) -> Result<Option<List<Value>>, NoMemory>
    ensures { IfOk result (λ half. half ≡ spec.begun_half lens.now old.now) }
{
    match old {
        Some(old) if !is_marked(lens) => Ok(Some(unfilled(alloc, lens, old.as_slice())?)),
        _ => Ok(None),
    }
}

/// A row as a migration begins with it: with the new half that it shows, where no new column has to be made.
pub fn begun_row(alloc: Global, lens: &Lens, row: &Kept) -> Result<Kept, NoMemory>
    ensures { IfOk result (λ begun. begun ≡ spec.begun_row lens.now row.now) }
{
    Ok(Kept {
        key: row.key,
        halves: Halves {
            old: row.halves.old.copy(alloc)?,
            new: begun_half(alloc, lens, &row.halves.old)?,
        },
        lost: row.lost,
    })
}

fn shows_heavy(alloc: Global, lens: &Lens, row: &Kept) -> Result<bool, NoMemory>
    ensures { IfOk result (λ heavy. heavy ≡ spec.shows_heavy lens.now row.now) }
{
    match &row.halves.old {
        Some(old) => {
            let shown = unfilled(alloc, lens, old.as_slice())?;
            Ok(weight(shown.as_slice()) > MAX_WEIGHT)
        }
        None => Ok(false),
    }
}

/// Whether the new version would show one of these rows too heavy. One row is looked at after another.
pub fn show_heavy<T: TableRows>(alloc: Global, lens: &Lens, rows: &T) -> Result<bool, NoMemory>
    ensures { IfOk result (λ heavy. heavy ≡ spec.show_heavy lens.now (T.rows rows.now)) }
{
    for at in 0..rows.count() {
        let row = rows.row_at(alloc, at)?;
        if shows_heavy(alloc, lens, &row)? {
            return Ok(true);
        }
    }
    Ok(false)
}

// ---- the completion

// The constraint that a row's new half doesn't meet, with the key.
fn new_half_broken(
    alloc: Global,
    table: &Table,
    row: &Kept,
) -> Result<Option<(Name, i64)>, NoMemory>
    ensures { IfOk result (λ broken. broken ≡ inner.half_broken table.now row.now) }
{
    match &row.halves.new {
        Some(values) => half_broken(alloc, table, row.key, values.as_slice()),
        None => Ok(None),
    }
}

// The same of the first row of which there is one.
fn first_broken<T: TableRows>(
    alloc: Global,
    table: &Table,
    rows: &T,
) -> Result<Option<(Name, i64)>, NoMemory>
    ensures { IfOk result (λ broken. broken ≡ first_some (inner.half_broken table.now) (T.rows rows.now)) }
{
    for at in 0..rows.count() {
        let row = rows.row_at(alloc, at)?;
        let broken = new_half_broken(alloc, table, &row)?;
        if broken.is_some() {
            return Ok(broken);
        }
    }
    Ok(None)
}

// A row's new half under its key.
fn new_half(row: Kept) -> Option<Keyed>
    ensures { result ≡ option_map (λ values. (row.key, values)) row.halves.new }
{
    let Kept { key, halves, .. } = row;
    let Halves { new, .. } = halves;
    match new {
        Some(values) => Some((key, values)),
        None => None,
    }
}

fn new_halves<T: TableRows>(alloc: Global, rows: &T) -> Result<List<Keyed>, NoMemory>
    ensures { IfOk result (λ halves. halves ≡ accept.present New (T.rows rows.now)) }
{
    let mut halves = List::new(alloc);
    for at in 0..rows.count() {
        let row = rows.row_at(alloc, at)?;
        if let Some(half) = new_half(row) {
            halves.push(half)?;
        }
    }
    Ok(halves)
}

// The first unique constraint that new halves don't meet, with the least key that has an equal.
fn first_unique_broken<T: TableRows>(
    alloc: Global,
    table: &Table,
    rows: &T,
) -> Result<Option<(Name, i64)>, NoMemory>
    ensures { IfOk result (λ broken. broken ≡ inner.uniques_broken table.now (T.rows rows.now)) }
{
    if table.2.uniques.as_slice().is_empty() {
        return Ok(None);
    }
    let halves = new_halves(alloc, rows)?;
    uniques_broken(alloc, table.2.uniques.as_slice(), halves.as_slice())
}

/// The constraint that the new halves of these rows don't meet, with a key, or none: the first fault of a new half, one
/// row looked at after another; then the unique constraints, the first with the least key that has an equal. Where there
/// is no unique constraint no row is kept. `table` is the table of the new version. An error is want of memory.
#[tactic(auto, using(crate::proofs::Validity::first_present))]
pub fn invalid<T: TableRows>(
    alloc: Global,
    table: &Table,
    rows: &T,
) -> Result<Option<(Name, i64)>, NoMemory>
    ensures { IfOk result (λ broken. broken ≡ spec.invalid table.now (T.rows rows.now)) }
{
    match first_broken(alloc, table, rows)? {
        Some(broken) => Ok(Some(broken)),
        None => first_unique_broken(alloc, table, rows),
    }
}
