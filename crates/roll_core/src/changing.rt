//! Changes, as they are put into the rows of a table. All memory is taken before any of them is put.
ghost use Rattle.std.specs.Prelude.{◌≡◌, ◌≤◌, ◌+◌, [], IfOk, OnErr, OnOk, length, map, unwrap_or};
ghost use Rattle.std.specs.Option.{option_copied};
ghost use Rattle.row_rules.specs.Site.{half};
ghost use Rattle.roll_core.specs.Changing as spec;
ghost use Rattle.roll_core.specs.Seen.{seen};
ghost use Rattle.roll_core.specs.Store as model;

use crate::forms::{Form, copied};
use crate::store::{StoredTable, kept};
use mig_lens::Side;
use phase_steps::{left_row, returned_row, trimmed};
use row_rules::{Change, Halves};
use row_store::RowStore;
use sql_base::{List, NoMemory, Value};
use std::alloc::Global;
use trigger_pair::parts::joined;

/// What is done to what is stored under a key.
#[derive(Drop)]
pub enum StoredChange {
    /// These values are stored under it.
    Put(i64, List<Value>),
    /// Nothing is.
    Remove(i64),
}

// The half of a row that a side has.
fn half_on(side: Side, halves: &Halves) -> &Option<List<Value>>
    ensures { result.now ≡ half side halves.now }
{
    match side {
        Side::Old => &halves.old,
        Side::New => &halves.new,
    }
}

fn values_or_none(half: &Option<List<Value>>) -> &[Value]
    ensures { result.now ≡ unwrap_or half.now [] }
{
    match half {
        Some(values) => values.as_slice(),
        None => &[],
    }
}

// The values that are stored of halves, over what was stored under the key, if anything was.
fn stored_values(
    alloc: Global,
    form: &Form,
    halves: &Halves,
    before: Option<&[Value]>,
) -> Result<List<Value>, NoMemory>
    ensures { IfOk result (λ values. values ≡ model.stored_values form.now halves.now (option_copied before.entry)) }
{
    let old = values_or_none(&halves.old);
    match form {
        Form::Own(side) => copied(alloc, values_or_none(half_on(*side, halves))),
        Form::Paired(pair) => {
            let own = copied(alloc, old)?;
            let new = values_or_none(&halves.new);
            joined(alloc, &pair.lens, pair.layout.mark, own, new, false)
        }
        Form::Left(pair) => left_row(alloc, &pair.lens, old, before),
        Form::Trimmed(pair) => {
            let left = left_row(alloc, &pair.lens, old, None)?;
            trimmed(alloc, &pair.lens, left.as_slice())
        }
        Form::Returned(pair) => returned_row(alloc, &pair.lens, old, before),
    }
}

fn stored_change(
    alloc: Global,
    table: &StoredTable,
    change: &Change,
) -> Result<StoredChange, NoMemory>
    ensures { IfOk result (λ stored. stored ≡ spec.stored_change table.now.form table.now.rows.rows change.now) }
{
    match change {
        Change::Put(row) => {
            let before = table.rows.get(row.key);
            let values = stored_values(alloc, &table.form, &row.halves, before)?;
            Ok(StoredChange::Put(row.key, values))
        }
        Change::Remove(key) => Ok(StoredChange::Remove(*key)),
    }
}

fn stored_changes(
    alloc: Global,
    table: &StoredTable,
    changes: &[Change],
) -> Result<List<StoredChange>, NoMemory>
    ensures { IfOk result (λ all. all ≡ map (spec.stored_change table.now.form table.now.rows.rows) changes.now) }
{
    let mut all = List::new(alloc);
    for change in changes {
        all.push(stored_change(alloc, table, change)?)?;
    }
    Ok(all)
}

// Puts a change into the rows, where there is room for one.
fn put_stored(rows: &mut RowStore, change: StoredChange)
    requires { 1 ≤ rows.old.spare }
    ensures rows { rows.new.rows ≡ spec.put_stored change rows.old.rows }
    ensures room { rows.old.spare ≤ rows.new.spare + 1 }
{
    match change {
        StoredChange::Put(key, values) => {
            rows.put_reserved(key, values);
        }
        StoredChange::Remove(key) => {
            rows.remove(key);
        }
    }
}

// Puts these changes into the rows, where there is room for them.
fn put_all(rows: &mut RowStore, changes: List<StoredChange>)
    requires { length changes ≤ rows.old.spare }
    ensures { rows.new.rows ≡ spec.put_all changes rows.old.rows }
{
    for change in changes.into_vec() {
        put_stored(rows, change);
    }
}

// A change as the rows that are meant are changed.
fn meant_change(alloc: Global, form: &Form, change: &StoredChange) -> Result<Change, NoMemory>
    ensures { IfOk result (λ meant. meant ≡ spec.meant_change form.now change.now) }
{
    match change {
        StoredChange::Put(key, values) => {
            let row = kept(alloc, form, *key, values.as_slice())?;
            Ok(Change::Put(row))
        }
        StoredChange::Remove(key) => Ok(Change::Remove(*key)),
    }
}

fn meant_changes(
    alloc: Global,
    form: &Form,
    changes: &[StoredChange],
) -> Result<List<Change>, NoMemory>
    ensures { IfOk result (λ all. all ≡ spec.meant_changes form.now changes.now) }
{
    let mut all = List::new(alloc);
    for change in changes {
        all.push(meant_change(alloc, form, change)?)?;
    }
    Ok(all)
}

// Stores changes in a table and in its indexes. An error is want of memory, and then the table's rows are as they were.
fn store_all(
    alloc: Global,
    table: &mut StoredTable,
    changes: List<StoredChange>,
) -> Result<(), NoMemory>
    ensures ok { OnOk result (seen table.new ≡ spec.with_stored changes table.old) }
    ensures err { OnErr result (seen table.new ≡ seen table.old) }
{
    row_store::laws::changes_keep_order();
    row_index::laws::changes_are_indexed();
    row_index::laws::prepared_changes_have_room();
    let meant = meant_changes(alloc, &table.form, changes.as_slice())?;
    let old = table.old_index.prepare(alloc, Side::Old, meant.as_slice())?;
    let new = table.new_index.prepare(alloc, Side::New, meant.as_slice())?;
    let Ok(count) = u32::try_from(changes.len()) else {
        return Err(NoMemory);
    };
    table.rows.reserve(count)?;
    table.old_index.reserve(count)?;
    table.new_index.reserve(count)?;
    put_all(&mut table.rows, changes);
    table.old_index.apply(old);
    table.new_index.apply(new);
    Ok(())
}

/// Puts the changes into the table. An error is want of memory, and then the table's rows are as they were.
pub fn put_changes(
    alloc: Global,
    table: &mut StoredTable,
    changes: &[Change],
) -> Result<(), NoMemory>
    ensures ok { OnOk result (seen table.new ≡ spec.changed changes.now table.old) }
    ensures err { OnErr result (seen table.new ≡ seen table.old) }
{
    let stored = stored_changes(alloc, table, changes)?;
    store_all(alloc, table, stored)
}
