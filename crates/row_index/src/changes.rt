//! Changes to rows, as they are done to the indexes of their values.
ghost use Rattle.std.specs.Prelude.{◌≡◌, ◌≤◌, ◌+◌, IfOk, length, map, slice_index_or};
ghost use Rattle.sql_base.specs.declared.values.Value.TheVariants.{Null};
ghost use Rattle.sql_eval.specs.Row.{values_of};
ghost use Rattle.row_index.specs.Changes as spec;

use mig_lens::Side;
use row_rules::{Change, Kept, half};
use sql_base::{Copying, List, NoMemory, Unique, Value};
use std::alloc::Global;
use uniq_index::UniqIndex;

/// What is done to what an index has under a key.
#[derive(Drop)]
pub enum IndexChange {
    /// It has these values under it.
    Put(i64, List<Value>),
    /// It has none.
    Remove(i64),
}

// The value at a place of a row, or NULL where it has none there.
fn value_at(alloc: Global, row: &[Value], at: u32) -> Result<Value, NoMemory>
    ensures { IfOk result (λ value. value ≡ slice_index_or row.now at Null) }
{
    match row.get(at as usize) {
        Some(value) => value.copy(alloc),
        None => Ok(Value::Null),
    }
}

fn column_values(alloc: Global, unique: &Unique, row: &[Value]) -> Result<List<Value>, NoMemory>
    ensures { IfOk result (λ values. values ≡ values_of unique.now row.now) }
{
    let mut values = List::new(alloc);
    for at in unique.columns.as_slice() {
        values.push(value_at(alloc, row, *at)?)?;
    }
    Ok(values)
}

/// What a row that is put comes to in the index of a unique constraint of a side.
pub fn row_change(
    alloc: Global,
    unique: &Unique,
    side: Side,
    row: &Kept,
) -> Result<IndexChange, NoMemory>
    ensures { IfOk result (λ made. made ≡ spec.row_change unique.now side row.now) }
{
    match half(side, &row.halves) {
        Some(values) => {
            let values = column_values(alloc, unique, values.as_slice())?;
            Ok(IndexChange::Put(row.key, values))
        }
        None => Ok(IndexChange::Remove(row.key)),
    }
}

fn index_change(
    alloc: Global,
    unique: &Unique,
    side: Side,
    change: &Change,
) -> Result<IndexChange, NoMemory>
    ensures { IfOk result (λ made. made ≡ spec.index_change unique.now side change.now) }
{
    match change {
        Change::Put(row) => row_change(alloc, unique, side, row),
        Change::Remove(key) => Ok(IndexChange::Remove(*key)),
    }
}

fn index_changes(
    alloc: Global,
    unique: &Unique,
    side: Side,
    changes: &[Change],
) -> Result<List<IndexChange>, NoMemory>
    ensures { IfOk result (λ all. all ≡ spec.index_changes side changes.now unique.now) }
{
    let mut all = List::new(alloc);
    for change in changes {
        all.push(index_change(alloc, unique, side, change)?)?;
    }
    Ok(all)
}

/// What changes come to in the index of each of these unique constraints of a side, in their order. An error is want of
/// memory.
pub fn prepare(
    alloc: Global,
    uniques: &[Unique],
    side: Side,
    changes: &[Change],
) -> Result<List<List<IndexChange>>, NoMemory>
    ensures { IfOk result (λ all. all ≡ spec.prepared uniques.now side changes.now) }
{
    let mut all = List::new(alloc);
    for unique in uniques {
        all.push(index_changes(alloc, unique, side, changes)?)?;
    }
    Ok(all)
}

/// Puts a change into an index, where there is room for one.
pub fn put_change(index: &mut UniqIndex, change: IndexChange)
    requires { 1 ≤ index.old.spare }
    ensures entries { index.new.entries ≡ spec.put_change change index.old.entries }
    ensures room { index.old.spare ≤ index.new.spare + 1 }
{
    match change {
        IndexChange::Put(key, values) => {
            index.put_reserved(key, values);
        }
        IndexChange::Remove(key) => {
            index.remove(key);
        }
    }
}

/// Puts these changes into an index, where there is room for them.
pub fn put_all(index: &mut UniqIndex, changes: List<IndexChange>)
    requires { length changes ≤ index.old.spare }
    ensures { index.new.entries ≡ spec.put_all changes index.old.entries }
{
    for change in changes.into_vec() {
        put_change(index, change);
    }
}
