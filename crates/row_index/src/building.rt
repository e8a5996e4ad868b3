//! Indexes of values that are built from rows.
ghost use Rattle.std.specs.Prelude.{◌≡◌, IfOk, OnOk};
ghost use Rattle.uniq_index.specs.Laws.{Indexes};
ghost use Rattle.row_rules.specs.Accept.{present};
ghost use Rattle.row_rules.specs.Rows.{Ascends};
ghost use Rattle.row_index.specs.Changes as changes;
ghost use Rattle.row_index.specs.Indexes as spec;

use crate::changes::{put_change, row_change};
use crate::laws::changes_are_indexed;
use mig_lens::Side;
use row_rules::{Kept, TableRows};
use sql_base::{NoMemory, Unique};
use std::alloc::Global;
use uniq_index::UniqIndex;

// Puts a row's values into the index of a unique constraint of a side.
fn index_row(
    alloc: Global,
    index: &mut UniqIndex,
    unique: &Unique,
    side: Side,
    row: &Kept,
) -> Result<(), NoMemory>
    ensures { OnOk result (index.new.entries ≡ changes.put_change (changes.row_change unique.now side row.now) index.old.entries) }
{
    let change = row_change(alloc, unique, side, row)?;
    index.reserve(1)?;
    put_change(index, change);
    Ok(())
}

// The index of a unique constraint of a side. One row is looked at after another.
fn index_of<T: TableRows>(
    alloc: Global,
    unique: &Unique,
    side: Side,
    rows: &T,
) -> Result<UniqIndex, NoMemory>
    requires { Ascends (T.rows rows.now) }
    ensures { IfOk result (λ index. Indexes unique.now (present side (T.rows rows.now)) index.entries) }
{
    changes_are_indexed();
    let mut index = UniqIndex::new(alloc);
    for at in 0..rows.count() {
        let row = rows.row_at(alloc, at)?;
        index_row(alloc, &mut index, unique, side, &row)?;
    }
    Ok(index)
}

/// The indexes of these unique constraints of a side.
pub fn indexes_of<T: TableRows>(
    alloc: Global,
    uniques: &[Unique],
    side: Side,
    rows: &T,
) -> Result<Vec<UniqIndex>, NoMemory>
    requires { Ascends (T.rows rows.now) }
    ensures { IfOk result (λ indexes. spec.AreIndexed uniques.now (present side (T.rows rows.now)) (spec.entries_of indexes.items)) }
{
    let mut indexes = Vec::new(alloc);
    for unique in uniques {
        indexes.push(index_of(alloc, unique, side, rows)?)?;
    }
    Ok(indexes)
}
