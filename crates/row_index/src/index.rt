//! The indexes of a side of a table.
ghost use Rattle.std.specs.Prelude.{◌≡◌, ◌≤◌, [], IfOk, OnOk, nat_eq};
ghost use Rattle.std.specs.Cmp.Lexicographic.{pointwise};
ghost use Rattle.std.specs.List.{AllByRecursion};
ghost use Rattle.std.specs.Option.{option_map};
ghost use Rattle.row_rules.specs.Accept.{present};
ghost use Rattle.row_rules.specs.Rows.{Ascends};
ghost use Rattle.row_index.specs.Changes as changing;
ghost use Rattle.row_index.specs.Indexes as spec;

use crate::building::indexes_of;
use crate::changes::{IndexChange, prepare, put_all};
use mig_lens::Side;
use row_rules::{Change, TableRows};
use sql_base::{Copying, List, NoMemory, Unique, Value};
use std::alloc::Global;
use std::marker::Model;
use uniq_index::UniqIndex;

/// The unique constraints of a side of a table, and of each, in their order, the values that rows have in its columns, by
/// key.
///
/// Contracts see the constraints, and the list of their indexes, each of them as its entries and its room for new keys.
#[derive(Drop)]
pub struct SideIndex {
    uniques: List<Unique>,
    indexes: Vec<UniqIndex>,
}

impl Model for SideIndex {
    ghost use Rattle.row_index.specs.Indexes.{SideIndexed, side_code};

    ghost Value = { SideIndexed };

    ghost coded = { side_code };

    ghost view = { λ it. record { uniques = it.uniques; indexes = it.indexes.items } };
}

// Makes room in each index for as many new keys.
fn reserve_each(indexes: &mut [UniqIndex], n: u32) -> Result<(), NoMemory>
    ensures same { spec.entries_of indexes.new ≡ spec.entries_of indexes.old }
    ensures room { OnOk result (AllByRecursion (λ index. n ≤ index.spare) indexes.new) }
{
    for index in indexes.iter_mut() {
        index.reserve(n)?;
    }
    Ok(())
}

// Puts into each index its changes, where there is room for them.
fn put_each(indexes: &mut [UniqIndex], prepared: List<List<IndexChange>>)
    requires { changing.HaveRoom prepared indexes.old }
    ensures { spec.entries_of indexes.new ≡ changing.put_each prepared (spec.entries_of indexes.old) }
{
    let mut at = 0;
    for changes in prepared.into_vec() {
        put_all(&mut indexes[at], changes);
        at += 1;
    }
}

fn copied(alloc: Global, uniques: &[Unique]) -> Result<List<Unique>, NoMemory>
    ensures { IfOk result (λ copy. copy ≡ uniques.now) }
{
    let mut copy = List::new(alloc);
    for unique in uniques {
        copy.push(unique.copy(alloc)?)?;
    }
    Ok(copy)
}

// Whether two constraints are of the same columns.
fn same_columns(unique: &Unique, other: &Unique) -> bool
    ensures { result ≡ pointwise nat_eq unique.now.columns other.now.columns }
{
    unique.columns.as_slice() == other.columns.as_slice()
}

// What the index of a constraint's columns answers, if these constraints have one.
fn answer_of(
    uniques: &[Unique],
    indexes: &[UniqIndex],
    unique: &Unique,
    values: &[Value],
    keys: &[i64],
) -> Option<bool>
    ensures { result ≡ option_map (spec.has_beside unique.now values.now keys.now) (spec.entries_for unique.now uniques.now (spec.entries_of indexes.now)) }
{
    for (at, other) in uniques.iter().enumerate() {
        if same_columns(other, unique) {
            return match indexes.get(at) {
                Some(index) => Some(index.row_clash(unique, values, keys).is_some()),
                None => None,
            };
        }
    }
    None
}

impl SideIndex {
    /// No index, as where there is no unique constraint.
    pub fn new(alloc: Global) -> SideIndex
        ensures { result ≡ record { uniques = []; indexes = [] } }
    {
        SideIndex {
            uniques: List::new(alloc),
            indexes: Vec::new(alloc),
        }
    }

    /// The indexes of these unique constraints of a side over rows that ascend by key. One row is looked at after
    /// another. An error is want of memory.
    pub fn build<T: TableRows>(
        alloc: Global,
        uniques: &[Unique],
        side: Side,
        rows: &T,
    ) -> Result<SideIndex, NoMemory>
        requires { Ascends (T.rows rows.now) }
        ensures uniques { IfOk result (λ index. index.uniques ≡ uniques.now) }
        ensures over { IfOk result (spec.IsOver (present side (T.rows rows.now))) }
    {
        let indexes = indexes_of(alloc, uniques, side, rows)?;
        let uniques = copied(alloc, uniques)?;
        Ok(SideIndex { uniques, indexes })
    }

    /// The unique constraints that have an index, in its order.
    pub fn uniques(&self) -> &[Unique]
        ensures { result.now ≡ self.now.uniques }
    {
        self.uniques.as_slice()
    }

    /// Whether the index of a unique constraint has under a key, none of these, the values that a half has in the columns
    /// of the constraint, none of them NULL. It is the index of the first constraint that is of the same columns; where
    /// none is there is no answer. It takes no memory.
    pub fn other_alike(&self, unique: &Unique, values: &[Value], keys: &[i64]) -> Option<bool>
        ensures { result ≡ option_map (spec.has_beside unique.now values.now keys.now) (spec.entries_for unique.now self.now.uniques (spec.entries_of self.now.indexes)) }
    {
        answer_of(
            self.uniques.as_slice(),
            self.indexes.as_slice(),
            unique,
            values,
            keys,
        )
    }

    /// What changes to a side's rows come to in each index, in their order. An error is want of memory.
    pub fn prepare(
        &self,
        alloc: Global,
        side: Side,
        changes: &[Change],
    ) -> Result<List<List<IndexChange>>, NoMemory>
        ensures { IfOk result (λ all. all ≡ changing.prepared self.now.uniques side changes.now) }
    {
        prepare(alloc, self.uniques.as_slice(), side, changes)
    }

    /// Makes room in each index for as many new keys. An error is want of memory. The constraints and the values stay as
    /// they are.
    pub fn reserve(&mut self, n: u32) -> Result<(), NoMemory>
        ensures uniques { self.new.uniques ≡ self.old.uniques }
        ensures same { spec.entries_of self.new.indexes ≡ spec.entries_of self.old.indexes }
        ensures room { OnOk result (AllByRecursion (λ index. n ≤ index.spare) self.new.indexes) }
    {
        reserve_each(self.indexes.as_mut_slice(), n)
    }

    /// Puts into each index the changes that were prepared for it. There must be room for them. It takes no memory and
    /// can't fail.
    pub fn apply(&mut self, prepared: List<List<IndexChange>>)
        requires { changing.HaveRoom prepared self.old.indexes }
        ensures uniques { self.new.uniques ≡ self.old.uniques }
        ensures entries { spec.entries_of self.new.indexes ≡ changing.put_each prepared (spec.entries_of self.old.indexes) }
    {
        put_each(self.indexes.as_mut_slice(), prepared);
    }
}
