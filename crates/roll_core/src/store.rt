//! Tables as they are stored, and what is kept of a version that is gone.
ghost use Rattle.std.specs.Prelude.{◌≡◌, IfOk};
ghost use Rattle.roll_core.specs.Store as spec;

use crate::forms::{Form, halves_of, lost_of, misses_new};
use mig_lens::{Fate, Side};
use row_index::SideIndex;
use row_rules::{Kept, TableRows};
use row_store::RowStore;
use sql_base::{List, Name, NoMemory, Schema, Unique, Value};
use std::alloc::Global;
use std::marker::Model;

/// What is kept of a version that is gone, while steps of tidying are left: its name, its tables, what became of each of
/// them, and until the second step of completing or of rolling back the rows of those that it had alone.
#[derive(Drop)]
pub struct Former {
    /// Its name, without `public_`.
    pub version: Name,
    /// Its tables.
    pub schema: Schema,
    /// What became of each table, by its number.
    pub fates: List<(u32, Fate)>,
    /// The tables that it had alone, as they are stored, until the second step of completing or of rolling back.
    pub tables: Vec<StoredTable>,
}

/// A table as it is stored, and the indexes of its unique constraints.
///
/// Contracts see its number, its form and its rows. That an index has what the rows' halves of its side have in the columns
/// of its constraint is kept by the type.
#[derive(Drop)]
pub struct StoredTable {
    /// Its number.
    pub number: u32,
    /// The form of its rows.
    pub form: Form,
    /// Its rows, by key.
    pub rows: RowStore,
    /// The indexes of the old halves.
    pub old_index: SideIndex,
    /// The indexes of the new halves.
    pub new_index: SideIndex,
}

impl Model for StoredTable {
    ghost use Rattle.mig_lens.specs.declared.columns.Side.TheVariants.{Old, New};
    ghost use Rattle.row_index.specs.Indexes.{IsOver};
    ghost use Rattle.roll_core.specs.Own.{OwnTable, present_in};
    ghost use Rattle.row_store.specs.Stored.{stored_code};
    ghost use Rattle.sql_base.specs.contracts.exprs.Expr as expr;
    ghost use Rattle.std.specs.Coded.{codes};

    ghost Value = { OwnTable };

    ghost coded = { Prim.hlevel (codes, expr.the_row.coded, stored_code) };

    ghost view = { λ it. record { number = it.number; form = it.form; rows = it.rows } };

    ghost invariant = { λ it. IsOver (present_in Old it.form it.rows.rows) it.old_index × IsOver (present_in New it.form it.rows.rows) it.new_index };
}

impl StoredTable {
    /// A table with these rows, and with an index of each of these unique constraints of its old side and of its new side.
    /// An error is want of memory.
    pub fn new(
        alloc: Global,
        number: u32,
        form: Form,
        rows: RowStore,
        old: &[Unique],
        new: &[Unique],
    ) -> Result<StoredTable, NoMemory>
        ensures { IfOk result (λ table. table ≡ record { number = number; form = form; rows = rows }) }
    {
        let table = StoredTable {
            number,
            form,
            rows,
            old_index: SideIndex::new(alloc),
            new_index: SideIndex::new(alloc),
        };
        let old_index = SideIndex::build(alloc, old, Side::Old, &table)?;
        let new_index = SideIndex::build(alloc, new, Side::New, &table)?;
        Ok(StoredTable {
            number: table.number,
            form: table.form,
            rows: table.rows,
            old_index,
            new_index,
        })
    }
}

/// The row that is stored under a key. An error is want of memory.
pub fn kept(alloc: Global, form: &Form, key: i64, values: &[Value]) -> Result<Kept, NoMemory>
    ensures { IfOk result (λ row. row ≡ spec.kept form.now (key, values.now)) }
{
    let halves = halves_of(alloc, form, values)?;
    let lost = lost_of(alloc, form, values)?;
    Ok(Kept { key, halves, lost })
}

impl TableRows for StoredTable {
    ghost use Rattle.roll_core.specs.Store.{rows_meant};
    ghost use Rattle.roll_core.specs.Own.{seen};

    ghost rows = { λ table. rows_meant (seen table) };

    fn count(&self) -> usize {
        self.rows.len()
    }

    fn key_at(&self, at: usize) -> i64 {
        match self.rows.at(at) {
            Some((key, _)) => key,
            None => unreachable!(),
        }
    }

    fn misses_at(&self, at: usize) -> bool {
        match self.rows.at(at) {
            Some((_, values)) => misses_new(&self.form, values),
            None => unreachable!(),
        }
    }

    fn has_key(&self, key: i64) -> bool {
        self.rows.get(key).is_some()
    }

    fn row_at(&self, alloc: Global, at: usize) -> Result<Kept, NoMemory> {
        match self.rows.at(at) {
            Some((key, values)) => kept(alloc, &self.form, key, values),
            None => unreachable!(),
        }
    }

    fn ascend(&self) -> bool {
        true
    }

    fn other_alike(
        &self,
        alloc: Global,
        side: Side,
        unique: &Unique,
        values: &[Value],
        keys: &[i64],
    ) -> Result<bool, NoMemory> {
        row_index::laws::others_are_those_of_rows();
        let index = match side {
            Side::Old => &self.old_index,
            Side::New => &self.new_index,
        };
        match index.other_alike(unique, values, keys) {
            Some(found) => Ok(found),
            None => self.any_alike(alloc, side, unique, values, keys),
        }
    }
}
