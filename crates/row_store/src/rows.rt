//! Rows by key.
ghost use Rattle.std.specs.Prelude.{◌≡◌, ◌+◌, ◌≤◌, IsNone, IsSome, OnOk, OnErr, Some, slice_get};
ghost use Rattle.std.specs.FinMap as map;
ghost use Rattle.std.specs.Option.{option_copied, option_map};
ghost use Rattle.row_store.specs.Stored.{first_from};

use crate::changing::{put, take};
use crate::places::{Entry, pair_at, pair_from, row_of};
use sql_base::{List, NoMemory, Value};
use std::alloc::Global;
use std::marker::Model;

/// The rows of a table, each under its key.
///
/// Contracts see the map from keys to rows, and beside it how many new keys may be put before memory is asked for again (`spare`).
#[derive(Drop)]
pub struct RowStore {
    rows: Vec<Entry>,
}

impl Model for RowStore {
    ghost use Rattle.std.specs.Prelude.{◌-◌, ◌≡◌, true, vec_capacity, vec_len};
    ghost use Rattle.std.specs.FinMap.{from_sorted, is_sorted};
    ghost use Rattle.std.specs.Ordering.{int_cmp};
    ghost use Rattle.row_store.specs.Stored.{Stored, stored_code};

    ghost Value = { Stored };

    ghost coded = { stored_code };

    ghost view = { λ it. record { rows = from_sorted it.rows.items; spare = vec_capacity it.rows - vec_len it.rows } };

    ghost invariant = { λ it. is_sorted int_cmp it.rows.items ≡ true };
}

impl RowStore {
    /// No row, and room for none.
    pub fn new(alloc: Global) -> RowStore
        ensures { result.rows ≡ map.empty }
    {
        RowStore {
            rows: Vec::new(alloc),
        }
    }

    /// The number of rows.
    pub fn len(&self) -> usize
        ensures { result ≡ map.len self.now.rows }
    {
        self.rows.as_slice().len()
    }

    /// The row of this key.
    pub fn get(&self, key: i64) -> Option<&[Value]>
        ensures { option_copied result ≡ map.get self.now.rows key }
    {
        row_of(self.rows.as_slice(), key)
    }

    /// The key and the row at this place, from 0, in the order of the keys, or `None` past the last.
    pub fn at(&self, place: usize) -> Option<(i64, &[Value])>
        ensures { option_map (λ entry. (entry.0, entry.1.now)) result
            ≡ slice_get (map.entries self.now.rows) place }
    {
        pair_at(self.rows.as_slice(), place)
    }

    /// The least key that isn't below this one, with its row.
    pub fn scan_from(&self, key: i64) -> Option<(i64, &[Value])>
        ensures { option_map (λ entry. (entry.0, entry.1.now)) result ≡ first_from key self.now.rows }
    {
        pair_from(self.rows.as_slice(), key)
    }

    /// Makes room for as many new keys. An error is want of memory. The rows stay as they are.
    pub fn reserve(&mut self, n: u32) -> Result<(), NoMemory>
        ensures same { self.new.rows ≡ self.old.rows }
        ensures room { OnOk result (n ≤ self.new.spare) }
        ensures kept { self.old.spare ≤ self.new.spare }
    {
        self.rows.reserve(n as usize)?;
        Ok(())
    }

    /// Puts a row under its key, and gives the row that was there. There must be room, or a row under the key.
    pub fn put_reserved(&mut self, key: i64, row: List<Value>) -> Option<List<Value>>
        requires { IsNone (map.get self.old.rows key) → 1 ≤ self.old.spare }
        ensures former { result ≡ map.get self.old.rows key }
        ensures rows { self.new.rows ≡ map.insert self.old.rows key row }
        ensures room { self.old.spare ≤ self.new.spare + 1 }
        ensures kept { IsSome result → self.old.spare ≤ self.new.spare }
    {
        put(&mut self.rows, key, row)
    }

    /// Puts a row in the place of that under its key, and gives that. There must be one.
    pub fn replace(&mut self, key: i64, row: List<Value>) -> List<Value>
        requires { IsSome (map.get self.old.rows key) }
        ensures former { Some result ≡ map.get self.old.rows key }
        ensures rows { self.new.rows ≡ map.insert self.old.rows key row }
        ensures kept { self.old.spare ≤ self.new.spare }
    {
        match self.put_reserved(key, row) {
            Some(former) => former,
            None => unreachable!(),
        }
    }

    /// Takes the row of this key away, and gives it.
    pub fn remove(&mut self, key: i64) -> Option<List<Value>>
        ensures former { result ≡ map.get self.old.rows key }
        ensures rows { self.new.rows ≡ map.remove self.old.rows key }
        ensures kept { self.old.spare ≤ self.new.spare }
    {
        take(&mut self.rows, key)
    }
}
