//! Values by key.
ghost use Rattle.std.specs.Prelude.{◌≡◌, ◌+◌, ◌≤◌, IsNone, IsSome, OnOk};
ghost use Rattle.std.specs.FinMap as map;
ghost use Rattle.sql_eval.specs.Row.{values_of};
ghost use Rattle.uniq_index.specs.Indexed.{clash_beside, clash_in};

use crate::scanning::{Sought, least_beside};
use row_store::RowStore;
use sql_base::{List, NoMemory, Unique, Value};
use std::alloc::Global;
use std::marker::Model;

/// The values that a table's rows have in the columns of one unique constraint, each row's under
/// its key.
///
/// Contracts see the map from keys to values, and beside it how many new keys may be put before
/// memory is asked for again (`spare`). That the entries lie in the order of their keys is kept by
/// the type of the store that has them.
#[derive(Drop)]
pub struct UniqIndex {
    entries: RowStore,
}

impl Model for UniqIndex {
    ghost use Rattle.uniq_index.specs.Indexed.{Indexed, indexed_code};

    ghost Value = { Indexed };

    ghost coded = { indexed_code };

    ghost view = { λ it. record { entries = it.entries.rows; spare = it.entries.spare } };
}

impl UniqIndex {
    /// No values, and room for none.
    pub fn new(alloc: Global) -> UniqIndex
        ensures { result.entries ≡ map.empty }
    {
        UniqIndex {
            entries: RowStore::new(alloc),
        }
    }

    /// The least other key with these values, or none, also where one of them is NULL.
    #[tactic(auto, using(crate::proofs::Beside::beside_one_key))]
    pub fn clash(&self, values: &[Value], key: i64) -> Option<i64>
        ensures { result ≡ clash_in self.now.entries values.now key }
    {
        self.clash_beside(values, &[key])
    }

    /// The least key, none of these, with these values, or none, also where one of them is NULL.
    pub fn clash_beside(&self, values: &[Value], keys: &[i64]) -> Option<i64>
        ensures { result ≡ clash_beside self.now.entries values.now keys.now }
    {
        least_beside(&self.entries, Sought::Listed(values), keys)
    }

    /// The same with the values that a row has in the columns of a unique constraint. It takes no memory.
    pub fn row_clash(&self, unique: &Unique, row: &[Value], keys: &[i64]) -> Option<i64>
        ensures { result ≡ clash_beside self.now.entries (values_of unique.now row.now) keys.now }
    {
        least_beside(
            &self.entries,
            Sought::Row(unique.columns.as_slice(), row),
            keys,
        )
    }

    /// Makes room for as many new keys. An error is want of memory. The values stay as they are.
    pub fn reserve(&mut self, n: u32) -> Result<(), NoMemory>
        ensures same { self.new.entries ≡ self.old.entries }
        ensures room { OnOk result (n ≤ self.new.spare) }
        ensures kept { self.old.spare ≤ self.new.spare }
    {
        self.entries.reserve(n)
    }

    /// Puts values under a key, and gives those that were there. There must be room, or values
    /// under the key.
    pub fn put_reserved(&mut self, key: i64, values: List<Value>) -> Option<List<Value>>
        requires { IsNone (map.get self.old.entries key) → 1 ≤ self.old.spare }
        ensures former { result ≡ map.get self.old.entries key }
        ensures entries { self.new.entries ≡ map.insert self.old.entries key values }
        ensures room { self.old.spare ≤ self.new.spare + 1 }
        ensures kept { IsSome result → self.old.spare ≤ self.new.spare }
    {
        self.entries.put_reserved(key, values)
    }

    /// Takes the values of this key away, and gives them.
    pub fn remove(&mut self, key: i64) -> Option<List<Value>>
        ensures former { result ≡ map.get self.old.entries key }
        ensures entries { self.new.entries ≡ map.remove self.old.entries key }
        ensures kept { self.old.spare ≤ self.new.spare }
    {
        self.entries.remove(key)
    }
}
