//! Look-ups that go over all entries.
ghost use Rattle.std.specs.Prelude.{◌≡◌, map as each, slice_get, slice_index_or};
ghost use Rattle.std.specs.FinMap as map;
ghost use Rattle.sql_base.specs.declared.values.Value.TheVariants.{Null};
ghost use Rattle.sql_eval.specs.Row.{all_alike};
ghost use Rattle.uniq_index.specs.Indexed as indexed;
ghost use Rattle.uniq_index.specs.Scan as spec;

use row_store::RowStore;
use sql_base::Value;
use sql_eval::operate::alike;

/// Values that are looked for.
#[derive(Clone, Copy)]
pub enum Sought<'a> {
    /// These, in this order.
    Listed(&'a [Value]),
    /// What a row has in the columns of these places.
    Row(&'a [u32], &'a [Value]),
}

// Whether these are the same values, none of them NULL.
#[tactic(auto, using(crate::proofs::Unlike::different_lengths))]
fn are_alike(one: &[Value], two: &[Value]) -> bool
    ensures { result ≡ all_alike one.now two.now }
{
    if one.len() != two.len() {
        return false;
    }
    for (at, value) in one.iter().enumerate() {
        if !alike(value, &two[at]) {
            return false;
        }
    }
    true
}

// Whether a row has these values in the columns of these places, none of them NULL.
#[tactic(auto, using(crate::proofs::Unlike::different_columns))]
fn has_alike(columns: &[u32], row: &[Value], values: &[Value]) -> bool
    ensures { result ≡ all_alike (each (λ at. slice_index_or row.now at Null) columns.now) values.now }
{
    if columns.len() != values.len() {
        return false;
    }
    for (at, column) in columns.iter().enumerate() {
        match row.get(*column as usize) {
            Some(value) => {
                if !alike(value, &values[at]) {
                    return false;
                }
            }
            None => return false,
        }
    }
    true
}

fn is_sought(sought: Sought<'_>, values: &[Value]) -> bool
    ensures { result ≡ all_alike (spec.values_sought sought.entry) values.now }
{
    match sought {
        Sought::Listed(listed) => are_alike(listed, values),
        Sought::Row(columns, row) => has_alike(columns, row, values),
    }
}

fn is_among(key: i64, keys: &[i64]) -> bool
    ensures { result ≡ indexed.is_among key keys.now }
{
    keys.iter().any(|other| key == *other)
}

// The key of the entry at this place, where it is none of these, and the entry has these values.
fn key_at(entries: &RowStore, at: usize, sought: Sought<'_>, keys: &[i64]) -> Option<i64>
    ensures { result ≡ spec.key_at (spec.values_sought sought.entry) keys.now (slice_get (map.entries entries.now.rows) at) }
{
    match entries.at(at) {
        Some((other, values)) if !is_among(other, keys) && is_sought(sought, values) => Some(other),
        _ => None,
    }
}

/// The least key, none of these, that has these values, none of them NULL. Keys rise, so the first is the least.
pub fn least_beside(entries: &RowStore, sought: Sought<'_>, keys: &[i64]) -> Option<i64>
    ensures { result ≡ indexed.clash_beside entries.now.rows (spec.values_sought sought.entry) keys.now }
{
    for at in 0..entries.len() {
        let found = key_at(entries, at, sought, keys);
        if found.is_some() {
            return found;
        }
    }
    None
}
