//! Places in the vector of rows, whose keys rise, and what is read there.
ghost use Rattle.std.specs.Prelude.{◌≡◌, true, is_some, slice_get};
ghost use Rattle.std.specs.FinMap as map;
ghost use Rattle.std.specs.Option.{option_copied, option_map};
ghost use Rattle.std.specs.Ordering.{int_cmp, is_le};
ghost use Rattle.std.specs.List as list;
ghost use Rattle.row_store.specs.Place as spec;

use sql_base::{List, Value};
use std::cmp::Ordering;

/// A key and its row.
pub type Entry = (i64, List<Value>);

/// How many rows at the front have lesser keys than this one.
pub fn place(rows: &[Entry], key: i64) -> usize
    requires { map.is_sorted int_cmp rows.now ≡ true }
    ensures { result ≡ spec.place key rows.now }
{
    let mut low = 0;
    let mut high = rows.len();
    while low < high {
        let middle = low + (high - low) / 2;
        match key.cmp(&rows[middle].0) {
            Ordering::Greater => low = middle + 1,
            _ => high = middle,
        }
    }
    low
}

/// The row at this place, if its key is this one.
fn row_at(rows: &[Entry], at: usize, key: i64) -> Option<&[Value]>
    ensures { option_copied result ≡ spec.value_at key (slice_get rows.now at) }
{
    match rows.get(at) {
        Some(entry) if entry.0 == key => Some(entry.1.as_slice()),
        _ => None,
    }
}

/// Whether the row at this place has this key.
pub fn has_key_at(rows: &[Entry], at: usize, key: i64) -> bool
    ensures { result ≡ is_some (spec.value_at key (slice_get rows.now at)) }
{
    row_at(rows, at, key).is_some()
}

/// The row of this key.
pub fn row_of(rows: &[Entry], key: i64) -> Option<&[Value]>
    requires { map.is_sorted int_cmp rows.now ≡ true }
    ensures { option_copied result ≡ map.find int_cmp key rows.now }
{
    row_at(rows, place(rows, key), key)
}

fn pair_of(entry: &Entry) -> (i64, &[Value])
    ensures { (result.0, result.1.now) ≡ entry.now }
{
    (entry.0, entry.1.as_slice())
}

/// The key and the row at this place.
pub fn pair_at(rows: &[Entry], at: usize) -> Option<(i64, &[Value])>
    ensures { option_map (λ pair. (pair.0, pair.1.now)) result ≡ slice_get rows.now at }
{
    match rows.get(at) {
        Some(entry) => Some(pair_of(entry)),
        None => None,
    }
}

/// The first key that isn't below this one, with its row.
pub fn pair_from(rows: &[Entry], key: i64) -> Option<(i64, &[Value])>
    requires { map.is_sorted int_cmp rows.now ≡ true }
    ensures { option_map (λ pair. (pair.0, pair.1.now)) result
        ≡ list.find (λ entry. is_le (int_cmp key entry.0)) rows.now }
{
    pair_at(rows, place(rows, key))
}
