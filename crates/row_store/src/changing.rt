//! Changes of the vector of rows, whose keys rise.
ghost use Rattle.std.specs.Prelude.{◌≡◌, ◌+◌, ◌≤◌, ◌<◌, true, not, None, IsSome, insert, slice_get, slice_set, vec_capacity, vec_len, Some};
ghost use Rattle.std.specs.FinMap as map;
ghost use Rattle.std.specs.FinMap.Entries.{where_key};
ghost use Rattle.std.specs.Ordering.{eq_by_cmp, int_cmp};

use crate::places::{Entry, has_key_at, place};
use sql_base::{List, Value};
use std::mem::replace;

/// An entry in the place of the one at this place, which is given.
fn exchange(rows: &mut Vec<Entry>, at: usize, entry: Entry) -> Entry
    requires { at < vec_len rows.old }
    ensures former { slice_get rows.old.items at ≡ Some result }
    ensures items { rows.new.items ≡ slice_set rows.old.items at entry }
    ensures len { vec_len rows.new ≡ vec_len rows.old }
    ensures room { vec_capacity rows.new ≡ vec_capacity rows.old }
{
    replace(&mut rows[at], entry)
}

/// One more entry at this place, for which there is room.
fn insert_reserved(rows: &mut Vec<Entry>, at: usize, entry: Entry)
    requires within { at ≤ vec_len rows.old }
    requires room { vec_len rows.old < vec_capacity rows.old }
    ensures items { rows.new.items ≡ insert rows.old.items at entry }
    ensures len { vec_len rows.new ≡ vec_len rows.old + 1 }
    ensures room { vec_capacity rows.new ≡ vec_capacity rows.old }
{
    match rows.insert(at, entry) {
        Ok(()) => {}
        Err(_) => unreachable!(),
    }
}

/// Puts a row under its key, and gives the row that was there. There must be room, or a row under the key.
pub fn put(rows: &mut Vec<Entry>, key: i64, row: List<Value>) -> Option<List<Value>>
    requires rises { map.is_sorted int_cmp rows.old.items ≡ true }
    requires room { map.find int_cmp key rows.old.items ≡ None → vec_len rows.old < vec_capacity rows.old }
    ensures former { result ≡ map.find int_cmp key rows.old.items }
    ensures items { rows.new.items ≡ map.put int_cmp key row rows.old.items }
    ensures len { vec_len rows.new ≤ vec_len rows.old + 1 }
    ensures kept { IsSome result → vec_len rows.new ≡ vec_len rows.old }
    ensures room { vec_capacity rows.new ≡ vec_capacity rows.old }
{
    let at = place(rows.as_slice(), key);
    if has_key_at(rows.as_slice(), at, key) {
        return Some(exchange(rows, at, (key, row)).1);
    }
    insert_reserved(rows, at, (key, row));
    None
}

/// Takes the row of this key away, and gives it.
pub fn take(rows: &mut Vec<Entry>, key: i64) -> Option<List<Value>>
    requires { map.is_sorted int_cmp rows.old.items ≡ true }
    ensures former { result ≡ map.find int_cmp key rows.old.items }
    ensures items { rows.new.items
        ≡ where_key int_cmp (λ other. not (eq_by_cmp int_cmp key other)) rows.old.items }
    ensures len { vec_len rows.new ≤ vec_len rows.old }
    ensures room { vec_capacity rows.new ≡ vec_capacity rows.old }
{
    let at = place(rows.as_slice(), key);
    if !has_key_at(rows.as_slice(), at, key) {
        return None;
    }
    Some(rows.remove(at).1)
}
