//! Rows that can be looked at one by one, however they are kept.
ghost use Rattle.std.specs.Prelude.{◌≡◌, ◌<◌, true, Some, IfOk, is_none, length, slice_get, take};
ghost use Rattle.std.specs.List.{filter, list_any};
ghost use Rattle.std.specs.Option.{option_map};
ghost use Rattle.std.specs.Ordering.{int_eq};
ghost use Rattle.sql_eval.specs.Row.{least};
ghost use Rattle.row_rules.specs.Accept as accept;
ghost use Rattle.row_rules.specs.Rows.{Ascends, missing_keys};
ghost use Rattle.row_rules.specs.Site.{is_missing};

use crate::halves::half;
use crate::kinds::Kept;
use constraint::{are_alike, with_least};
use mig_lens::Side;
use sql_base::{Copying, List, NoMemory, Unique, Value};
use std::alloc::Global;
use std::cmp::Ordering;

fn is_among(key: i64, keys: &[i64]) -> bool
    ensures { result ≡ list_any (int_eq key) keys.now }
{
    keys.iter().any(|other| key == *other)
}

// Whether a row has none of these keys, and in its half of this side values like these in the columns of a unique
// constraint.
fn other_alike(unique: &Unique, side: Side, values: &[Value], keys: &[i64], row: &Kept) -> bool
    ensures { result ≡ accept.other_alike unique.now side values.now keys.now row.now }
{
    match half(side, &row.halves) {
        Some(others) => !is_among(row.key, keys) && are_alike(unique, values, others.as_slice()),
        None => false,
    }
}

/// The rows of a table, place by place.
pub trait TableRows {
    ghost use Rattle.std.specs.Prelude.{List};
    ghost use Rattle.row_rules.specs.declared.kinds.Kept.{Kept};

    /// What the versions have of each row, in order.
    ghost rows: { Self → List Kept };

    /// The number of rows.
    fn count(&self) -> usize
        ensures { result ≡ length (rows self.now) };

    /// The key of the row at a place.
    fn key_at(&self, at: usize) -> i64
        requires { at < length (rows self.now) }
        ensures { option_map (λ row. row.key) (slice_get (rows self.now) at) ≡ Some result };

    /// Whether the row at a place has no new half.
    fn misses_at(&self, at: usize) -> bool
        requires { at < length (rows self.now) }
        ensures { option_map (λ row. is_none row.halves.new) (slice_get (rows self.now) at) ≡ Some result };

    /// Whether a row has this key.
    fn has_key(&self, key: i64) -> bool
        ensures { result ≡ list_any (λ row. int_eq key row.key) (rows self.now) };

    /// The row at a place. An error is want of memory.
    fn row_at(&self, alloc: Global, at: usize) -> Result<Kept, NoMemory>
        requires { at < length (rows self.now) }
        ensures { IfOk result (λ row. slice_get (rows self.now) at ≡ Some row) };

    /// Whether the rows are known to ascend by key. It is false wherever they don't.
    fn ascend(&self) -> bool
        ensures { result ≡ true → Ascends (rows self.now) }
    {
        let mut at = self.count();
        while at > 1 {
            at -= 1;
            match self.key_at(at - 1).cmp(&self.key_at(at)) {
                Ordering::Less => {}
                Ordering::Equal | Ordering::Greater => return false,
            }
        }
        true
    }

    /// Whether a row that has none of these keys has, in its half of this side, values like these, none of them NULL, in
    /// the columns of a unique constraint. An error is want of memory.
    fn other_alike(
        &self,
        alloc: Global,
        side: Side,
        unique: &Unique,
        values: &[Value],
        keys: &[i64],
    ) -> Result<bool, NoMemory>
        ensures { IfOk result (λ found. found ≡ list_any (accept.other_alike unique.now side values.now keys.now) (rows self.now)) }
    {
        self.any_alike(alloc, side, unique, values, keys)
    }

    /// The same, by a look at one row after another.
    fn any_alike(
        &self,
        alloc: Global,
        side: Side,
        unique: &Unique,
        values: &[Value],
        keys: &[i64],
    ) -> Result<bool, NoMemory>
        ensures { IfOk result (λ found. found ≡ list_any (accept.other_alike unique.now side values.now keys.now) (rows self.now)) }
    {
        for at in 0..self.count() {
            let row = self.row_at(alloc, at)?;
            if other_alike(unique, side, values, keys, &row) {
                return Ok(true);
            }
        }
        Ok(false)
    }
}

impl TableRows for &[Kept] {
    ghost rows = { λ rows. rows.now };

    fn count(&self) -> usize {
        self.len()
    }

    fn key_at(&self, at: usize) -> i64 {
        self[at].key
    }

    fn misses_at(&self, at: usize) -> bool {
        self[at].halves.new.is_none()
    }

    fn has_key(&self, key: i64) -> bool {
        self.iter().any(|row| key == row.key)
    }

    fn row_at(&self, alloc: Global, at: usize) -> Result<Kept, NoMemory> {
        self[at].copy(alloc)
    }

    fn other_alike(
        &self,
        _alloc: Global,
        side: Side,
        unique: &Unique,
        values: &[Value],
        keys: &[i64],
    ) -> Result<bool, NoMemory> {
        Ok(
            self.iter()
                .any(|row| other_alike(unique, side, values, keys, row)),
        )
    }
}

/// One row or none, as where a statement reaches one key.
impl TableRows for Option<Kept> {
    ghost use Rattle.row_rules.specs.Reach.{row_alone};

    ghost rows = { λ row. row_alone row };

    fn count(&self) -> usize {
        match self {
            Some(_) => 1,
            None => 0,
        }
    }

    fn key_at(&self, _at: usize) -> i64 {
        match self {
            Some(row) => row.key,
            None => unreachable!(),
        }
    }

    fn misses_at(&self, _at: usize) -> bool {
        match self {
            Some(row) => row.halves.new.is_none(),
            None => unreachable!(),
        }
    }

    fn has_key(&self, key: i64) -> bool {
        match self {
            Some(row) => key == row.key,
            None => false,
        }
    }

    fn row_at(&self, alloc: Global, _at: usize) -> Result<Kept, NoMemory> {
        match self {
            Some(row) => row.copy(alloc),
            None => unreachable!(),
        }
    }

    fn other_alike(
        &self,
        _alloc: Global,
        side: Side,
        unique: &Unique,
        values: &[Value],
        keys: &[i64],
    ) -> Result<bool, NoMemory> {
        match self {
            Some(row) => Ok(other_alike(unique, side, values, keys, row)),
            None => Ok(false),
        }
    }
}

/// Whether one of these rows is still to be filled.
pub fn any_missing<T: TableRows>(rows: &T) -> bool
    ensures { result ≡ list_any is_missing (T.rows rows.now) }
{
    for at in 0..rows.count() {
        if rows.misses_at(at) {
            return true;
        }
    }
    false
}

/// The least key of the rows that are still to be filled.
pub fn least_missing<T: TableRows>(rows: &T) -> Option<i64>
    ensures { result ≡ least (missing_keys (T.rows rows.now)) }
{
    let mut least = None;
    let mut at = rows.count();
    while at > 0 {
        at -= 1;
        least = with_least(rows.key_at(at), rows.misses_at(at), least);
    }
    least
}

/// The first so many of the rows that are still to be filled.
pub fn missing_rows<T: TableRows>(alloc: Global, rows: &T, n: u32) -> Result<List<Kept>, NoMemory>
    ensures { IfOk result (λ all. all ≡ take n (filter is_missing (T.rows rows.now))) }
{
    let mut missing = List::new(alloc);
    for at in 0..rows.count() {
        if missing.len() >= n as usize {
            return Ok(missing);
        }
        if rows.misses_at(at) {
            missing.push(rows.row_at(alloc, at)?)?;
        }
    }
    Ok(missing)
}

/// All of these rows.
pub fn all_rows<T: TableRows>(alloc: Global, rows: &T) -> Result<List<Kept>, NoMemory>
    ensures { IfOk result (λ all. all ≡ T.rows rows.now) }
{
    let mut all = List::new(alloc);
    for at in 0..rows.count() {
        all.push(rows.row_at(alloc, at)?)?;
    }
    Ok(all)
}
