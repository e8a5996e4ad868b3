//! Which written rows are accepted.
ghost use Rattle.std.specs.Prelude.{◌≡◌, IfOk};
ghost use Rattle.std.specs.List.{list_any};
ghost use Rattle.std.specs.Map.{lookup};
ghost use Rattle.std.specs.Option.{option_copied, option_map};
ghost use Rattle.std.specs.Ordering.{int_eq};
ghost use Rattle.constraint.specs.Valid.{row_broken};
ghost use Rattle.sql_eval.specs.Row as row_spec;
ghost use Rattle.row_rules.specs.Accept as spec;
ghost use Rattle.row_rules.specs.Inner as inner;
ghost use Rattle.row_rules.specs.Outcome.{Answers, first_some};
ghost use Rattle.row_rules.specs.Site as sites;

use crate::causes::{constraint_cause, heavy_cause, row_code};
use crate::halves::{half, other};
use crate::kinds::{Cause, Kept, Table};
use crate::rows::TableRows;
use crate::sites::{BesideRef, SiteRef};
use crate::stops::Stop;
use constraint::{are_alike, broken_name, check_fault, not_null_name, null_at, with_least};
use mig_lens::Side;
use sql_base::{Code, List, Name, NoMemory, Unique, Value, weight};
use std::alloc::Global;

/// The heaviest half of a row.
pub const MAX_WEIGHT: u64 = 4_096;

// ---- one row

// What a half of a row of a table doesn't meet, NULL in a NOT NULL column before the checks: the code and the
// constraint's name.
fn half_fault(alloc: Global, table: &Table, row: &[Value]) -> Result<Option<(Code, Name)>, NoMemory>
    ensures { IfOk result (λ fault. fault ≡ inner.half_fault table.now row.now) }
{
    match null_at(table.2.columns.as_slice(), row) {
        Some(at) => {
            let name = not_null_name(alloc, &table.0, &table.2, at)?;
            Ok(Some((Code::C23502, name)))
        }
        None => match check_fault(alloc, &table.2, row)? {
            Some(fault) => {
                let name = broken_name(alloc, &table.0, &table.2, fault)?;
                Ok(Some((row_code(fault), name)))
            }
            None => Ok(None),
        },
    }
}

// What is wrong with a half of a row of a table.
fn half_cause(
    alloc: Global,
    table: &Table,
    key: i64,
    row: &[Value],
) -> Result<Option<Cause>, NoMemory>
    ensures { IfOk result (λ cause. cause ≡ spec.half_cause table.now key row.now) }
{
    match half_fault(alloc, table, row)? {
        Some((code, name)) => Ok(Some(Cause {
            code,
            name: Some(name),
            key,
        })),
        None => Ok(None),
    }
}

/// The constraint of a table that a half of a row doesn't meet, with the row's key.
pub fn half_broken(
    alloc: Global,
    table: &Table,
    key: i64,
    row: &[Value],
) -> Result<Option<(Name, i64)>, NoMemory>
    ensures { IfOk result (λ broken. broken ≡ row_broken (sites.name_of table.now) (sites.shape_of table.now) (key, row.now)) }
{
    match half_fault(alloc, table, row)? {
        Some((_, name)) => Ok(Some((name, key))),
        None => Ok(None),
    }
}

fn side_cause(
    alloc: Global,
    table: Option<&Table>,
    key: i64,
    half: &Option<List<Value>>,
) -> Result<Option<Cause>, NoMemory>
    ensures { IfOk result (λ cause. cause ≡ spec.side_cause (option_copied table.entry) key half.now) }
{
    match (table, half) {
        (Some(table), Some(values)) => half_cause(alloc, table, key, values.as_slice()),
        _ => Ok(None),
    }
}

fn is_heavy(half: &Option<List<Value>>) -> bool
    ensures { result ≡ spec.is_heavy half.now }
{
    match half {
        Some(values) => weight(values.as_slice()) > MAX_WEIGHT,
        None => false,
    }
}

fn weight_cause(alloc: Global, row: &Kept) -> Result<Option<Cause>, NoMemory>
    ensures { IfOk result (λ cause. cause ≡ spec.weight_cause row.now) }
{
    if is_heavy(&row.halves.old) || is_heavy(&row.halves.new) {
        Ok(Some(heavy_cause(alloc, row.key)?))
    } else {
        Ok(None)
    }
}

// What the other version has of a table, where both have it.
fn table_beside<'a>(there: Option<BesideRef<'a>>) -> Option<&'a Table>
    ensures { option_copied result ≡ option_map (λ beside. beside.table.now) there.entry }
{
    match there {
        Some(beside) => Some(beside.table),
        None => None,
    }
}

fn wrong(alloc: Global, site: SiteRef<'_>, row: &Kept) -> Result<Option<Cause>, NoMemory>
    ensures { IfOk result (λ cause. cause ≡ spec.wrong (sites.site_of site.entry) row.now) }
{
    let written = half(site.side, &row.halves);
    if let Some(cause) = side_cause(alloc, Some(site.here), row.key, written)? {
        return Ok(Some(cause));
    }
    let derived = half(other(site.side), &row.halves);
    if let Some(cause) = side_cause(alloc, table_beside(site.there), row.key, derived)? {
        return Ok(Some(cause));
    }
    weight_cause(alloc, row)
}

/// The row, where nothing is wrong with it as one that is written through this site.
pub fn sound(alloc: Global, site: SiteRef<'_>, row: Kept) -> Result<Kept, Stop<Cause>>
    ensures { Answers (spec.sound (sites.site_of site.entry) row) result }
{
    match wrong(alloc, site, &row)? {
        None => Ok(row),
        Some(cause) => Err(Stop::Because(cause)),
    }
}

// ---- all written rows together

// The half that a side has of the first row of this key that has such a half.
fn half_at<'a>(side: Side, rows: &'a [Kept], key: i64) -> Option<&'a List<Value>>
    ensures { option_copied result ≡ lookup (int_eq key) (spec.present side rows.now) }
{
    for row in rows {
        if let Some(values) = half(side, &row.halves) {
            if key == row.key {
                return Some(values);
            }
        }
    }
    None
}

// Whether a row has another key than this one, and these values in the columns of a unique constraint.
fn other_has(unique: &Unique, side: Side, key: i64, values: &[Value], row: &Kept) -> bool
    ensures { result ≡ inner.other_has unique.now side key values.now row.now }
{
    match half(side, &row.halves) {
        Some(others) => { row.key != key && are_alike(unique, values, others.as_slice()) }
        None => false,
    }
}

// Whether one of these rows does.
fn another_has(unique: &Unique, side: Side, key: i64, values: &[Value], rows: &[Kept]) -> bool
    ensures { result ≡ list_any (inner.other_has unique.now side key values.now) rows.now }
{
    rows.iter()
        .any(|row| other_has(unique, side, key, values, row))
}

// Whether the row of this key among the written ones has the values of another written one, or of an older one of none of
// these keys.
fn clashes_at<T: TableRows>(
    alloc: Global,
    unique: &Unique,
    side: Side,
    written: &[Kept],
    older: &T,
    keys: &[i64],
    key: i64,
) -> Result<bool, NoMemory>
    ensures { IfOk result (λ found. found ≡ inner.clashes_beside unique.now side written.now (T.rows older.now) keys.now key) }
{
    match half_at(side, written, key) {
        Some(values) => {
            if another_has(unique, side, key, values.as_slice(), written) {
                return Ok(true);
            }
            older.other_alike(alloc, side, unique, values.as_slice(), keys)
        }
        None => Ok(false),
    }
}

fn least_clash<T: TableRows>(
    alloc: Global,
    unique: &Unique,
    side: Side,
    written: &[Kept],
    older: &T,
    keys: &[i64],
) -> Result<Option<i64>, NoMemory>
    ensures { IfOk result (λ key. key ≡ inner.least_beside unique.now side written.now (T.rows older.now) keys.now) }
{
    let mut least = None;
    let mut at = keys.len();
    while at > 0 {
        at -= 1;
        let counts = clashes_at(alloc, unique, side, written, older, keys, keys[at])?;
        least = with_least(keys[at], counts, least);
    }
    Ok(least)
}

fn unique_cause<T: TableRows>(
    alloc: Global,
    unique: &Unique,
    side: Side,
    written: &[Kept],
    older: &T,
    keys: &[i64],
) -> Result<Option<Cause>, NoMemory>
    ensures { IfOk result (λ cause. cause ≡ inner.unique_beside side written.now (T.rows older.now) keys.now unique.now) }
{
    match least_clash(alloc, unique, side, written, older, keys)? {
        Some(key) => Ok(Some(constraint_cause(alloc, Code::C23505, unique.name.as_slice(), key)?)),
        None => Ok(None),
    }
}

fn uniques_cause<T: TableRows>(
    alloc: Global,
    uniques: &[Unique],
    side: Side,
    written: &[Kept],
    older: &T,
    keys: &[i64],
) -> Result<Option<Cause>, NoMemory>
    ensures { IfOk result (λ cause. cause ≡ first_some (inner.unique_beside side written.now (T.rows older.now) keys.now) uniques.now) }
{
    for unique in uniques {
        if let Some(cause) = unique_cause(alloc, unique, side, written, older, keys)? {
            return Ok(Some(cause));
        }
    }
    Ok(None)
}

// Why written rows of these keys aren't accepted beside each other and the older rows of other keys, through a side that
// may not have the table.
fn clashes_on<T: TableRows>(
    alloc: Global,
    table: Option<&Table>,
    side: Side,
    written: &[Kept],
    older: &T,
    keys: &[i64],
) -> Result<Option<Cause>, NoMemory>
    ensures { IfOk result (λ cause. cause ≡ inner.on_beside (option_copied table.entry) side written.now (T.rows older.now) keys.now) }
{
    match table {
        Some(table) => uniques_cause(
            alloc,
            table.2.uniques.as_slice(),
            side,
            written,
            older,
            keys,
        ),
        None => Ok(None),
    }
}

/// Why written rows of these keys aren't accepted beside each other and the older rows of other keys, through both sides,
/// the written one first.
pub fn clashes<T: TableRows>(
    alloc: Global,
    site: SiteRef<'_>,
    written: &[Kept],
    older: &T,
    keys: &[i64],
) -> Result<Option<Cause>, NoMemory>
    ensures { IfOk result (λ cause. cause ≡ inner.all_beside (sites.site_of site.entry) written.now (T.rows older.now) keys.now) }
{
    let here = clashes_on(alloc, Some(site.here), site.side, written, older, keys)?;
    if here.is_some() {
        return Ok(here);
    }
    let there = table_beside(site.there);
    clashes_on(alloc, there, other(site.side), written, older, keys)
}
