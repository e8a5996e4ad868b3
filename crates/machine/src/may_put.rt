//! Whether rows that come from outside may be put into a table of a state.
ghost use Rattle.std.specs.Prelude.{◌≡◌, ◌+◌, IfOk, is_none, length, nat_lt};
ghost use Rattle.std.specs.List.{list_all};
ghost use Rattle.std.specs.Option.{option_copied, option_map};
ghost use Rattle.mig_lens.specs.Layout.{has_mark, is_make};
ghost use Rattle.row_rules.specs.Accept as accept;
ghost use Rattle.row_rules.specs.Changes as rules;
ghost use Rattle.row_rules.specs.Site as sites;
ghost use Rattle.machine.specs.MayPut as spec;
ghost use Rattle.machine.specs.Plain as plain;
ghost use Rattle.machine.specs.PutSteps as steps;
ghost use Rattle.machine.specs.Standing as standing;
ghost use Rattle.machine.specs.Statement.{max_rows};

use crate::rows::MAX_ROWS;
use crate::states::State;
use crate::tables::{SharedTable, beside_on, shared, table_on};
use mig_lens::{Cell, Kind, Lens, Side};
use row_rules::{
    BesideRef, Change, Job, Kept, SiteRef, Stop, Table, TableRows, cause_together, changes,
};
use sql_base::{Copying, List, NoMemory, Shape, Value, row_fits, weight};
use std::alloc::Global;

// The heaviest half of a row.
const MAX_WEIGHT: u64 = 4_096;

// ---- whether a row stands

// The integer at the key's place of a row, or 0 where none stands there.
fn key_of(shape: &Shape, row: &[Value]) -> i64
    ensures { result ≡ sites.key_of shape.now row.now }
{
    match row.get(shape.key as usize) {
        Some(Value::Int(key)) => *key,
        _ => 0,
    }
}

fn half_stands(table: Option<&Table>, key: i64, half: &Option<List<Value>>) -> bool
    ensures { result ≡ spec.half_stands (option_copied table.entry) key half.now }
{
    match (table, half) {
        (Some(table), Some(values)) => {
            row_fits(&table.2, values.as_slice()) && key_of(&table.2, values.as_slice()) == key
        }
        (None, None) => true,
        (Some(_), None) | (None, Some(_)) => false,
    }
}

fn is_make(cell: &Cell) -> bool
    ensures { result ≡ is_make cell.now }
{
    match cell {
        Cell::Make(_) => true,
        Cell::Carry(_) | Cell::Still(_) => false,
    }
}

// Whether a new column has to be made.
fn is_marked(lens: &Lens) -> bool
    ensures { result ≡ has_mark lens.now }
{
    lens.new_cols.as_slice().iter().any(is_make)
}

// Whether a new half may be missing.
fn may_miss(pair: Option<SharedTable<'_>>) -> bool
    ensures { result ≡ standing.may_miss (option_map plain.pair pair.entry) }
{
    match pair {
        Some(pair) => is_marked(pair.lens),
        None => false,
    }
}

fn new_stands(misses: bool, table: Option<&Table>, key: i64, half: &Option<List<Value>>) -> bool
    ensures { result ≡ spec.new_stands misses (option_copied table.entry) key half.now }
{
    (misses && half.is_none()) || half_stands(table, key, half)
}

fn stands(frame: &State, number: u32, row: &Kept) -> bool
    ensures { result ≡ spec.stands_row frame.now number row.now }
{
    let old = table_on(frame, Side::Old, number);
    let new = table_on(frame, Side::New, number);
    let misses = may_miss(shared(frame, number));
    half_stands(old, row.key, &row.halves.old) && new_stands(misses, new, row.key, &row.halves.new)
}

// ---- whether a row is lawful

// What the new version has of a table of which a new column has to be made.
fn made_beside<'a>(pair: Option<SharedTable<'a>>) -> Option<BesideRef<'a>>
    ensures { option_map sites.beside_of result ≡ steps.made_beside (option_map plain.pair pair.entry) }
{
    match pair {
        Some(pair) => {
            if is_marked(pair.lens) {
                Some(beside_on(Side::Old, pair))
            } else {
                None
            }
        }
        None => None,
    }
}

// The site through which rows are looked at, where the old version has the table.
fn looking_site(frame: &State, number: u32) -> Option<SiteRef<'_>>
    ensures { option_map sites.site_of result ≡ steps.looking_site frame.now number }
{
    match table_on(frame, Side::Old, number) {
        Some(old) => Some(SiteRef {
            side: Side::Old,
            here: old,
            there: made_beside(shared(frame, number)),
            lost: 0,
        }),
        None => None,
    }
}

fn is_heavy(half: &Option<List<Value>>) -> bool
    ensures { result ≡ accept.is_heavy half.now }
{
    match half {
        Some(values) => weight(values.as_slice()) > MAX_WEIGHT,
        None => false,
    }
}

fn is_light(row: &Kept) -> bool
    ensures { result ≡ is_none (accept.weight_cause row.now) }
{
    !is_heavy(&row.halves.old) && !is_heavy(&row.halves.new)
}

// Whether nothing is wrong with a row that is looked at through this site of the old version: to fill it there changes
// nothing.
fn is_sound(alloc: Global, site: SiteRef<'_>, row: &Kept) -> Result<bool, NoMemory>
    requires { site.side ≡ Side.Old }
    ensures { IfOk result (λ sound. sound ≡ is_none (accept.wrong (sites.site_of site.entry) row.now)) }
{
    let row = Some(row.copy(alloc)?);
    match changes(alloc, site, &Job::Fill, &row) {
        Ok(_) => Ok(true),
        Err(Stop::Because(_)) => Ok(false),
        Err(Stop::NoMemory) => Err(NoMemory),
    }
}

fn is_lawful(alloc: Global, frame: &State, number: u32, row: &Kept) -> Result<bool, NoMemory>
    ensures { IfOk result (λ lawful. lawful ≡ spec.lawful_row frame.now number row.now) }
{
    match looking_site(frame, number) {
        Some(site) => is_sound(alloc, site, row),
        None => Ok(is_light(row)),
    }
}

// Whether rows may have lost weights.
fn may_lose(frame: &State) -> bool
    ensures { result ≡ standing.may_lose frame.now.kind frame.now.left }
{
    match frame.kind {
        Kind::Nothing => false,
        Kind::Complete => frame.left == 2,
        Kind::Rollback => frame.left == 1,
    }
}

// Whether a row has a lost weight only where rows may have one.
fn loses_rightly(frame: &State, row: &Kept) -> bool
    ensures { result ≡ spec.lost_row frame.now row.now }
{
    may_lose(frame) || row.lost == 0
}

fn may_hold(alloc: Global, frame: &State, number: u32, row: &Kept) -> Result<bool, NoMemory>
    ensures { IfOk result (λ may. may ≡ spec.may_hold frame.now number row.now) }
{
    if stands(frame, number, row) && loses_rightly(frame, row) {
        return is_lawful(alloc, frame, number, row);
    }
    Ok(false)
}

// ---- all rows that are put

fn key_changed(change: &Change) -> i64
    ensures { result ≡ rules.key_changed change.now }
{
    match change {
        Change::Put(row) => row.key,
        Change::Remove(key) => *key,
    }
}

fn is_changed(key: i64, later: &[Change]) -> bool
    ensures { result ≡ spec.is_changed key later.now }
{
    for change in later {
        if key == key_changed(change) {
            return true;
        }
    }
    false
}

fn put_holds(alloc: Global, frame: &State, number: u32, change: &Change) -> Result<bool, NoMemory>
    ensures { IfOk result (λ may. may ≡ steps.put_holds frame.now number change.now) }
{
    match change {
        Change::Put(row) => may_hold(alloc, frame, number, row),
        Change::Remove(_) => Ok(true),
    }
}

// Whether the row that a change puts may be one of the table, or a later change is of its key.
fn left_holds(
    alloc: Global,
    frame: &State,
    number: u32,
    change: &Change,
    later: &[Change],
) -> Result<bool, NoMemory>
    ensures { IfOk result (λ may. may ≡ steps.left_holds frame.now number change.now later.now) }
{
    let holds = put_holds(alloc, frame, number, change)?;
    Ok(holds || is_changed(key_changed(change), later))
}

fn rows_hold(
    alloc: Global,
    frame: &State,
    number: u32,
    changes: &[Change],
) -> Result<bool, NoMemory>
    ensures { IfOk result (λ may. may ≡ list_all (spec.may_hold frame.now number) (spec.rows_left changes.now)) }
{
    for (at, change) in changes.iter().enumerate() {
        if !left_holds(alloc, frame, number, change, &changes[at + 1..])? {
            return Ok(false);
        }
    }
    Ok(true)
}

// ---- how many rows there would be

fn is_put(change: &Change) -> bool
    ensures { result ≡ steps.is_put change.now }
{
    match change {
        Change::Put(_) => true,
        Change::Remove(_) => false,
    }
}

// How many rows the changes leave written.
fn rows_left(changes: &[Change]) -> usize
    ensures { result ≡ length (spec.rows_left changes.now) }
{
    let mut count = 0;
    for (at, change) in changes.iter().enumerate() {
        if is_put(change) && !is_changed(key_changed(change), &changes[at + 1..]) {
            count += 1;
        }
    }
    count
}

// Whether a change that is its key's last one replaces or removes an older row.
fn takes<T: TableRows>(older: &T, change: &Change, later: &[Change]) -> bool
    ensures { result ≡ steps.takes (T.rows older.now) change.now later.now }
{
    let key = key_changed(change);
    older.has_key(key) && !is_changed(key, later)
}

// How many older rows they replace or remove.
fn rows_gone<T: TableRows>(older: &T, changes: &[Change]) -> usize
    ensures { result ≡ spec.rows_gone (T.rows older.now) changes.now }
{
    let mut count = 0;
    for (at, change) in changes.iter().enumerate() {
        if takes(older, change, &changes[at + 1..]) {
            count += 1;
        }
    }
    count
}

// Whether a change puts a row of a key that no older row has.
fn is_fresh<T: TableRows>(older: &T, change: &Change) -> bool
    ensures { result ≡ steps.is_fresh (T.rows older.now) change.now }
{
    is_put(change) && !older.has_key(key_changed(change))
}

fn fresh_rows<T: TableRows>(older: &T, changes: &[Change]) -> usize
    ensures { result ≡ steps.fresh_rows (T.rows older.now) changes.now }
{
    let mut count = 0;
    for change in changes {
        if is_fresh(older, change) {
            count += 1;
        }
    }
    count
}

// Whether there are more rows than there may be, where to so many these come and these go.
fn passes_limit(count: u64, come: u64, gone: u64) -> bool
    ensures { result ≡ nat_lt (max_rows + gone) (count + come) }
{
    if come <= gone {
        count > MAX_ROWS.saturating_add(gone - come)
    } else {
        count.saturating_add(come - gone) > MAX_ROWS
    }
}

// Rows of fresh keys alone can pass the limit, so mostly it isn't looked at which changes are their keys' last.
fn too_many<T: TableRows>(older: &T, count: u64, changes: &[Change]) -> bool
    ensures { result ≡ spec.too_many (T.rows older.now) count changes.now }
{
    if !passes_limit(count, fresh_rows(older, changes) as u64, 0) {
        return false;
    }
    passes_limit(
        count,
        rows_left(changes) as u64,
        rows_gone(older, changes) as u64,
    )
}

// ---- all of it

// Whether no row that is put clashes with another one.
fn stand_apart<T: TableRows>(
    alloc: Global,
    frame: &State,
    number: u32,
    older: &T,
    changes: &[Change],
) -> Result<bool, NoMemory>
    ensures { IfOk result (λ apart. apart ≡ steps.stand_apart frame.now number (T.rows older.now) changes.now) }
{
    match looking_site(frame, number) {
        Some(site) => {
            let cause = cause_together(alloc, site, &Job::Fill, older, changes)?;
            Ok(cause.is_none())
        }
        None => Ok(true),
    }
}

/// Whether these changes may be made in the table of a number of a state, as a record from outside brings them:
/// exactly where the state afterwards stands and is lawful (`laws::rows_put_keep_states`). `frame` is the state, of
/// which its versions and its steps of tidying are looked at alone; `older` are the table's rows, and `count` is the
/// number of rows in all tables. No order of the changes is asked for: of each key the last one counts. Older rows are
/// copied only where they don't ascend by key and a version has a unique constraint. An error is want of memory. The
/// rule is our own.
pub fn may_put<T: TableRows>(
    alloc: Global,
    frame: &State,
    number: u32,
    older: &T,
    count: u64,
    changes: &[Change],
) -> Result<bool, NoMemory>
    ensures { IfOk result (λ may. may ≡ spec.may_put_beside frame.now number (T.rows older.now) count changes.now) }
{
    if too_many(older, count, changes) {
        return Ok(false);
    }
    if !rows_hold(alloc, frame, number, changes)? {
        return Ok(false);
    }
    stand_apart(alloc, frame, number, older, changes)
}
