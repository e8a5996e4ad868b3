//! The rows of a SELECT.
ghost use Rattle.std.specs.Prelude.{◌≡◌, ◌++◌, OnOk, map, option_to_list};
ghost use Rattle.sql_base.specs.Outcome.{Gives, every};
ghost use Rattle.sql_base.specs.declared.faults.EvalFault.TheVariants as EvalFault;
ghost use Rattle.sql_eval.specs.Eval.{eval};
ghost use Rattle.row_rules.specs.Causes.{max_reply};
ghost use Rattle.row_rules.specs.Inner as inner;
ghost use Rattle.row_rules.specs.Outcome.{Answers};
ghost use Rattle.row_rules.specs.Show as spec;
ghost use Rattle.row_rules.specs.Site as sites;

use crate::causes::long_reply;
use crate::changing::passes;
use crate::halves::shown;
use crate::kinds::{Kept, SqlError};
use crate::outcomes::in_statement;
use crate::rows::TableRows;
use crate::sites::SiteRef;
use crate::stops::Stop;
use sql_base::{EvalFault, Expr, Items, List, NoMemory, Shape, Value, try_map};
use sql_eval::eval;
use std::alloc::Global;

/// The most rows of one SELECT.
pub const MAX_REPLY: usize = 10_000;

/// The values of these expressions over a row, from left to right.
pub fn evaluated(
    alloc: Global,
    shape: &Shape,
    items: &[Expr],
    row: &[Value],
) -> Result<List<Value>, EvalFault>
    ensures { Gives EvalFault.NoMemory (every (map (eval shape.now row.now) items.now)) result }
{
    try_map(alloc, items, |item| eval(alloc, item, shape, row))
}

// What is asked for of one row.
fn picked(
    alloc: Global,
    items: &Items,
    shape: &Shape,
    row: List<Value>,
) -> Result<List<Value>, EvalFault>
    ensures { Gives EvalFault.NoMemory (spec.picked items.now shape.now row) result }
{
    match items {
        Items::All => Ok(row),
        Items::Listed(items) => evaluated(alloc, shape, items.as_slice(), row.as_slice()),
    }
}

fn has_passed(
    alloc: Global,
    site: SiteRef<'_>,
    condition: &Option<Expr>,
    row: &Kept,
) -> Result<bool, Stop<SqlError>>
    ensures { Answers (inner.passes_asked (sites.site_of site.entry) condition.now row.now) result }
{
    let values = shown(alloc, site, &row.halves)?;
    in_statement(
        alloc,
        row.key,
        passes(alloc, &site.here.2, condition, values.as_slice()),
    )
}

fn values_asked(
    alloc: Global,
    site: SiteRef<'_>,
    items: &Items,
    row: &Kept,
) -> Result<List<Value>, Stop<SqlError>>
    ensures { Answers (inner.values_asked (sites.site_of site.entry) items.now row.now) result }
{
    let values = shown(alloc, site, &row.halves)?;
    in_statement(alloc, row.key, picked(alloc, items, &site.here.2, values))
}

fn row_asked(
    alloc: Global,
    site: SiteRef<'_>,
    items: &Items,
    room: usize,
    row: &Kept,
) -> Result<List<Value>, Stop<SqlError>>
    ensures { Answers (spec.row_asked (sites.site_of site.entry) items.now room row.now) result }
{
    if room == 0 {
        return Err(Stop::Because(long_reply(alloc)?));
    }
    values_asked(alloc, site, items, row)
}

fn passed_asked(
    alloc: Global,
    site: SiteRef<'_>,
    items: &Items,
    room: usize,
    row: &Kept,
) -> Result<Option<List<Value>>, Stop<SqlError>>
    ensures { Answers (inner.passed_asked (sites.site_of site.entry) items.now room row.now) result }
{
    let values = row_asked(alloc, site, items, room, row)?;
    Ok(Some(values))
}

// What one row comes to, where so many rows may still be shown.
fn row_shown(
    alloc: Global,
    site: SiteRef<'_>,
    items: &Items,
    condition: &Option<Expr>,
    room: usize,
    row: &Kept,
) -> Result<Option<List<Value>>, Stop<SqlError>>
    ensures { Answers (spec.row_shown (sites.site_of site.entry) items.now condition.now room row.now) result }
{
    match has_passed(alloc, site, condition, row) {
        Ok(true) => passed_asked(alloc, site, items, room, row),
        Ok(false) => Ok(None),
        Err(stop) => Err(stop),
    }
}

// How many rows may still be shown after this one.
fn room_after(room: usize, shown: &Option<List<Value>>) -> usize
    ensures { result ≡ spec.room_after room shown.now }
{
    match shown {
        Some(_) => room.saturating_sub(1),
        None => room,
    }
}

// Appends what one row comes to, where it is shown.
fn push_shown(all: &mut List<List<Value>>, shown: Option<List<Value>>) -> Result<(), NoMemory>
    ensures { OnOk result (all.new ≡ all.old ++ option_to_list shown) }
{
    match shown {
        Some(values) => all.push(values),
        None => Ok(()),
    }
}

/// What a SELECT shows of these rows, one after another: each row's WHERE and its items before the next row's. A fault
/// comes with the row's key; the row after the 10,000th that passes is 54000.
pub fn rows_shown<T: TableRows>(
    alloc: Global,
    site: SiteRef<'_>,
    items: &Items,
    condition: &Option<Expr>,
    rows: &T,
) -> Result<List<List<Value>>, Stop<SqlError>>
    ensures { Answers (spec.rows_shown (sites.site_of site.entry) items.now condition.now max_reply (T.rows rows.now)) result }
{
    let mut all = List::new(alloc);
    let mut room = MAX_REPLY;
    for at in 0..rows.count() {
        let row = rows.row_at(alloc, at)?;
        let shown = row_shown(alloc, site, items, condition, room, &row)?;
        room = room_after(room, &shown);
        push_shown(&mut all, shown)?;
    }
    Ok(all)
}
