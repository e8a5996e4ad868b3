//! One row that is written: a new one, an updated one, or one that gets its new half.
ghost use Rattle.std.specs.Prelude.{◌≡◌, ◌==◌, IfOk, map};
ghost use Rattle.std.specs.Map.{lookup};
ghost use Rattle.std.specs.Option.{option_copied};
ghost use Rattle.sql_base.specs.Outcome.{Gives, every};
ghost use Rattle.sql_base.specs.declared.faults.EvalFault.TheVariants as EvalFault;
ghost use Rattle.row_rules.specs.Changes as spec;
ghost use Rattle.row_rules.specs.Inner as inner;
ghost use Rattle.row_rules.specs.Outcome.{Answers};
ghost use Rattle.row_rules.specs.Site as sites;

use crate::acceptance::sound;
use crate::causes::value_cause;
use crate::halves::{half, halves_on, key_of, other, other_half, touched, values_or_none};
use crate::kinds::{Cause, Halves, Kept};
use crate::outcomes::in_row;
use crate::sites::SiteRef;
use crate::stops::Stop;
use sql_base::{Copying, EvalFault, Expr, List, NoMemory, Shape, Value, try_map};
use sql_eval::eval;
use std::alloc::Global;

// The row of a key with this half on the written side, and with its other half.
fn made(
    alloc: Global,
    site: SiteRef<'_>,
    key: i64,
    lost: u64,
    before: &Option<List<Value>>,
    half: List<Value>,
) -> Result<Kept, Stop<Cause>>
    ensures { Answers (inner.made (sites.site_of site.entry) key lost before.now half) result }
{
    match other_half(alloc, site, half.as_slice(), before) {
        Ok(other) => Ok(Kept {
            key,
            halves: halves_on(site.side, half, other),
            lost,
        }),
        Err(EvalFault::NoMemory) => Err(Stop::NoMemory),
        Err(fault) => Err(Stop::Because(value_cause(alloc, key, fault)?)),
    }
}

// The same, where it is accepted.
fn remade(
    alloc: Global,
    site: SiteRef<'_>,
    key: i64,
    lost: u64,
    before: &Option<List<Value>>,
    half: List<Value>,
) -> Result<Kept, Stop<Cause>>
    ensures { Answers (spec.remade (sites.site_of site.entry) key lost before.now half) result }
{
    match made(alloc, site, key, lost, before, half) {
        Ok(row) => sound(alloc, site, row),
        Err(stop) => Err(stop),
    }
}

/// A new row of these values.
pub fn new_row(alloc: Global, site: SiteRef<'_>, values: &List<Value>) -> Result<Kept, Stop<Cause>>
    ensures { Answers (spec.new_row (sites.site_of site.entry) values.now) result }
{
    let values = values.copy(alloc)?;
    let key = key_of(&site.here.2, values.as_slice());
    remade(alloc, site, key, site.lost, &None, values)
}

// ---- UPDATE

// The value that is given for a place.
fn given_at(given: &[(u32, Value)], at: usize) -> Option<&Value>
    ensures { option_copied result ≡ lookup (λ place. place == at) given.now }
{
    for (place, value) in given {
        if *place as usize == at {
            return Some(value);
        }
    }
    None
}

fn value_given(
    alloc: Global,
    given: &[(u32, Value)],
    at: usize,
    value: &Value,
) -> Result<Value, NoMemory>
    ensures { IfOk result (λ chosen. chosen ≡ spec.value_given given.now (at, value.now)) }
{
    match given_at(given, at) {
        Some(new) => new.copy(alloc),
        None => value.copy(alloc),
    }
}

fn with_given(alloc: Global, given: &[(u32, Value)], row: &[Value]) -> Result<List<Value>, NoMemory>
    ensures { IfOk result (λ all. all ≡ spec.with_given given.now row.now) }
{
    let mut all = List::new(alloc);
    for (at, value) in row.iter().enumerate() {
        all.push(value_given(alloc, given, at, value)?)?;
    }
    Ok(all)
}

// The value of an assignment over a row as it was, with its place.
fn assigned(
    alloc: Global,
    shape: &Shape,
    row: &[Value],
    set: &(u32, Expr),
) -> Result<(u32, Value), EvalFault>
    ensures { Gives EvalFault.NoMemory (spec.assigned shape.now row.now set.now) result }
{
    let value = eval(alloc, &set.1, shape, row)?;
    Ok((set.0, value))
}

fn all_assigned(
    alloc: Global,
    shape: &Shape,
    sets: &[(u32, Expr)],
    row: &[Value],
) -> Result<List<(u32, Value)>, EvalFault>
    ensures { Gives EvalFault.NoMemory (every (map (spec.assigned shape.now row.now) sets.now)) result }
{
    try_map(alloc, sets, |set| assigned(alloc, shape, row, set))
}

fn altered(
    alloc: Global,
    shape: &Shape,
    sets: &[(u32, Expr)],
    row: &[Value],
) -> Result<List<Value>, EvalFault>
    ensures { Gives EvalFault.NoMemory (spec.altered shape.now sets.now row.now) result }
{
    let given = all_assigned(alloc, shape, sets, row)?;
    let values = with_given(alloc, given.as_slice(), row)?;
    Ok(values)
}

// The half that the assignments make of these halves of a row; a fault is the row's.
fn altered_half(
    alloc: Global,
    site: SiteRef<'_>,
    sets: &[(u32, Expr)],
    row: &Kept,
    halves: &Halves,
) -> Result<List<Value>, Stop<Cause>>
    ensures { Answers (inner.altered_half (sites.site_of site.entry) sets.now row.now halves.now) result }
{
    let before = values_or_none(half(site.side, halves));
    in_row(alloc, row.key, altered(alloc, &site.here.2, sets, before))
}

fn altered_halves(
    alloc: Global,
    site: SiteRef<'_>,
    sets: &[(u32, Expr)],
    row: &Kept,
    halves: &Halves,
) -> Result<Kept, Stop<Cause>>
    ensures { Answers (spec.altered_halves (sites.site_of site.entry) sets.now row.now halves.now) result }
{
    let values = altered_half(alloc, site, sets, row, halves)?;
    let beside = half(other(site.side), halves);
    remade(alloc, site, row.key, row.lost, beside, values)
}

// The halves that a write to a row begins with; a fault is the row's.
fn begun(alloc: Global, site: SiteRef<'_>, row: &Kept) -> Result<Halves, Stop<Cause>>
    ensures { Answers (inner.begun (sites.site_of site.entry) row.now) result }
{
    let halves = row.halves.copy(alloc)?;
    in_row(alloc, row.key, touched(alloc, site, halves))
}

/// The row after these assignments.
pub fn altered_row(
    alloc: Global,
    site: SiteRef<'_>,
    sets: &[(u32, Expr)],
    row: &Kept,
) -> Result<Kept, Stop<Cause>>
    ensures { Answers (spec.altered_row (sites.site_of site.entry) sets.now row.now) result }
{
    let halves = begun(alloc, site, row)?;
    altered_halves(alloc, site, sets, row, &halves)
}

// ---- FILL

/// The row with its new half.
pub fn filled_row(alloc: Global, site: SiteRef<'_>, row: &Kept) -> Result<Kept, Stop<Cause>>
    ensures { Answers (spec.filled_row (sites.site_of site.entry) row.now) result }
{
    let halves = begun(alloc, site, row)?;
    let filled = Kept {
        key: row.key,
        halves,
        lost: row.lost,
    };
    sound(alloc, site, filled)
}
