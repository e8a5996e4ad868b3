//! The halves of a row: what it shows through a side, and how one half is made of the other one.
ghost use Rattle.std.specs.Prelude.{◌≡◌, [], IfOk, unwrap_or};
ghost use Rattle.std.specs.Option.{option_copied, option_map};
ghost use Rattle.sql_base.specs.Outcome.{Gives};
ghost use Rattle.sql_base.specs.declared.faults.EvalFault.TheVariants as EvalFault;
ghost use Rattle.row_rules.specs.Site as spec;

use crate::kinds::Halves;
use crate::sites::{BesideRef, SiteRef};
use mig_lens::{Side, backward, forward, unfilled};
use sql_base::{Copying, EvalFault, List, NoMemory, Shape, Value};
use std::alloc::Global;

/// The half of a row that a side has.
pub fn half(side: Side, halves: &Halves) -> &Option<List<Value>>
    ensures { result.now ≡ spec.half side halves.now }
{
    match side {
        Side::Old => &halves.old,
        Side::New => &halves.new,
    }
}

/// The other side.
pub fn other(side: Side) -> Side
    ensures { result ≡ spec.other side }
{
    match side {
        Side::Old => Side::New,
        Side::New => Side::Old,
    }
}

/// The values of a half, where there is one.
pub fn values_of(half: &Option<List<Value>>) -> Option<&[Value]>
    ensures { option_copied result ≡ half.now }
{
    match half {
        Some(values) => Some(values.as_slice()),
        None => None,
    }
}

/// The values of a half, or none where there is no half.
pub fn values_or_none(half: &Option<List<Value>>) -> &[Value]
    ensures { result.now ≡ unwrap_or half.now [] }
{
    match half {
        Some(values) => values.as_slice(),
        None => &[],
    }
}

/// The halves of a row that has this half on a side, and on the other one that half, where it has any.
pub fn halves_on(side: Side, here: List<Value>, there: Option<List<Value>>) -> Halves
    ensures { result ≡ spec.halves_on side here there }
{
    match side {
        Side::Old => Halves {
            old: Some(here),
            new: there,
        },
        Side::New => Halves {
            old: there,
            new: Some(here),
        },
    }
}

/// The integer at the key's place of a row, or 0 where none stands there.
pub fn key_of(shape: &Shape, row: &[Value]) -> i64
    ensures { result ≡ spec.key_of shape.now row.now }
{
    match row.get(shape.key as usize) {
        Some(Value::Int(key)) => *key,
        _ => 0,
    }
}

// ---- what a row shows

fn copy_or_empty(alloc: Global, half: &Option<List<Value>>) -> Result<List<Value>, NoMemory>
    ensures { IfOk result (λ copy. copy ≡ unwrap_or half.now []) }
{
    match half {
        Some(values) => values.copy(alloc),
        None => Ok(List::new(alloc)),
    }
}

fn shown_unfilled(
    alloc: Global,
    there: Option<BesideRef<'_>>,
    halves: &Halves,
) -> Result<List<Value>, NoMemory>
    ensures { IfOk result (λ values. values ≡ spec.shown_unfilled (option_map spec.beside_of there.entry) halves.now) }
{
    match there {
        Some(beside) => unfilled(alloc, beside.lens, values_or_none(&halves.old)),
        None => Ok(List::new(alloc)),
    }
}

/// What a row of these halves shows through a site.
pub fn shown(alloc: Global, site: SiteRef<'_>, halves: &Halves) -> Result<List<Value>, NoMemory>
    ensures { IfOk result (λ values. values ≡ spec.shown (spec.site_of site.entry) halves.now) }
{
    match site.side {
        Side::Old => copy_or_empty(alloc, &halves.old),
        Side::New => match &halves.new {
            Some(values) => values.copy(alloc),
            None => shown_unfilled(alloc, site.there, halves),
        },
    }
}

// ---- how halves are made

fn half_beside(
    alloc: Global,
    side: Side,
    shape: &Shape,
    beside: BesideRef<'_>,
    half: &[Value],
    before: Option<&[Value]>,
) -> Result<List<Value>, EvalFault>
    ensures { Gives EvalFault.NoMemory (spec.half_beside side shape.now (spec.beside_of beside.entry) half.now (option_copied before.entry)) result }
{
    match side {
        Side::Old => forward(alloc, beside.lens, shape, half, before),
        Side::New => backward(alloc, beside.lens, shape, half, before),
    }
}

/// The other half of a row whose written half is this one, with the other half before it; none where the other version
/// doesn't have the table.
pub fn other_half(
    alloc: Global,
    site: SiteRef<'_>,
    half: &[Value],
    before: &Option<List<Value>>,
) -> Result<Option<List<Value>>, EvalFault>
    ensures { Gives EvalFault.NoMemory (spec.other_half (spec.site_of site.entry) half.now before.now) result }
{
    match site.there {
        Some(beside) => {
            let before = values_of(before);
            let made = half_beside(alloc, site.side, &site.here.2, beside, half, before)?;
            Ok(Some(made))
        }
        None => Ok(None),
    }
}

// These halves with a new half that is made of the old one.
fn filled(alloc: Global, beside: BesideRef<'_>, halves: Halves) -> Result<Halves, EvalFault>
    ensures { Gives EvalFault.NoMemory (spec.filled (spec.beside_of beside.entry) halves) result }
{
    let old = values_or_none(&halves.old);
    let made = forward(alloc, beside.lens, &beside.table.2, old, None)?;
    Ok(Halves {
        old: halves.old,
        new: Some(made),
    })
}

/// The halves that a write through a site begins with: through the new version a missing new half is made first.
pub fn touched(alloc: Global, site: SiteRef<'_>, halves: Halves) -> Result<Halves, EvalFault>
    ensures { Gives EvalFault.NoMemory (spec.touched (spec.site_of site.entry) halves) result }
{
    match (site.side, site.there) {
        (Side::New, Some(beside)) if halves.new.is_none() => filled(alloc, beside, halves),
        _ => Ok(halves),
    }
}
