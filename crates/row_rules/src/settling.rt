//! The names and types of a statement.
ghost use Rattle.std.specs.Prelude.{◌≡◌, IfOk, map};
ghost use Rattle.std.specs.List.{enumerate_from};
ghost use Rattle.sql_base.specs.Outcome.{every};
ghost use Rattle.sql_eval.specs.Typing as typing;
ghost use Rattle.row_rules.specs.Inner as inner;
ghost use Rattle.row_rules.specs.Outcome.{Answers, first_some};
ghost use Rattle.row_rules.specs.Settle as spec;

use crate::causes::{bare_error, named_error, untyped};
use crate::kinds::{Job, SqlError};
use crate::outcomes::try_first;
use crate::stops::Stop;
use sql_base::{Code, Copying, Expr, Items, List, Name, NoMemory, Shape, Ty, TypeFault, try_map};
use sql_eval::type_of;
use std::alloc::Global;

// ---- types

// Whether an expression of this type, or NULL, stands for a value of the wanted one.
fn fits(wanted: Ty, found: Option<Ty>) -> bool
    ensures { result ≡ typing.fits wanted found }
{
    match found {
        None => true,
        Some(ty) => ty == wanted,
    }
}

/// Why an expression doesn't stand for a value of this type over a shape.
pub fn mistyped(
    alloc: Global,
    shape: &Shape,
    ty: Ty,
    expr: &Expr,
) -> Result<Option<SqlError>, NoMemory>
    ensures { IfOk result (λ error. error ≡ spec.mistyped shape.now ty expr.now) }
{
    match type_of(alloc, expr, shape) {
        Ok(found) => {
            if fits(ty, found) {
                Ok(None)
            } else {
                Ok(Some(bare_error(Code::C42804)))
            }
        }
        Err(TypeFault::NoMemory) => Err(NoMemory),
        Err(fault) => Ok(Some(untyped(fault))),
    }
}

fn has_no_type(alloc: Global, shape: &Shape, expr: &Expr) -> Result<Option<SqlError>, NoMemory>
    ensures { IfOk result (λ error. error ≡ spec.has_no_type shape.now expr.now) }
{
    match type_of(alloc, expr, shape) {
        Ok(_) => Ok(None),
        Err(TypeFault::NoMemory) => Err(NoMemory),
        Err(fault) => Ok(Some(untyped(fault))),
    }
}

fn condition_error(
    alloc: Global,
    shape: &Shape,
    condition: &Option<Expr>,
) -> Result<Option<SqlError>, NoMemory>
    ensures { IfOk result (λ error. error ≡ spec.condition_error shape.now condition.now) }
{
    match condition {
        Some(condition) => mistyped(alloc, shape, Ty::Boolean, condition),
        None => Ok(None),
    }
}

/// Why an expression over a shape doesn't stand for a value of another shape's column of this place.
pub fn value_error(
    alloc: Global,
    over: &Shape,
    shape: &Shape,
    place: u32,
    expr: &Expr,
) -> Result<Option<SqlError>, NoMemory>
    ensures { IfOk result (λ error. error ≡ spec.value_error over.now shape.now (place, expr.now)) }
{
    match shape.columns.as_slice().get(place as usize) {
        Some(column) => mistyped(alloc, over, column.ty, expr),
        None => Ok(None),
    }
}

// ---- columns that are named

fn place_named(shape: &Shape, name: &Name) -> Option<usize>
    ensures { result ≡ spec.place_named shape.now name.now }
{
    shape
        .columns
        .as_slice()
        .iter()
        .position(|column| column.name.as_slice() == name.as_slice())
}

fn is_among(name: &Name, names: &[Name]) -> bool
    ensures { result ≡ inner.is_among name.now names.now }
{
    names
        .iter()
        .any(|other| name.as_slice() == other.as_slice())
}

/// The place of the column of a name that stands at a place among others: 42703 where there is none, 42701 where it was
/// named before. (A shape's places are below 2 ^ 32; one above would be answered as want of memory.)
pub fn named_once(
    alloc: Global,
    shape: &Shape,
    names: &[Name],
    at: usize,
    name: &Name,
) -> Result<u32, Stop<SqlError>>
    ensures { Answers (spec.named_once shape.now names.now (at, name.now)) result }
{
    match place_named(shape, name) {
        Some(place) => {
            if is_among(name, &names[..at.min(names.len())]) {
                return Err(Stop::Because(named_error(alloc, Code::C42701, name.as_slice())?));
            }
            match u32::try_from(place) {
                Ok(place) => Ok(place),
                Err(_) => Err(Stop::NoMemory),
            }
        }
        None => Err(Stop::Because(named_error(alloc, Code::C42703, name.as_slice())?)),
    }
}

// ---- UPDATE

// An assignment by its column's place.
fn set_settled(
    alloc: Global,
    shape: &Shape,
    names: &[Name],
    at: usize,
    set: &(Name, Expr),
) -> Result<(u32, Expr), Stop<SqlError>>
    ensures { Answers (spec.set_settled shape.now names.now (at, set.now)) result }
{
    let place = named_once(alloc, shape, names, at, &set.0)?;
    if place == shape.key {
        return Err(Stop::Because(named_error(alloc, Code::C0A000, set.0.as_slice())?));
    }
    match value_error(alloc, shape, shape, place, &set.1)? {
        Some(error) => Err(Stop::Because(error)),
        None => Ok((place, set.1.copy(alloc)?)),
    }
}

fn all_settled(
    alloc: Global,
    shape: &Shape,
    names: &[Name],
    sets: &[(Name, Expr)],
) -> Result<List<(u32, Expr)>, Stop<SqlError>>
    ensures { Answers (every (map (spec.set_settled shape.now names.now) (enumerate_from 0 sets.now))) result }
{
    let mut settled = List::new(alloc);
    for (at, set) in sets.iter().enumerate() {
        match set_settled(alloc, shape, names, at, set) {
            Ok(set) => settled.push(set)?,
            Err(stop) => return Err(stop),
        }
    }
    Ok(settled)
}

fn names_set(alloc: Global, sets: &[(Name, Expr)]) -> Result<List<Name>, NoMemory>
    ensures { IfOk result (λ names. names ≡ map (λ set. set.0) sets.now) }
{
    try_map(alloc, sets, |set| set.0.copy(alloc))
}

fn sets_settled(
    alloc: Global,
    shape: &Shape,
    sets: &[(Name, Expr)],
) -> Result<List<(u32, Expr)>, Stop<SqlError>>
    ensures { Answers (spec.sets_settled shape.now sets.now) result }
{
    let names = names_set(alloc, sets)?;
    all_settled(alloc, shape, names.as_slice(), sets)
}

fn altering(
    alloc: Global,
    shape: &Shape,
    sets: List<(u32, Expr)>,
    condition: &Option<Expr>,
) -> Result<Job, Stop<SqlError>>
    ensures { Answers (inner.altering shape.now sets condition.now) result }
{
    match condition_error(alloc, shape, condition)? {
        Some(error) => Err(Stop::Because(error)),
        None => Ok(Job::Alter(sets, condition.copy(alloc)?)),
    }
}

/// What an UPDATE does to rows of this shape. Assignment by assignment: 42703, 42701, 0A000 for the key, the expression's
/// faults, 42804 against the column; then the WHERE, whose own faults come before 42804 where it isn't boolean.
pub fn update_job(
    alloc: Global,
    shape: &Shape,
    sets: &[(Name, Expr)],
    condition: &Option<Expr>,
) -> Result<Job, Stop<SqlError>>
    ensures { Answers (spec.update_job shape.now sets.now condition.now) result }
{
    match sets_settled(alloc, shape, sets) {
        Ok(sets) => altering(alloc, shape, sets, condition),
        Err(stop) => Err(stop),
    }
}

// ---- DELETE

/// What a DELETE does to rows of this shape, or why its WHERE isn't accepted.
pub fn delete_job(
    alloc: Global,
    shape: &Shape,
    condition: &Option<Expr>,
) -> Result<Job, Stop<SqlError>>
    ensures { Answers (spec.delete_job shape.now condition.now) result }
{
    match condition_error(alloc, shape, condition)? {
        Some(error) => Err(Stop::Because(error)),
        None => Ok(Job::Remove(condition.copy(alloc)?)),
    }
}

// ---- SELECT

fn first_untyped(alloc: Global, shape: &Shape, items: &[Expr]) -> Result<Option<SqlError>, NoMemory>
    ensures { IfOk result (λ error. error ≡ first_some (spec.has_no_type shape.now) items.now) }
{
    try_first(items, |item| has_no_type(alloc, shape, item))
}

fn items_error(alloc: Global, shape: &Shape, items: &Items) -> Result<Option<SqlError>, NoMemory>
    ensures { IfOk result (λ error. error ≡ spec.items_error shape.now items.now) }
{
    match items {
        Items::All => Ok(None),
        Items::Listed(items) => first_untyped(alloc, shape, items.as_slice()),
    }
}

/// Why the items or the WHERE of a SELECT aren't accepted over this shape.
pub fn query_error(
    alloc: Global,
    shape: &Shape,
    items: &Items,
    condition: &Option<Expr>,
) -> Result<Option<SqlError>, NoMemory>
    ensures { IfOk result (λ error. error ≡ spec.query_error shape.now items.now condition.now) }
{
    match items_error(alloc, shape, items)? {
        Some(error) => Ok(Some(error)),
        None => condition_error(alloc, shape, condition),
    }
}
