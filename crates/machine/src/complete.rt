//! COMPLETE: the new version alone stands, and what is left of the old one is tidied away.
ghost use Rattle.std.specs.Prelude.{◌≡◌, IfOk};
ghost use Rattle.row_rules.specs.Outcome.{Answers};
ghost use Rattle.machine.specs.Migrate as spec;
ghost use Rattle.machine.specs.Plain.{replied, told};

use crate::events::Reply;
use crate::refusals::not_valid;
use crate::states::{Mode, State};
use crate::staying::{Ending, standing_alone, without_loss};
use crate::tables::{rows_of, shared, table_on};
use mig_lens::{Fate, Kind, Refusal, Side};
use row_rules::{Stop, least_missing};
use sql_base::{Copying, Name, NoMemory, Schema};
use std::alloc::Global;

// ---- rows that are still to be filled

fn not_filled_in(alloc: Global, s: &State, number: u32) -> Result<Option<Refusal>, NoMemory>
    ensures { IfOk result (λ refusal. refusal ≡ spec.not_filled_in s.now number) }
{
    match shared(s, number) {
        Some(pair) => match least_missing(&rows_of(s, number)) {
            Some(key) => Ok(Some(Refusal::NotFilled(pair.new.0.copy(alloc)?, key))),
            None => Ok(None),
        },
        None => Ok(None),
    }
}

// The least key that is still to be filled, of the first table that has one.
fn not_filled(alloc: Global, s: &State) -> Result<Option<Refusal>, NoMemory>
    ensures { IfOk result (λ refusal. refusal ≡ spec.not_filled s.now (spec.numbers_of s.now)) }
{
    for table in s.tables.as_slice() {
        if let Some(refusal) = not_filled_in(alloc, s, table.0)? {
            return Ok(Some(refusal));
        }
    }
    Ok(None)
}

// ---- rows that don't meet a constraint

fn invalid_in(alloc: Global, s: &State, number: u32) -> Result<Option<(Name, i64)>, NoMemory>
    ensures { IfOk result (λ broken. broken ≡ spec.invalid_in s.now number) }
{
    match table_on(s, Side::New, number) {
        Some(table) => row_rules::invalid(alloc, table, &rows_of(s, number)),
        None => Ok(None),
    }
}

// Of the first table that isn't valid.
fn invalid(alloc: Global, s: &State) -> Result<Option<(Name, i64)>, NoMemory>
    ensures { IfOk result (λ broken. broken ≡ spec.invalid s.now (spec.numbers_of s.now)) }
{
    for table in s.tables.as_slice() {
        if let Some(broken) = invalid_in(alloc, s, table.0)? {
            return Ok(Some(broken));
        }
    }
    Ok(None)
}

fn may_not_complete(alloc: Global, s: &State) -> Result<Option<Refusal>, NoMemory>
    ensures { IfOk result (λ refusal. refusal ≡ spec.may_not_complete s.now) }
{
    if let Some(refusal) = not_filled(alloc, s)? {
        return Ok(Some(refusal));
    }
    match invalid(alloc, s)? {
        Some(broken) => Ok(Some(not_valid(broken))),
        None => Ok(None),
    }
}

// ---- the steps

// The new version alone stands, with two steps of tidying left.
fn new_alone(
    alloc: Global,
    s: &State,
    name: &Name,
    schema: &Schema,
    fates: &[(u32, Fate)],
) -> Result<State, NoMemory>
    ensures { IfOk result (λ t. t ≡ spec.standing_alone spec.by_completing name.now schema.now fates.now s.now) }
{
    let ending = Ending {
        gone: Side::Old,
        kind: Kind::Complete,
        left: 2,
    };
    standing_alone(alloc, ending, name, schema, fates, s)
}

fn finish(alloc: Global, s: &State) -> Result<(Reply, State), Stop<Refusal>>
    ensures { Answers (replied (spec.finish s.now s.now.mode)) result }
{
    match &s.mode {
        Mode::Calm => Err(Stop::Because(Refusal::NoActive)),
        Mode::Both {
            name,
            schema,
            fates,
        } => match may_not_complete(alloc, s)? {
            Some(refusal) => Err(Stop::Because(refusal)),
            None => {
                let after = new_alone(alloc, s, name, schema, fates.as_slice())?;
                Ok((Reply::Complete(1), after))
            }
        },
    }
}

// The same state with no step left.
fn without_steps(alloc: Global, s: &State) -> Result<State, NoMemory>
    ensures { IfOk result (λ t. t ≡ record s.now { left = 0; kind = Kind.Nothing }) }
{
    Ok(State {
        version: s.version.copy(alloc)?,
        schema: s.schema.copy(alloc)?,
        mode: s.mode.copy(alloc)?,
        left: 0,
        kind: Kind::Nothing,
        next_table: s.next_table,
        tables: s.tables.copy(alloc)?,
        lost_columns: s.lost_columns.copy(alloc)?,
    })
}

fn tidy(alloc: Global, s: &State) -> Result<(Reply, State), NoMemory>
    ensures { IfOk result (λ done. done ≡ told (spec.tidied s.now)) }
{
    if s.left == 2 {
        let after = without_loss(alloc, 1, s.kind, s)?;
        Ok((Reply::Complete(2), after))
    } else {
        let after = without_steps(alloc, s)?;
        Ok((Reply::Complete(3), after))
    }
}

/// COMPLETE does one step: where steps of tidying are left, the next one; else the migration's completion.
pub fn complete(alloc: Global, s: &State) -> Result<(Reply, State), Stop<Refusal>>
    ensures { Answers (replied (spec.complete s.now)) result }
{
    match s.kind {
        Kind::Nothing => finish(alloc, s),
        Kind::Complete => Ok(tidy(alloc, s)?),
        Kind::Rollback => Err(Stop::Because(Refusal::Unfinished(Kind::Rollback))),
    }
}
