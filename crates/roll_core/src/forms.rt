//! The forms in which the rows of a table are stored, and the halves that a stored row has.
ghost use Rattle.std.specs.Prelude.{◌≡◌, IfOk, None, is_none};
ghost use Rattle.row_rules.specs.Site.{halves_on};
ghost use Rattle.trigger_pair.specs.Stored as stored;
ghost use Rattle.roll_core.specs.Store as spec;

use machine::parts::lost_weight;
use mig_lens::Side;
use phase_steps::trimmed_view;
use row_rules::Halves;
use sql_base::{Copying, List, NoMemory, Value};
use std::alloc::Global;
use trigger_pair::{Pair, is_marked, new_view, old_view};

/// The form in which the rows of a table are stored. The pair is what both versions have of the table.
#[derive(Drop)]
pub enum Form {
    /// One version alone has the table, that of this side: its columns, in its order. While one version stands it is the
    /// old side.
    Own(Side),
    /// Both versions stand: the pair's layout.
    Paired(Pair),
    /// The old version is gone, with two steps of completing left: still the pair's layout.
    Left(Pair),
    /// One step is left of completing: the old columns that were lost and the mark are gone, the other places stand as they
    /// did.
    Trimmed(Pair),
    /// The new version is gone, with one step of rolling back left: still the pair's layout.
    Returned(Pair),
}

impl Copying for Form {
    fn copy(&self, alloc: Global) -> Result<Form, NoMemory> {
        match self {
            Form::Own(side) => Ok(Form::Own(*side)),
            Form::Paired(pair) => Ok(Form::Paired(pair.copy(alloc)?)),
            Form::Left(pair) => Ok(Form::Left(pair.copy(alloc)?)),
            Form::Trimmed(pair) => Ok(Form::Trimmed(pair.copy(alloc)?)),
            Form::Returned(pair) => Ok(Form::Returned(pair.copy(alloc)?)),
        }
    }
}

/// These values once more. An error is want of memory.
pub fn copied(alloc: Global, values: &[Value]) -> Result<List<Value>, NoMemory>
    ensures { IfOk result (λ copy. copy ≡ values.now) }
{
    trigger_pair::parts::with_all(alloc, List::new(alloc), values)
}

// The halves of a row of which a side has this half, and the other side none.
fn alone(side: Side, values: List<Value>) -> Halves
    ensures { result ≡ halves_on side values None }
{
    match side {
        Side::Old => Halves {
            old: Some(values),
            new: None,
        },
        Side::New => Halves {
            old: None,
            new: Some(values),
        },
    }
}

fn new_half(alloc: Global, pair: &Pair, values: &[Value]) -> Result<Option<List<Value>>, NoMemory>
    ensures { IfOk result (λ half. half ≡ stored.new_half pair.now values.now) }
{
    if is_marked(pair, values) {
        return Ok(None);
    }
    Ok(Some(new_view(alloc, pair, values)?))
}

/// The halves that a row has which is stored in a form. An error is want of memory.
pub fn halves_of(alloc: Global, form: &Form, values: &[Value]) -> Result<Halves, NoMemory>
    ensures { IfOk result (λ halves. halves ≡ spec.halves_of form.now values.now) }
{
    match form {
        Form::Own(side) => Ok(alone(*side, copied(alloc, values)?)),
        Form::Paired(pair) => {
            let old = old_view(alloc, pair, values)?;
            let new = new_half(alloc, pair, values)?;
            Ok(Halves {
                old: Some(old),
                new,
            })
        }
        Form::Left(pair) => Ok(alone(Side::Old, new_view(alloc, pair, values)?)),
        Form::Trimmed(pair) => Ok(alone(Side::Old, trimmed_view(alloc, &pair.lens, values)?)),
        Form::Returned(pair) => Ok(alone(Side::Old, old_view(alloc, pair, values)?)),
    }
}

/// Whether a row that is stored in a form has no new half.
pub fn misses_new(form: &Form, values: &[Value]) -> bool
    ensures { result ≡ is_none (spec.halves_of form.now values.now).new }
{
    match form {
        Form::Own(Side::Old) => true,
        Form::Own(Side::New) => false,
        Form::Paired(pair) => is_marked(pair, values),
        Form::Left(_) => true,
        Form::Trimmed(_) => true,
        Form::Returned(_) => true,
    }
}

/// The lost weight of a row that is stored in a form. An error is want of memory.
pub fn lost_of(alloc: Global, form: &Form, values: &[Value]) -> Result<u64, NoMemory>
    ensures { IfOk result (λ weight. weight ≡ spec.lost_of form.now values.now) }
{
    match form {
        Form::Own(_) => Ok(0),
        Form::Paired(_) => Ok(0),
        Form::Left(pair) => {
            let old = old_view(alloc, pair, values)?;
            lost_weight(pair.lens.old_cols.as_slice(), old.as_slice())
        }
        Form::Trimmed(_) => Ok(0),
        Form::Returned(pair) => {
            let new = new_view(alloc, pair, values)?;
            lost_weight(pair.lens.new_cols.as_slice(), new.as_slice())
        }
    }
}
