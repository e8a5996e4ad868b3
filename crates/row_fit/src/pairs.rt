//! Rows that fit the pair of a table that both versions have, while both stand.
ghost use Rattle.std.specs.Prelude.{◌≡◌, ◌↔◌, IfOk, IsTrue, true, false};
ghost use Rattle.std.specs.Option.{option_copied};
ghost use Rattle.trigger_pair.specs.Laws.{IsPair};
ghost use Rattle.trigger_pair.specs.Rows.{IsPairedRow};
ghost use Rattle.trigger_pair.specs.Stored as stored;
ghost use Rattle.row_fit.specs.Marks as spec;

use crate::equal::are_same;
use crate::laws::rows_fit_by_their_marks;
use crate::places::fits_laid;
use sql_base::{NoMemory, Value};
use std::alloc::Global;
use trigger_pair::{Pair, begun, old_view};

/// The truth that a value is, if it is one.
fn truth_of(value: Option<&Value>) -> Option<bool>
    ensures { result ≡ spec.truth_of (option_copied value.entry) }
{
    match value {
        Some(Value::Bool(truth)) => Some(*truth),
        Some(Value::Null | Value::Int(_) | Value::Text(_)) | None => None,
    }
}

/// A row's mark: false where the table has none, and `None` where it is NULL.
fn mark_of(pair: &Pair, values: &[Value]) -> Option<bool>
    ensures { result ≡ spec.mark_of pair.now values.now }
{
    if pair.layout.mark {
        truth_of(values.last())
    } else {
        Some(false)
    }
}

/// Whether a row is what START leaves of its old half.
fn is_begun(alloc: Global, pair: &Pair, values: &[Value]) -> Result<bool, NoMemory>
    ensures { IfOk result
        (λ same. IsTrue same ↔ (values.now ≡ stored.begun pair.now (stored.old_view pair.now values.now))) }
{
    let old = old_view(alloc, pair, values)?;
    let row = begun(alloc, pair, old.as_slice())?;
    Ok(are_same(values, row.as_slice()))
}

/// Whether a row is as its mark says: the mark isn't NULL, and where it is true the row is what START leaves.
fn fits_mark(alloc: Global, pair: &Pair, values: &[Value]) -> Result<bool, NoMemory>
    ensures { IfOk result (λ fits. IsTrue fits ↔ spec.FitsMark pair.now values.now (spec.mark_of pair.now values.now)) }
{
    match mark_of(pair, values) {
        None => Ok(false),
        Some(false) => Ok(true),
        Some(true) => is_begun(alloc, pair, values),
    }
}

/// Whether values are a row that a table of both versions may hold while both stand: a filled one, or one that is still
/// to be filled.
///
/// They fit the layout, the mark, where the table has one, isn't NULL, and where it is true the row is what START leaves
/// of its old half. An error is want of memory. The rule is our own.
pub fn fits_pair(alloc: Global, pair: &Pair, values: &[Value]) -> Result<bool, NoMemory>
    requires { IsPair pair.now }
    ensures fits { IfOk result (λ fits. fits ≡ true → IsPairedRow pair.now values.now) }
    ensures others { IfOk result (λ fits. fits ≡ false → ¬ IsPairedRow pair.now values.now) }
{
    phase_steps::laws::rows_fit_their_places();
    rows_fit_by_their_marks();
    if !fits_laid(pair, values) {
        return Ok(false);
    }
    fits_mark(alloc, pair, values)
}
