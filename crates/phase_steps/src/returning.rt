//! The rows that are written while the places that only the new version showed are still stored.
ghost use Rattle.std.specs.Prelude.{◌≡◌, ◌++◌, drop, filter, length, map, IfOk};
ghost use Rattle.std.specs.Option.{option_copied};
ghost use Rattle.sql_base.specs.declared.values.Value.TheVariants.{Null};
ghost use Rattle.phase_steps.specs.Rows as spec;

use crate::cells::{has_mark, is_shadow};
use mig_lens::{Cell, Lens};
use sql_base::{List, NoMemory, Value};
use std::alloc::Global;
use trigger_pair::parts::with_all;

/// These values, and then NULL for each shadow place.
fn with_nulls(mut values: List<Value>, cells: &[Cell]) -> Result<List<Value>, NoMemory>
    ensures { IfOk result (λ all. all ≡ values ++ map (λ cell. Null) (filter spec.is_shadow cells.now)) }
{
    for cell in cells {
        if is_shadow(cell) {
            values.push(Value::Null)?;
        }
    }
    Ok(values)
}

/// A new row of these values: NULL in each shadow place, and a mark that is false, where there is one.
fn with_no_shadows(lens: &Lens, values: List<Value>) -> Result<List<Value>, NoMemory>
    ensures { IfOk result (λ row. row ≡ values ++ spec.no_shadows lens.now) }
{
    let mut row = with_nulls(values, lens.new_cols.as_slice())?;
    if has_mark(lens) {
        row.push(Value::Bool(false))?;
    }
    Ok(row)
}

/// What a stored row has behind the old columns.
fn behind_old<'a>(lens: &Lens, stored: &'a [Value]) -> &'a [Value]
    ensures { result.now ≡ drop (length lens.now.old_cols) stored.now }
{
    let start = lens.old_cols.len();
    if start < stored.len() {
        &stored[start..]
    } else {
        &[]
    }
}

/// The stored row of old values that are written between B1 and B2, over the row that was stored, if there was one.
///
/// The old columns have these values. The shadow places and the mark keep what they had, and are NULL and false in a new
/// row. An error is want of memory.
pub fn returned_row(
    alloc: Global,
    lens: &Lens,
    values: &[Value],
    before: Option<&[Value]>,
) -> Result<List<Value>, NoMemory>
    ensures { IfOk result (λ row. row ≡ spec.returned_row lens.now values.now (option_copied before.entry)) }
{
    let old = with_all(alloc, List::new(alloc), values)?;
    match before {
        None => with_no_shadows(lens, old),
        Some(stored) => with_all(alloc, old, behind_old(lens, stored)),
    }
}
