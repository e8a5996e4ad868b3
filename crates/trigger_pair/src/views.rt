//! What the two versions' views select of a stored row.
ghost use Rattle.std.specs.Prelude.{◌≡◌, ◌++◌, slice_index_or, IfOk};
ghost use Rattle.std.specs.Option.{option_copied};
ghost use Rattle.sql_base.specs.declared.values.Value.TheVariants.{Null};
ghost use Rattle.trigger_pair.specs.Stored as spec;

use crate::pairs::Pair;
use mig_lens::Cell;
use sql_base::{Copying, List, NoMemory, Value};
use std::alloc::Global;

/// The values of a slice, behind these.
pub fn with_all(
    alloc: Global,
    mut values: List<Value>,
    more: &[Value],
) -> Result<List<Value>, NoMemory>
    ensures { IfOk result (λ all. all ≡ values ++ more.now) }
{
    for value in more {
        values.push(value.copy(alloc)?)?;
    }
    Ok(values)
}

/// The old columns' part of a stored row.
pub(crate) fn old_part<'a>(pair: &Pair, stored: &'a [Value]) -> &'a [Value]
    ensures { result.now ≡ spec.old_view pair.now stored.now }
{
    let count = pair.old.columns.len();
    if count < stored.len() {
        &stored[..count]
    } else {
        stored
    }
}

/// What the old version's view selects of a stored row: the row's old half.
///
/// An error is want of memory.
pub fn old_view(alloc: Global, ctx: &Pair, stored: &[Value]) -> Result<List<Value>, NoMemory>
    ensures { IfOk result (λ values. values ≡ spec.old_view ctx.now stored.now) }
{
    with_all(alloc, List::new(alloc), old_part(ctx, stored))
}

/// The value at a place, or NULL past the end.
pub fn value_at(alloc: Global, stored: &[Value], at: usize) -> Result<Value, NoMemory>
    ensures { IfOk result (λ value. value ≡ slice_index_or stored.now at Null) }
{
    match stored.get(at) {
        Some(value) => value.copy(alloc),
        None => Ok(Value::Null),
    }
}

/// What the new version's view selects of a stored row. It is the row's new half, unless the row is marked.
///
/// An error is want of memory.
pub fn new_view(alloc: Global, ctx: &Pair, stored: &[Value]) -> Result<List<Value>, NoMemory>
    ensures { IfOk result (λ values. values ≡ spec.new_view ctx.now stored.now) }
{
    let cells = ctx.lens.new_cols.as_slice();
    let mut values = List::new(alloc);
    let mut next = ctx.old.columns.as_slice().len();
    for cell in cells {
        match cell {
            Cell::Carry(at) => values.push(value_at(alloc, stored, *at as usize)?)?,
            Cell::Make(_) | Cell::Still(_) => {
                values.push(value_at(alloc, stored, next)?)?;
                next += 1;
            }
        }
    }
    Ok(values)
}

fn is_true(value: Option<&Value>) -> bool
    ensures { result ≡ spec.is_true (option_copied value.entry) }
{
    match value {
        Some(Value::Bool(value)) => *value,
        _ => false,
    }
}

/// Whether a stored row is still to be filled: its table has a mark, and that is true.
pub fn is_marked(ctx: &Pair, stored: &[Value]) -> bool
    ensures { result ≡ spec.is_marked ctx.now stored.now }
{
    ctx.layout.mark && is_true(stored.last())
}
