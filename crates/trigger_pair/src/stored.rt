//! The stored row of two halves.
ghost use Rattle.std.specs.Prelude.{◌≡◌, ◌++◌, true, IfOk};
ghost use Rattle.mig_lens.specs.Lens.{unfilled};
ghost use Rattle.trigger_pair.specs.Stored as spec;

use crate::pairs::Pair;
use crate::views::{value_at, with_all};
use mig_lens::{Cell, Lens, unfilled};
use sql_base::{Copying, List, NoMemory, Value};
use std::alloc::Global;

fn with_shadow(
    alloc: Global,
    mut values: List<Value>,
    cell: &Cell,
    value: &Value,
) -> Result<List<Value>, NoMemory>
    ensures { IfOk result (λ all. all ≡ values ++ spec.shadow_of cell.now value.now) }
{
    match cell {
        Cell::Carry(_) => Ok(values),
        Cell::Make(_) | Cell::Still(_) => {
            values.push(value.copy(alloc)?)?;
            Ok(values)
        }
    }
}

/// These values, and then those of a new half that have places of their own.
fn with_shadows(
    alloc: Global,
    mut values: List<Value>,
    cells: &[Cell],
    new: &[Value],
) -> Result<List<Value>, NoMemory>
    ensures { IfOk result (λ all. all ≡ values ++ spec.shadow_values cells.now new.now) }
{
    for (at, cell) in cells.iter().enumerate() {
        let Some(value) = new.get(at) else {
            break;
        };
        values = with_shadow(alloc, values, cell, value)?;
    }
    Ok(values)
}

/// These values, and then the mark, if there is one.
fn with_mark(mut values: List<Value>, mark: bool, marked: bool) -> Result<List<Value>, NoMemory>
    ensures { IfOk result (λ all. all ≡ values ++ spec.mark_value mark marked) }
{
    if mark {
        values.push(Value::Bool(marked))?;
    }
    Ok(values)
}

/// The stored row of these old columns' values and of a new half, where the layout has a mark or hasn't one.
///
/// An error is want of memory.
pub fn joined(
    alloc: Global,
    lens: &Lens,
    mark: bool,
    old: List<Value>,
    new: &[Value],
    marked: bool,
) -> Result<List<Value>, NoMemory>
    ensures { IfOk result (λ row. row ≡ old ++ spec.shadow_values lens.now.new_cols new.now ++ spec.mark_value mark marked) }
{
    let all = with_shadows(alloc, old, lens.new_cols.as_slice(), new)?;
    with_mark(all, mark, marked)
}

/// The row that START stores of a row with these values, by the lens alone, where the layout has a mark or hasn't one.
///
/// An error is want of memory.
pub fn begun_row(
    alloc: Global,
    lens: &Lens,
    mark: bool,
    old: &[Value],
) -> Result<List<Value>, NoMemory>
    ensures { IfOk result (λ row. row ≡ old.now ++ spec.shadow_values lens.now.new_cols (unfilled lens.now old.now) ++ spec.mark_value mark true) }
{
    let new = unfilled(alloc, lens, old)?;
    let own = with_all(alloc, List::new(alloc), old)?;
    joined(alloc, lens, mark, own, new.as_slice(), true)
}

/// The row that START stores of a row with these values: a constant or NULL stands in each shadow place, and the row is
/// marked where its table has a mark.
///
/// An error is want of memory.
pub fn begun(alloc: Global, ctx: &Pair, old: &[Value]) -> Result<List<Value>, NoMemory>
    ensures { IfOk result (λ row. row ≡ spec.begun ctx.now old.now) }
{
    begun_row(alloc, &ctx.lens, ctx.layout.mark, old)
}
