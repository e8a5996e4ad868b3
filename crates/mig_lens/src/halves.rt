//! One half of a row from the other.

ghost use Rattle.std.specs.Prelude.{◌≡◌, slice_index_or, IfOk};
ghost use Rattle.sql_base.specs.declared.values.Value.TheVariants.{Null};
ghost use Rattle.std.specs.Option.{option_copied};
ghost use Rattle.sql_base.specs.Outcome.{Gives};
ghost use Rattle.mig_lens.specs.Lens as spec;

use crate::columns::{Cell, Lens};
use sql_base::{Copying, EvalFault, List, NoMemory, Shape, Value};
use sql_eval::eval;
use std::alloc::Global;

/// The value at this place, or NULL past the end.
fn value_at(alloc: Global, half: &[Value], at: usize) -> Result<Value, NoMemory>
    ensures { IfOk result (λ value. value ≡ slice_index_or half.now at Null) }
{
    match half.get(at) {
        Some(value) => value.copy(alloc),
        None => Ok(Value::Null),
    }
}

/// What the column at this place comes to by its cell.
fn made(
    alloc: Global,
    shape: &Shape,
    half: &[Value],
    previous: Option<&[Value]>,
    at: usize,
    cell: &Cell,
) -> Result<Value, EvalFault>
    ensures { Gives EvalFault.NoMemory (spec.made shape.now half.now (spec.value_before (option_copied previous.entry) at) cell.now) result }
{
    match cell {
        Cell::Carry(from) => Ok(value_at(alloc, half, *from as usize)?),
        Cell::Make(expr) => eval(alloc, expr, shape, half),
        Cell::Still(value) => match previous {
            Some(before) => Ok(value_at(alloc, before, at)?),
            None => Ok(value.copy(alloc)?),
        },
    }
}

fn half_made(
    alloc: Global,
    cells: &[Cell],
    shape: &Shape,
    half: &[Value],
    previous: Option<&[Value]>,
) -> Result<List<Value>, EvalFault>
    ensures { Gives EvalFault.NoMemory (spec.half_made cells.now shape.now half.now (option_copied previous.entry)) result }
{
    let mut values = List::new(alloc);
    for (at, cell) in cells.iter().enumerate() {
        values.push(made(alloc, shape, half, previous, at, cell)?)?;
    }
    Ok(values)
}

/// The new half of a row from its old half, which has the shape `old`, and from its new half before, if it had one.
///
/// An error is the first fault of an expression, by the order of the new columns, and may be `NoMemory` wherever
/// memory was refused. A place that a half doesn't have counts as NULL; no lens that fits its shapes names one.
pub fn forward(
    alloc: Global,
    lens: &Lens,
    old: &Shape,
    half: &[Value],
    previous: Option<&[Value]>,
) -> Result<List<Value>, EvalFault>
    ensures { Gives EvalFault.NoMemory (spec.forward lens.now old.now half.now (option_copied previous.entry)) result }
{
    half_made(alloc, lens.new_cols.as_slice(), old, half, previous)
}

/// The old half of a row from its new half, which has the shape `new`, and from its old half before, if it had one.
///
/// Errors come as with `forward`, by the order of the old columns.
pub fn backward(
    alloc: Global,
    lens: &Lens,
    new: &Shape,
    half: &[Value],
    previous: Option<&[Value]>,
) -> Result<List<Value>, EvalFault>
    ensures { Gives EvalFault.NoMemory (spec.backward lens.now new.now half.now (option_copied previous.entry)) result }
{
    half_made(alloc, lens.old_cols.as_slice(), new, half, previous)
}

// What the new version shows of a column of a row that is still to be filled.
fn unfilled_value(alloc: Global, old: &[Value], cell: &Cell) -> Result<Value, NoMemory>
    ensures { IfOk result (λ value. value ≡ spec.unfilled_value old.now cell.now) }
{
    match cell {
        Cell::Carry(at) => value_at(alloc, old, *at as usize),
        Cell::Make(_) => Ok(Value::Null),
        Cell::Still(value) => value.copy(alloc),
    }
}

/// What the new version shows of a row that is still to be filled, from the row's old half.
///
/// An error is want of memory.
pub fn unfilled(alloc: Global, lens: &Lens, old: &[Value]) -> Result<List<Value>, NoMemory>
    ensures { IfOk result (λ values. values ≡ spec.unfilled lens.now old.now) }
{
    let mut values = List::new(alloc);
    for cell in lens.new_cols.as_slice() {
        values.push(unfilled_value(alloc, old, cell)?)?;
    }
    Ok(values)
}
