//! The rows that are written while the old columns that aren't carried are still stored.
ghost use Rattle.std.specs.Prelude.{◌≡◌, IfOk};
ghost use Rattle.std.specs.Option.{option_copied};
ghost use Rattle.phase_steps.specs.Rows as spec;

use crate::cells::has_mark;
use mig_lens::{Cell, Lens};
use sql_base::{List, NoMemory, Value};
use std::alloc::Global;
use trigger_pair::parts::{joined, value_at};

/// What an old column's place holds, which has this number, when values are written over what was held.
fn left_value(
    alloc: Global,
    values: &[Value],
    held: &[Value],
    at: usize,
    cell: &Cell,
) -> Result<Value, NoMemory>
    ensures { IfOk result (λ value. value ≡ spec.left_value values.now held.now (at, cell.now)) }
{
    match cell {
        Cell::Carry(from) => value_at(alloc, values, *from as usize),
        Cell::Make(_) | Cell::Still(_) => value_at(alloc, held, at),
    }
}

fn left_values(
    alloc: Global,
    cells: &[Cell],
    values: &[Value],
    held: &[Value],
) -> Result<List<Value>, NoMemory>
    ensures { IfOk result (λ all. all ≡ spec.left_values cells.now values.now held.now) }
{
    let mut all = List::new(alloc);
    for (at, cell) in cells.iter().enumerate() {
        all.push(left_value(alloc, values, held, at, cell)?)?;
    }
    Ok(all)
}

/// The stored row of new values that are written between C1 and C2, over the row that was stored, if there was one.
///
/// The places that the new version shows have these values, an old column that isn't carried keeps the value that it had,
/// or is NULL in a new row, and the row isn't marked. An error is want of memory.
pub fn left_row(
    alloc: Global,
    lens: &Lens,
    values: &[Value],
    before: Option<&[Value]>,
) -> Result<List<Value>, NoMemory>
    ensures { IfOk result (λ row. row ≡ spec.left_row lens.now values.now (option_copied before.entry)) }
{
    let held: &[Value] = before.unwrap_or(&[]);
    let old = left_values(alloc, lens.old_cols.as_slice(), values, held)?;
    joined(alloc, lens, has_mark(lens), old, values, false)
}
