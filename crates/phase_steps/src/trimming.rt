//! The rows that are left once the old columns that aren't carried are removed.
ghost use Rattle.std.specs.Prelude.{◌≡◌, ◌++◌, take, IfOk};
ghost use Rattle.phase_steps.specs.Rows as spec;

use crate::cells::{carried_count, shadow_count};
use mig_lens::{Cell, Lens};
use sql_base::{Copying, List, NoMemory, Value};
use std::alloc::Global;
use trigger_pair::parts::{value_at, with_all};

fn with_carried(
    alloc: Global,
    mut values: List<Value>,
    cell: &Cell,
    value: &Value,
) -> Result<List<Value>, NoMemory>
    ensures { IfOk result (λ all. all ≡ values ++ spec.carried_of cell.now value.now) }
{
    match cell {
        Cell::Carry(_) => {
            values.push(value.copy(alloc)?)?;
            Ok(values)
        }
        Cell::Make(_) | Cell::Still(_) => Ok(values),
    }
}

fn carried_values(alloc: Global, cells: &[Cell], row: &[Value]) -> Result<List<Value>, NoMemory>
    ensures { IfOk result (λ values. values ≡ spec.carried_values cells.now row.now) }
{
    let mut values = List::new(alloc);
    for (at, cell) in cells.iter().enumerate() {
        let Some(value) = row.get(at) else {
            break;
        };
        values = with_carried(alloc, values, cell, value)?;
    }
    Ok(values)
}

pub(crate) fn first(row: &[Value], count: usize) -> &[Value]
    ensures { result.now ≡ take count row.now }
{
    if count < row.len() {
        &row[..count]
    } else {
        row
    }
}

/// The shadow values of a stored row, behind the old columns.
fn shadows_in<'a>(lens: &Lens, row: &'a [Value]) -> &'a [Value]
    ensures { result.now ≡ spec.shadows_in lens.now row.now }
{
    let count = shadow_count(lens.new_cols.as_slice());
    let start = lens.old_cols.len();
    if start < row.len() {
        first(&row[start..], count)
    } else {
        first(&[], count)
    }
}

/// A stored row after C2, which removes the old columns that aren't carried, and the mark.
///
/// The carried values stand in old order, and the shadow values behind them in new order. An error is want of memory.
pub fn trimmed(alloc: Global, lens: &Lens, row: &[Value]) -> Result<List<Value>, NoMemory>
    ensures { IfOk result (λ values. values ≡ spec.trimmed lens.now row.now) }
{
    let carried = carried_values(alloc, lens.old_cols.as_slice(), row)?;
    with_all(alloc, carried, shadows_in(lens, row))
}

/// The place of an old column among the carried ones.
fn carried_before(cells: &[Cell], at: usize) -> usize
    ensures { result ≡ spec.carried_before cells.now at }
{
    if at < cells.len() {
        carried_count(&cells[..at])
    } else {
        carried_count(cells)
    }
}

/// What the version that stands selects of a row after C2: the values in the order of its columns.
///
/// It is the row after C3. An error is want of memory.
pub fn trimmed_view(alloc: Global, lens: &Lens, row: &[Value]) -> Result<List<Value>, NoMemory>
    ensures { IfOk result (λ values. values ≡ spec.trimmed_view lens.now row.now) }
{
    let cells = lens.new_cols.as_slice();
    let old_cols = lens.old_cols.as_slice();
    let mut values = List::new(alloc);
    let mut next = carried_count(old_cols);
    for cell in cells {
        match cell {
            Cell::Carry(at) => {
                let place = carried_before(old_cols, *at as usize);
                values.push(value_at(alloc, row, place)?)?;
            }
            Cell::Make(_) | Cell::Still(_) => {
                values.push(value_at(alloc, row, next)?)?;
                next += 1;
            }
        }
    }
    Ok(values)
}
