//! The cells of a lens: which are carried, and which have a place of their own.
ghost use Rattle.std.specs.Prelude.{◌≡◌, ◌≤◌, filter, length};
ghost use Rattle.mig_lens.specs.Layout as layouts;
ghost use Rattle.mig_lens.specs.Lens as lenses;
ghost use Rattle.phase_steps.specs.Rows as spec;

use mig_lens::{Cell, Lens};

fn is_carry(cell: &Cell) -> bool
    ensures { result ≡ lenses.is_carry cell.now }
{
    match cell {
        Cell::Carry(_) => true,
        Cell::Make(_) | Cell::Still(_) => false,
    }
}

fn is_make(cell: &Cell) -> bool
    ensures { result ≡ layouts.is_make cell.now }
{
    match cell {
        Cell::Make(_) => true,
        Cell::Carry(_) | Cell::Still(_) => false,
    }
}

pub(crate) fn is_shadow(cell: &Cell) -> bool
    ensures { result ≡ spec.is_shadow cell.now }
{
    match cell {
        Cell::Carry(_) => false,
        Cell::Make(_) | Cell::Still(_) => true,
    }
}

/// Whether the layout has a mark.
pub(crate) fn has_mark(lens: &Lens) -> bool
    ensures { result ≡ layouts.has_mark lens.now }
{
    lens.new_cols.as_slice().iter().any(|cell| is_make(cell))
}

/// How many of these columns are carried.
pub(crate) fn carried_count(cells: &[Cell]) -> usize
    ensures count { result ≡ length (filter lenses.is_carry cells.now) }
    ensures few { result ≤ length cells.now }
{
    let mut count = 0;
    for cell in cells {
        if is_carry(cell) {
            count += 1;
        }
    }
    count
}

/// How many of these columns have a place of their own.
pub(crate) fn shadow_count(cells: &[Cell]) -> usize
    ensures { result ≡ length (filter spec.is_shadow cells.now) }
{
    let mut count = 0;
    for cell in cells {
        if is_shadow(cell) {
            count += 1;
        }
    }
    count
}
