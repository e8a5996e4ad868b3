//! How the rows of a table are stored while both versions stand.

ghost use Rattle.std.specs.Prelude.{◌≡◌, ◌++◌, map, IfOk};
ghost use Rattle.mig_lens.specs.Layout as spec;

use crate::columns::{Cell, Lens};
use crate::plans::Layout;
use sql_base::{Column, Copying, List, Name, NoMemory, Shape, Ty};
use std::alloc::Global;

fn is_make(cell: &Cell) -> bool
    ensures { result ≡ spec.is_make cell.now }
{
    match cell {
        Cell::Make(_) => true,
        Cell::Carry(_) | Cell::Still(_) => false,
    }
}

/// Whether a new column is made by an expression, so that a row's new half can be missing.
fn has_mark(lens: &Lens) -> bool
    ensures { result ≡ spec.has_mark lens.now }
{
    lens.new_cols.as_slice().iter().any(|cell| is_make(cell))
}

fn shadow_name(alloc: Global, column: &Name) -> Result<Name, NoMemory>
    ensures { IfOk result (λ name. name ≡ spec.shadow_name column.now) }
{
    let mut name = Vec::from_slice(alloc, b"_pgroll_new_")?;
    name.extend_from_slice(column.as_slice())?;
    Name::from_slice(alloc, name.as_slice())
}

/// These places, and then that of a new column, if it isn't carried.
fn with_shadow(
    alloc: Global,
    mut places: List<(Name, Ty)>,
    column: &Column,
    cell: &Cell,
) -> Result<List<(Name, Ty)>, NoMemory>
    ensures { IfOk result (λ all. all ≡ places ++ spec.shadow_of column.now cell.now) }
{
    match cell {
        Cell::Carry(_) => Ok(places),
        Cell::Make(_) | Cell::Still(_) => {
            places.push((shadow_name(alloc, &column.name)?, column.ty))?;
            Ok(places)
        }
    }
}

/// The places of these columns, in order.
fn own_places(alloc: Global, columns: &[Column]) -> Result<List<(Name, Ty)>, NoMemory>
    ensures { IfOk result (λ places. places ≡ map spec.place_of columns.now) }
{
    let mut places = List::new(alloc);
    for column in columns {
        places.push((column.name.copy(alloc)?, column.ty))?;
    }
    Ok(places)
}

/// These places, and then one for each new column that isn't carried.
fn with_shadows(
    alloc: Global,
    mut places: List<(Name, Ty)>,
    columns: &[Column],
    cells: &[Cell],
) -> Result<List<(Name, Ty)>, NoMemory>
    ensures { IfOk result (λ all. all ≡ places ++ spec.shadows columns.now cells.now) }
{
    for (at, column) in columns.iter().enumerate() {
        let Some(cell) = cells.get(at) else {
            break;
        };
        places = with_shadow(alloc, places, column, cell)?;
    }
    Ok(places)
}

/// These places, and then the mark, if there is one.
fn with_mark(
    alloc: Global,
    mut places: List<(Name, Ty)>,
    mark: bool,
) -> Result<List<(Name, Ty)>, NoMemory>
    ensures { IfOk result (λ all. all ≡ places ++ spec.mark_place mark) }
{
    if !mark {
        return Ok(places);
    }
    places.push((
        Name::from_slice(alloc, b"_pgroll_needs_backfill")?,
        Ty::Boolean,
    ))?;
    Ok(places)
}

/// The places of the stored rows of a table that both versions have, while both stand: the old columns under their own
/// names, then each new column that isn't carried under its name with `_pgroll_new_` in front, and where a new column
/// is made by an expression the mark `_pgroll_needs_backfill` last.
///
/// An error is want of memory.
pub fn layout(alloc: Global, old: &Shape, new: &Shape, lens: &Lens) -> Result<Layout, NoMemory>
    ensures { IfOk result (λ layout. layout ≡ spec.layout old.now new.now lens.now) }
{
    let own = own_places(alloc, old.columns.as_slice())?;
    let columns = with_shadows(alloc, own, new.columns.as_slice(), lens.new_cols.as_slice())?;
    let mark = has_mark(lens);
    Ok(Layout {
        columns: with_mark(alloc, columns, mark)?,
        mark,
    })
}
