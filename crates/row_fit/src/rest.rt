//! The values that stand behind some places of a stored row, where those in these places fit.
ghost use Rattle.std.specs.Prelude.{◌≡◌};
ghost use Rattle.std.specs.Option.{option_copied};
ghost use Rattle.mig_lens.specs.Layout as layouts;
ghost use Rattle.phase_steps.specs.Rows as rows;
ghost use Rattle.row_fit.specs.Rest as spec;

use mig_lens::Cell;
use sql_base::{Column, Name, Ty, Value, has_type};

/// The values behind the first one, if that is there and is NULL or of this type.
fn rest_of_one(ty: Ty, values: &[Value]) -> Option<&[Value]>
    ensures { option_copied result ≡ spec.rest_of_one ty values.now }
{
    let (first, rest) = values.split_first()?;
    if has_type(Some(ty), first) {
        Some(rest)
    } else {
        None
    }
}

/// The values behind these places.
pub(crate) fn rest_of_places<'a>(places: &[(Name, Ty)], values: &'a [Value]) -> Option<&'a [Value]>
    ensures { option_copied result ≡ spec.rest_of places.now values.now }
{
    let mut rest = values;
    for place in places {
        rest = rest_of_one(place.1, rest)?;
    }
    Some(rest)
}

/// The values behind the place of an old column, which is left where the column is carried.
fn rest_of_old<'a>(column: &Column, cell: &Cell, values: &'a [Value]) -> Option<&'a [Value]>
    ensures { option_copied result ≡ spec.rest_of (rows.carried_column column.now cell.now) values.now }
{
    match cell {
        Cell::Carry(_) => rest_of_one(column.ty, values),
        Cell::Make(_) | Cell::Still(_) => Some(values),
    }
}

/// The values behind the places of the old columns that are carried.
pub(crate) fn rest_of_carried<'a>(
    columns: &[Column],
    cells: &[Cell],
    values: &'a [Value],
) -> Option<&'a [Value]>
    ensures { option_copied result ≡ spec.rest_of (rows.carried_columns columns.now cells.now) values.now }
{
    let mut rest = values;
    for (at, column) in columns.iter().enumerate() {
        let Some(cell) = cells.get(at) else {
            break;
        };
        rest = rest_of_old(column, cell, rest)?;
    }
    Some(rest)
}

/// The values behind the place of a new column, which has one where it isn't carried.
fn rest_of_new<'a>(column: &Column, cell: &Cell, values: &'a [Value]) -> Option<&'a [Value]>
    ensures { option_copied result ≡ spec.rest_of (layouts.shadow_of column.now cell.now) values.now }
{
    match cell {
        Cell::Carry(_) => Some(values),
        Cell::Make(_) | Cell::Still(_) => rest_of_one(column.ty, values),
    }
}

/// The values behind the shadow places of the new columns.
pub(crate) fn rest_of_shadows<'a>(
    columns: &[Column],
    cells: &[Cell],
    values: &'a [Value],
) -> Option<&'a [Value]>
    ensures { option_copied result ≡ spec.rest_of (layouts.shadows columns.now cells.now) values.now }
{
    let mut rest = values;
    for (at, column) in columns.iter().enumerate() {
        let Some(cell) = cells.get(at) else {
            break;
        };
        rest = rest_of_new(column, cell, rest)?;
    }
    Some(rest)
}

/// Whether there is such a rest, and nothing in it.
pub(crate) fn is_all(rest: Option<&[Value]>) -> bool
    ensures { result ≡ spec.is_all (option_copied rest.entry) }
{
    match rest {
        Some(rest) => rest.is_empty(),
        None => false,
    }
}
