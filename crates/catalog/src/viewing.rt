//! The views of a version's tables.
ghost use Rattle.std.specs.Prelude.{◌≡◌, ◌<◌, ◌^◌, ℕ, length, map, nat_eq, true, IfOk};
ghost use Rattle.indexmap.specs.IndexMap.{get};
ghost use Rattle.catalog.specs.Places as lent;
ghost use Rattle.catalog.specs.Views as spec;
ghost use Rattle.catalog.specs.Widths as widths;

use crate::finding::tables_on;
use crate::pairs::{PairRef, pair_in};
use crate::places::{RowPlace, is_same_place, row_places, selected_places};
use crate::versions::{Known, Stage, View};
use indexmap::IndexMap;
use mig_lens::Side;
use sql_base::{Column, Copying, List, Name, NoMemory, Shape};
use std::alloc::Global;

/// The position of a place among these, or their number where it is none of them.
fn position_among(places: &[RowPlace], wanted: RowPlace) -> u32
    requires { length places.now < 2 ^ 32 }
    ensures { result ≡ spec.position_among (lent.all places.now) (lent.place wanted) }
{
    for (at, place) in places.iter().enumerate() {
        if is_same_place(*place, wanted) {
            return at as u32;
        }
    }
    places.len() as u32
}

fn positions_among(
    alloc: Global,
    places: &[RowPlace],
    selected: &[RowPlace],
) -> Result<List<u32>, NoMemory>
    requires { length places.now < 2 ^ 32 }
    ensures { IfOk result (λ all. all ≡ map (spec.position_among (lent.all places.now)) (lent.all selected.now)) }
{
    let mut all = List::new(alloc);
    for place in selected {
        all.push(position_among(places, *place))?;
    }
    Ok(all)
}

/// Where the places that the view of a side selects stand in a stored row of the pair.
fn pair_positions(
    alloc: Global,
    stage: &Stage,
    side: Side,
    pair: PairRef<'_>,
) -> Result<List<u32>, NoMemory>
    requires { length (spec.row_places stage.now (lent.pair pair)) < 2 ^ 32 }
    ensures { IfOk result (λ all. all ≡ spec.pair_positions stage.now side (lent.pair pair.entry)) }
{
    let places = row_places(alloc, stage, pair)?;
    let selected = selected_places(alloc, stage, side, pair)?;
    positions_among(alloc, places.as_slice(), selected.as_slice())
}

fn own_positions(alloc: Global, columns: &[Column]) -> Result<List<u32>, NoMemory>
    requires { length columns.now < 2 ^ 32 }
    ensures { IfOk result (λ all. all ≡ spec.own_positions columns.now) }
{
    let mut all = List::new(alloc);
    for (at, _) in columns.iter().enumerate() {
        all.push(at as u32)?;
    }
    Ok(all)
}

/// Each column's name beside its position.
fn placed(
    alloc: Global,
    columns: &[Column],
    positions: &[u32],
) -> Result<List<(Name, u32)>, NoMemory>
    ensures { IfOk result (λ all. all ≡ spec.placed columns.now positions.now) }
{
    let mut all = List::new(alloc);
    for (at, column) in columns.iter().enumerate() {
        let Some(position) = positions.get(at) else {
            break;
        };
        all.push((column.name.copy(alloc)?, *position))?;
    }
    Ok(all)
}

fn positions(
    alloc: Global,
    known: &Known,
    side: Side,
    table: &(Name, u32, Shape),
) -> Result<List<u32>, NoMemory>
    requires known { widths.is_narrow known.now ≡ true }
    requires table { widths.table_is_narrow table.now ≡ true }
    ensures { IfOk result (λ all. all ≡ spec.positions known.now side table.now) }
{
    match pair_in(known, table.1) {
        Some(pair) => pair_positions(alloc, &known.stage, side, pair),
        None => own_positions(alloc, table.2.columns.as_slice()),
    }
}

fn view_of(
    alloc: Global,
    known: &Known,
    side: Side,
    table: &(Name, u32, Shape),
) -> Result<View, NoMemory>
    requires known { widths.is_narrow known.now ≡ true }
    requires table { widths.table_is_narrow table.now ≡ true }
    ensures { IfOk result (λ view. view ≡ spec.view_of known.now side table.now) }
{
    let positions = positions(alloc, known, side, table)?;
    let columns = placed(alloc, table.2.columns.as_slice(), positions.as_slice())?;
    let name = table.0.copy(alloc)?;
    Ok(View { name, columns })
}

/// The views of a side's tables, by the tables' numbers. An error is want of memory.
pub(crate) fn views_on(
    alloc: Global,
    known: &Known,
    side: Side,
) -> Result<IndexMap<u32, View>, NoMemory>
    requires { widths.is_narrow known.now ≡ true }
    ensures { IfOk result (λ views. (number : ℕ) → get nat_eq views number ≡ spec.view_on known.now side number) }
{
    let mut views = IndexMap::new(alloc);
    for table in tables_on(known, side) {
        if !views.contains_key(&table.1) {
            let view = view_of(alloc, known, side, table)?;
            views.insert(table.1, view)?;
        }
    }
    Ok(views)
}
