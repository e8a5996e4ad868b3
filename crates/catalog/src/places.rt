//! The places of the stored rows of a table that both of a migration's versions have.
ghost use Rattle.std.specs.Prelude.{◌≡◌, ◌++◌, IfOk};
ghost use Rattle.mig_lens.specs.Layout as layouts;
ghost use Rattle.mig_lens.specs.Lens as lenses;
ghost use Rattle.phase_steps.specs.Places as steps;
ghost use Rattle.catalog.specs.Places as lent;
ghost use Rattle.catalog.specs.Views as spec;

use crate::pairs::PairRef;
use crate::versions::Stage;
use mig_lens::{Cell, Lens, Side};
use sql_base::{List, NoMemory};
use std::alloc::Global;

/// The place of the old column, or of the new one that isn't carried, with this number, or of the mark.
#[derive(Clone, Copy)]
pub(crate) enum RowPlace {
    Own(usize),
    Shadow(usize),
    Mark,
}

/// Whether two places are one.
pub(crate) fn is_same_place(one: RowPlace, other: RowPlace) -> bool
    ensures { result ≡ steps.same_place (lent.place one) (lent.place other) }
{
    match (one, other) {
        (RowPlace::Own(i), RowPlace::Own(j)) | (RowPlace::Shadow(i), RowPlace::Shadow(j)) => i == j,
        (RowPlace::Mark, RowPlace::Mark) => true,
        _ => false,
    }
}

fn is_carry(cell: &Cell) -> bool
    ensures { result ≡ lenses.is_carry cell.now }
{
    match cell {
        Cell::Carry(_) => true,
        Cell::Make(_) | Cell::Still(_) => false,
    }
}

fn is_make(cell: &Cell) -> bool
    ensures { result ≡ layouts.is_make cell.now }
{
    match cell {
        Cell::Make(_) => true,
        Cell::Carry(_) | Cell::Still(_) => false,
    }
}

pub(crate) fn has_mark(lens: &Lens) -> bool
    ensures { result ≡ layouts.has_mark lens.now }
{
    lens.new_cols.as_slice().iter().any(|cell| is_make(cell))
}

/// The places of old columns.
fn old_places(alloc: Global, cells: &[Cell]) -> Result<List<RowPlace>, NoMemory>
    ensures { IfOk result (λ places. lent.all places ≡ steps.old_places cells.now) }
{
    let mut places = List::new(alloc);
    for (at, _) in cells.iter().enumerate() {
        places.push(RowPlace::Own(at))?;
    }
    Ok(places)
}

/// The places of the old columns that are carried.
fn carried_places(alloc: Global, cells: &[Cell]) -> Result<List<RowPlace>, NoMemory>
    ensures { IfOk result (λ places. lent.all places ≡ steps.carried_places cells.now) }
{
    let mut places = List::new(alloc);
    for (at, cell) in cells.iter().enumerate() {
        if is_carry(cell) {
            places.push(RowPlace::Own(at))?;
        }
    }
    Ok(places)
}

/// These places, and then those of the new columns that aren't carried.
fn with_shadow_places(
    mut places: List<RowPlace>,
    cells: &[Cell],
) -> Result<List<RowPlace>, NoMemory>
    ensures { IfOk result (λ all. lent.all all ≡ lent.all places ++ steps.shadow_places cells.now) }
{
    for (at, cell) in cells.iter().enumerate() {
        if !is_carry(cell) {
            places.push(RowPlace::Shadow(at))?;
        }
    }
    Ok(places)
}

/// These places, and then that of the mark, where there is one.
fn with_mark_place(mut places: List<RowPlace>, mark: bool) -> Result<List<RowPlace>, NoMemory>
    ensures { IfOk result (λ all. lent.all all ≡ lent.all places ++ steps.mark_places mark) }
{
    if mark {
        places.push(RowPlace::Mark)?;
    }
    Ok(places)
}

fn new_place(at: usize, cell: &Cell) -> RowPlace
    ensures { lent.place result ≡ steps.new_place (at, cell.now) }
{
    match cell {
        Cell::Carry(from) => RowPlace::Own(*from as usize),
        Cell::Make(_) | Cell::Still(_) => RowPlace::Shadow(at),
    }
}

/// The places that the new version's view selects.
fn new_places(alloc: Global, cells: &[Cell]) -> Result<List<RowPlace>, NoMemory>
    ensures { IfOk result (λ places. lent.all places ≡ steps.new_places cells.now) }
{
    let mut places = List::new(alloc);
    for (at, cell) in cells.iter().enumerate() {
        places.push(new_place(at, cell))?;
    }
    Ok(places)
}

fn paired_places(alloc: Global, pair: PairRef<'_>) -> Result<List<RowPlace>, NoMemory>
    ensures { IfOk result (λ places. lent.all places ≡ steps.paired_places (lent.pair pair.entry)) }
{
    let old = old_places(alloc, pair.lens.old_cols.as_slice())?;
    let halves = with_shadow_places(old, pair.lens.new_cols.as_slice())?;
    with_mark_place(halves, has_mark(pair.lens))
}

fn trimmed_places(alloc: Global, pair: PairRef<'_>) -> Result<List<RowPlace>, NoMemory>
    ensures { IfOk result (λ places. lent.all places ≡ steps.trimmed_row_places (lent.pair pair.entry)) }
{
    let carried = carried_places(alloc, pair.lens.old_cols.as_slice())?;
    with_shadow_places(carried, pair.lens.new_cols.as_slice())
}

/// The places of a stored row of the pair.
pub(crate) fn row_places(
    alloc: Global,
    stage: &Stage,
    pair: PairRef<'_>,
) -> Result<List<RowPlace>, NoMemory>
    ensures { IfOk result (λ places. lent.all places ≡ spec.row_places stage.now (lent.pair pair.entry)) }
{
    match stage {
        Stage::AfterSecond { .. } => trimmed_places(alloc, pair),
        Stage::Calm | Stage::Both { .. } | Stage::AfterFirst { .. } | Stage::RolledBack { .. } =>
            paired_places(alloc, pair),
    }
}

/// Which of the migration's two versions stands on a side.
fn half_of(stage: &Stage, side: Side) -> Side
    ensures { result ≡ spec.half_of stage.now side }
{
    match stage {
        Stage::Calm | Stage::Both { .. } => side,
        Stage::AfterFirst { .. } | Stage::AfterSecond { .. } => Side::New,
        Stage::RolledBack { .. } => Side::Old,
    }
}

/// The places that the view of a side selects.
pub(crate) fn selected_places(
    alloc: Global,
    stage: &Stage,
    side: Side,
    pair: PairRef<'_>,
) -> Result<List<RowPlace>, NoMemory>
    ensures { IfOk result (λ places. lent.all places ≡ spec.selected stage.now side (lent.pair pair.entry)) }
{
    match half_of(stage, side) {
        Side::Old => old_places(alloc, pair.lens.old_cols.as_slice()),
        Side::New => new_places(alloc, pair.lens.new_cols.as_slice()),
    }
}
