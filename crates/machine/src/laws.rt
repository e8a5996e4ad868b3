//! Laws of the machine, over its definitions alone. Each is the contract of a function that does nothing.
ghost use Rattle.machine.specs.Below.{Below};
ghost use Rattle.machine.specs.Laws.{StepsKeepStates, RunsReachStates, RefusalsChangeNothing, BegunHalvesAreMade, OldShowsOldHalves, PlainStepsAreSteps, LaneStepsAreSteps, LaneRunsAreRuns, StepsKeepLaws, RunsReachLawful, OnlyCommandsAreRefused, BatchesLeaveFewer, UnfilledRowsAreFew, StepsLeaveFewer, StepsAreFew, StepsBackLeaveFewer, StepsBackAreFew, PhasesSaySteps, RollingBackIsDone, OldHalvesStay, FoundStands, WritesStand, ShowsStand, SharedStands, FillingStands, RowsStandBy, RowsOnSites, ChangesKeep, ChangesAgree, TablesHaveTheirRows, TablesAreKnown, BothAreShared, SharedByLenses, FilledRowsHaveHalves, StartsStand, PutRowsKeepStates, KeepingRowsMayBePut, FramesTell};

use mig_lens::laws::{carried_columns_keep_their_values, made_halves_fit};
use mig_plan::laws::{
    created_tables_are_numbered, planned_schemas_are_well_formed, planned_tables_have_fates,
};
use row_rules::laws::{changes_keep_order, valid_rows_have_no_cause};
use sql_eval::laws::typed_values_are_of_their_types;

// What the layers below say of values, of lenses, of rows and of plans.
fn laws_below()
    ensures { Below }
{
    typed_values_are_of_their_types();
    made_halves_fit();
    carried_columns_keep_their_values();
    changes_keep_order();
    valid_rows_have_no_cause();
    planned_schemas_are_well_formed();
    planned_tables_have_fates();
    created_tables_are_numbered();
}

/// A step from a state that stands leads to one, and so does every run that begins as the program does: rows have
/// their halves, which fit their shapes and have the row's key; rows ascend by key; schemas are well formed; each table
/// of two versions that stand is joined by its lens, or is one version's alone.
pub fn states_stand()
    ensures steps { StepsKeepStates }
    ensures runs { RunsReachStates }
{
    laws_below();
}

/// An event that is refused changes nothing, and neither does a SELECT or a SET.
pub fn refusals_change_nothing()
    ensures { RefusalsChangeNothing }
{}

/// Where no new column is made by an expression, the new half that a row begins with is the one that the lens makes.
pub fn begun_halves_are_made()
    ensures { BegunHalvesAreMade }
{}

/// What a row shows through the old version never depends on its new half.
pub fn the_old_version_shows_old_halves()
    ensures { OldShowsOldHalves }
{}

/// In a state that stands the plain step is one of the machine's steps.
pub fn plain_steps_are_steps()
    ensures { PlainStepsAreSteps }
{}

/// What one lane does, whose batches take the least keys that are to be filled, is a run of the machine.
pub fn lane_runs_are_runs()
    ensures steps { LaneStepsAreSteps }
    ensures runs { LaneRunsAreRuns }
{
    laws_below();
}

/// A step from a lawful state that stands leads to a lawful one, and every run that begins as the program does reaches
/// lawful states alone: while one version stands no row has a fault or has the same values as another in the
/// columns of a unique constraint; while a migration is active no old half does, nor any new half of a table of which
/// a new column has to be made. No half weighs more than its limit.
pub fn states_stay_lawful()
    ensures steps { StepsKeepLaws }
    ensures runs { RunsReachLawful }
{
    laws_below();
}

/// Only a command is answered REFUSED.
pub fn only_commands_are_refused()
    ensures { OnlyCommandsAreRefused }
{}

/// In a state that stands a batch that fills rows leaves fewer rows that have no new half, and there are at most
/// 262,144 of these. So batch after batch comes to an end.
pub fn batches_come_to_an_end()
    ensures fewer { BatchesLeaveFewer }
    ensures few { UnfilledRowsAreFew }
{}

/// A step of completing that isn't the last leaves fewer steps that may come, and there are at most three.
pub fn completing_comes_to_an_end()
    ensures fewer { StepsLeaveFewer }
    ensures few { StepsAreFew }
{}

/// A step of rolling back that isn't the last leaves fewer steps that may come, and there are at most two.
pub fn rolling_back_comes_to_an_end()
    ensures fewer { StepsBackLeaveFewer }
    ensures few { StepsBackAreFew }
{}

/// How far a migration has come says alone which step of completing or of rolling back comes next, and what stands against
/// it but for the rows. The rows never stand against rolling back.
pub fn phases_say_steps()
    ensures steps { PhasesSaySteps }
    ensures accepted { RollingBackIsDone }
{}

/// Rolling back leaves the rows of the old version as that has them at this moment.
pub fn rolling_back_keeps_old_halves()
    ensures { OldHalvesStay }
{}

/// In a state that stands a table that a path finds is its version's, its shape is well formed, and the lens of its site,
/// where there is one, joins the two shapes; so it is with the site of a statement and with that of a batch. The rows of
/// a number ascend by key, and each has its halves, which fit the shapes and have its key. A job's changes keep it so.
pub fn sites_stand()
    ensures found { FoundStands }
    ensures writes { WritesStand }
    ensures shows { ShowsStand }
    ensures shared { SharedStands }
    ensures filling { FillingStands }
    ensures rows { RowsStandBy }
    ensures on_site { RowsOnSites }
    ensures changes { ChangesKeep }
{
    laws_below();
}

/// Where rows are put by a job of a shared table, a column that is carried has one value in both halves, if it has in the
/// rows that they are made of.
pub fn carried_columns_agree()
    ensures { ChangesAgree }
{
    laws_below();
}

/// In a state that stands each table has the rows of its number, and is one of a version that stands. A table that both
/// versions have is joined by a lens, the one that the plan gave it, and only such a table has one. Where no row is still
/// to be filled, each row of a table that the new version has has its new half. What a migration begins with stands.
pub fn tables_stand()
    ensures rows { TablesHaveTheirRows }
    ensures known { TablesAreKnown }
    ensures both { BothAreShared }
    ensures lenses { SharedByLenses }
    ensures filled { FilledRowsHaveHalves }
    ensures starts { StartsStand }
{
    laws_below();
}

/// Rows from outside, as a record brings them, may be put into one table of a lawful state that stands exactly where the
/// state afterwards is such a state. Of the state its versions and its steps of tidying are looked at, the table's rows
/// and the number of all rows.
pub fn rows_put_keep_states()
    ensures kept { PutRowsKeepStates }
    ensures all { KeepingRowsMayBePut }
    ensures frames { FramesTell }
{
    laws_below();
}
