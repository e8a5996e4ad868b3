//! The laws of the steps. Each is the contract of a function that does nothing.
ghost use Rattle.phase_steps.specs.Laws.{CompletedRowsShow, KeepsPlaces, LaidRowsAreLong, LaidRowsShowFitting, Leaves, LeftRowsAreFilled, LeftRowsAreLaid, LeftRowsKeep, LeftRowsShow, OthersTakeAStep, PairedRowsAreLaid, PlacesAreTheLayouts, RefusedTakeNoStep, ReturnedRowsKeep, ReturnedRowsShow, Selects, TrimmedPlacesAreTheColumns, TrimmedRowsAreLong, TrimmedRowsShowFitting, TrimmingKeepsView, TrimmingLeavesTrimmed};
ghost use Rattle.trigger_pair.specs.Stored.{new_view, old_view};
ghost use Rattle.phase_steps.specs.declared.phases.Cmd.TheVariants as cmd;
ghost use Rattle.phase_steps.specs.Places.{completed_places, paired_places, rolled_back_places, trimmed_row_places};

/// A row that is written between C1 and C2 shows the values that were written, and has a value for each place. In an old
/// column that isn't carried it has what was there before, or NULL.
pub fn left_rows_show_what_was_written()
    ensures shown { LeftRowsShow }
    ensures kept { LeftRowsKeep }
{
    trigger_pair::laws::pairs_are_long();
    trigger_pair::laws::stored_rows_hold();
}

/// C2 and C3 change nothing that the new version shows: C2 keeps what the view selects, and after C3 a row is just that.
pub fn completing_changes_no_view()
    ensures trimmed { TrimmingKeepsView }
    ensures ordered { CompletedRowsShow }
{
    trigger_pair::laws::pairs_are_long();
}

/// The places of a stored row from START to C2 or B2 are those of the layout that the two shapes and the lens have, by
/// its names and in its order; between C2 and C3 they are those of the carried columns and the shadow places. The old
/// version's view selects those of the old columns, and the new version's for each column that of the one which it carries,
/// or its own.
pub fn views_select_places()
    ensures layout { PlacesAreTheLayouts }
    ensures trimmed { TrimmedPlacesAreTheColumns }
    ensures old { Selects old_view rolled_back_places }
    ensures new { Selects new_view completed_places }
{
    trigger_pair::laws::pairs_are_long();
}

/// C2, C3 and B2 keep what a row has in each place that stays. After C2 the places are those of carried old columns and
/// of new columns that aren't carried, which are those of before that the new version's view selects; after C3 they are
/// the same in that view's order; and after B2 those that the old version's view selects.
pub fn steps_keep_places()
    ensures removed { KeepsPlaces 2 paired_places trimmed_row_places }
    ensures ordered { KeepsPlaces 3 trimmed_row_places completed_places }
    ensures rolled_back { KeepsPlaces 5 paired_places rolled_back_places }
    ensures completing_leaves { Leaves trimmed_row_places completed_places }
    ensures rolling_back_leaves { Leaves rolled_back_places rolled_back_places }
{
    trigger_pair::laws::pairs_are_long();
}

/// While steps of completing or of rolling back are left, a row is stored by the pair's layout until C2 or B2: it has a
/// value for each place, NULL or of the place's type. The rows from START on are such rows. What either view selects of
/// one fits its version's columns. After C2 the same holds of the old columns that are carried and the shadow places.
pub fn rows_fit_their_places()
    ensures begun { PairedRowsAreLaid }
    ensures long { LaidRowsAreLong }
    ensures shown { LaidRowsShowFitting }
    ensures trimmed_long { TrimmedRowsAreLong }
    ensures trimmed_shown { TrimmedRowsShowFitting }
{
    trigger_pair::laws::pairs_are_long();
}

/// A row that is written between C1 and C2, over a row of the layout or none, is a filled row, and so one of the layout. C2
/// leaves of a row of the layout the carried columns and the shadow places, and nothing else: the lost columns and the mark
/// are gone.
pub fn rows_are_stored_by_the_step()
    ensures left { LeftRowsAreFilled }
    ensures laid { LeftRowsAreLaid }
    ensures trimmed { TrimmingLeavesTrimmed }
{
    trigger_pair::laws::pairs_are_long();
}

/// A row that is written between B1 and B2, over a row of the layout or none, shows the values that were written, and is a
/// row of the layout. In a column of the new version that isn't carried it has what was there before, or NULL.
pub fn returned_rows_show_what_was_written()
    ensures shown { ReturnedRowsShow }
    ensures kept { ReturnedRowsKeep }
{
    trigger_pair::laws::pairs_are_long();
}

/// A step of completing and one of rolling back are taken exactly where nothing stands against them: where `may` has a
/// refusal `next_step` has no step, and where it has none there is one.
pub fn refused_commands_take_no_step()
    ensures completing_refused { RefusedTakeNoStep cmd.Complete }
    ensures completing_allowed { OthersTakeAStep cmd.Complete }
    ensures rolling_back_refused { RefusedTakeNoStep cmd.Rollback }
    ensures rolling_back_allowed { OthersTakeAStep cmd.Rollback }
{}
