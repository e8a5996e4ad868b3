//! The laws of stored rows. Each is the contract of a function that does nothing.
ghost use Rattle.trigger_pair.specs.Laws.{BeginningLeaves, BegunRowsHold, FilledRowsAreLong, FilledRowsHold, FillingFills, NewWritesFill, NewWritesHold, OldWritesFill, OldWritesHold, PairsAreLong, StoredRowsHold, UnfilledRowsAreBegun};

/// After a write through a version the stored row shows through that version the half that was written, and through the
/// other one what the lens makes of it and of the other half before. It isn't marked, and has a value for each place:
/// where the layout has a mark that is false, and not NULL.
pub fn writes_hold()
    ensures old { OldWritesHold }
    ensures new { NewWritesHold }
{
    mig_lens::laws::carried_columns_keep_their_values();
}

/// A filled row shows its old half as it was, and the new half that the lens makes of it without one before. It isn't
/// marked, and has a value for each place.
pub fn filled_rows_hold()
    ensures { FilledRowsHold }
{
    mig_lens::laws::carried_columns_keep_their_values();
}

/// A row that START leaves shows its values through the old version, and through the new one carried values, constants,
/// and NULL for what is still to be made. It is marked exactly where the layout has a mark, and has a value for each
/// place.
pub fn begun_rows_hold()
    ensures { BegunRowsHold }
{}

/// A write leaves a filled row, if the other half before fitted, where there was one; a fill leaves a filled row; and
/// START leaves rows that are still to be filled where the layout has a mark, and filled ones elsewhere. So while both
/// versions stand each stored row is filled or still to be filled.
pub fn stored_rows_are_paired()
    ensures old { OldWritesFill }
    ensures new { NewWritesFill }
    ensures filling { FillingFills }
    ensures begun { BeginningLeaves }
{
    mig_lens::laws::made_halves_fit();
}

/// Such a row has a value for each place of the layout. It is marked exactly where it is still to be filled, and then it
/// is what START leaves of its old half.
pub fn paired_rows_are_long()
    ensures filled { FilledRowsAreLong }
    ensures unfilled { UnfilledRowsAreBegun }
{}

/// The stored row of two halves shows the two, where each has a value for each of its columns and the two agree in each
/// column that is carried. It has a value for each place, and its mark, where the layout has one, is what was asked.
pub fn stored_rows_hold()
    ensures { StoredRowsHold }
{}

/// The lens of a pair has a cell for each column of either version.
pub fn pairs_are_long()
    ensures { PairsAreLong }
{}
