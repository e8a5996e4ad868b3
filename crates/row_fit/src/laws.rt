//! The laws of rows that fit. Each is the contract of a function that does nothing.
ghost use Rattle.row_fit.specs.Laws.{RowsAreAsMarked, RowsFitByTheirMarks};

/// While both versions stand, a row of the layout is a filled one where its mark is false or its table has none, and one
/// that is still to be filled where its mark is true and it is what START leaves of its old half. No other row is
/// either.
pub fn rows_fit_by_their_marks()
    ensures fitting { RowsFitByTheirMarks }
    ensures marked { RowsAreAsMarked }
{
    trigger_pair::laws::pairs_are_long();
    trigger_pair::laws::paired_rows_are_long();
    phase_steps::laws::rows_fit_their_places();
}
