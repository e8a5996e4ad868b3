//! The laws of the views and of valid constraints. Each is the contract of a function that does nothing.
ghost use Rattle.catalog.specs.Laws.{OldConstraintsStayValid, PositionsAreWithin, PositionsFindSelected, PositionsFindShown, ValidWhileCalm, ViewsNameColumns};

/// The view of a table that both of a migration's versions have names each of the version's columns, in order, with the
/// positions of what it selects.
pub fn views_name_columns()
    ensures { ViewsNameColumns }
{
    trigger_pair::laws::pairs_are_long();
}

/// The positions that a view gives for a table that both of a migration's versions have are those of stored values, and
/// there stands what the view selects: what the version shows of the row.
pub fn views_find_what_is_shown()
    ensures within { PositionsAreWithin }
    ensures selected { PositionsFindSelected }
    ensures shown { PositionsFindShown }
{
    phase_steps::laws::views_select_places();
    phase_steps::laws::steps_keep_places();
}

/// While no migration is active each constraint of the version that stands is valid, and at any stage each constraint of
/// the old version is.
pub fn constraints_are_valid()
    ensures calm { ValidWhileCalm }
    ensures old { OldConstraintsStayValid }
{}
