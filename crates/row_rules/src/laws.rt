//! Laws over the definitions alone. Each is the contract of a function that does nothing.
ghost use Rattle.row_rules.specs.Laws.{ChangesKeepOrder, OldShowsOldHalves, ValidRowsHaveNoCause};

/// Where rows ascend by key, they do so after any changes.
pub fn changes_keep_order()
    ensures { ChangesKeepOrder }
{}

/// What a row shows through the old version never depends on its new half.
pub fn the_old_version_shows_old_halves()
    ensures { OldShowsOldHalves }
{}

/// Where the new halves of rows meet each constraint, none of them has a cause by itself, and none clashes with another
/// one.
pub fn valid_rows_have_no_cause()
    ensures { ValidRowsHaveNoCause }
{}
