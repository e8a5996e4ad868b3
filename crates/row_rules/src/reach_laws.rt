//! Laws of the reach of a statement, over the definitions alone. Each is the contract of a function that does nothing.
ghost use Rattle.row_rules.specs.Forms.{FormsName, NamedByForm};
ghost use Rattle.row_rules.specs.InReach.{AltersWithin, MatchesWithin, ReachesOne, RemovesWithin, ShowsWithin, StandingShowKeys};

/// A condition names a key exactly where it is `key = n` or `n = key`, with an integer literal, or an AND whose left
/// operand names it.
pub fn conditions_name_keys_by_their_form()
    ensures only { NamedByForm }
    ensures each { FormsName }
{}

/// A row whose half on the statement's side fits the shape, with the row's key in the key's place, shows its key; so does
/// a row without its new half through the new version, where the new key carries the old one.
pub fn standing_rows_show_their_keys()
    ensures { StandingShowKeys }
{}

/// A statement whose WHERE names one key looks at no other row than that of this key. Over rows that show their keys,
/// which rows pass, what an UPDATE or a DELETE does, and what a SELECT shows are the same as over the rows reached
/// alone, value or fault: of a row of another key the WHERE is false, and nothing faults.
pub fn statements_stay_within_reach()
    ensures matching { MatchesWithin }
    ensures altering { AltersWithin }
    ensures removing { RemovesWithin }
    ensures showing { ShowsWithin }
{}

/// Of rows in ascending key the rows of one key are its row, or none. So a table that finds a row by its key needs to
/// look at no other.
pub fn a_key_reaches_one_row()
    ensures { ReachesOne }
{}
