//! Laws of the indexes of a side, over the definitions alone. Each is the contract of a function that changes nothing.
ghost use Rattle.row_index.specs.Laws as laws;

/// Where the indexes hold what the halves of rows have, which ascend by key, they do so of the rows after any changes,
/// where the changes were put into each index.
pub fn changes_are_indexed()
    ensures each { laws.ChangesAreIndexed }
    ensures one { laws.ChangesAreInIndex }
{
    row_rules::laws::changes_keep_order();
    uniq_index::laws::changes_are_indexed();
}

/// Where there is an index of a constraint's columns, it has values under another key exactly where another row has a half
/// with these values.
pub fn others_are_those_of_rows()
    ensures { laws.OthersAreThoseOfRows }
{}

/// Where each index has room for as many keys as there are changes, there is room for what they come to in each.
pub fn prepared_changes_have_room()
    ensures { laws.PreparedHaveRoom }
{}
