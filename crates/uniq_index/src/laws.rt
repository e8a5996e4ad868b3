//! Laws of an index of values, over its definitions alone. Each is the contract of a function that
//! changes nothing.
ghost use Rattle.uniq_index.specs.Laws as laws;

use row_store::laws::changes_keep_order;

/// In an index of what rows have in the columns of a unique constraint a row's values clash as the
/// row does; and values of which one is NULL clash with none.
pub fn clashes_are_those_of_rows()
    ensures rows { laws.ClashesAreThoseOfRows }
    ensures nulls { laws.NullsClashWithNone }
    ensures beside { laws.NullsClashBesideNone }
{}

/// Beside one key alone it is the clash of that key.
pub fn beside_one_key_it_is_its_clash()
    ensures { laws.BesideOneKey }
{}

/// Such an index stays one where a row's values are put as the row is, and where the row's key is
/// removed.
pub fn changes_are_indexed()
    ensures put { laws.PutIsIndexed }
    ensures removed { laws.RemovedIsNotIndexed }
{
    changes_keep_order();
}
