//! The laws of lenses. Each is the contract of a function that does nothing.

ghost use Rattle.mig_lens.specs.Laws.{ForwardFits, BackwardFits, BackwardOfForward, ForwardCarries, BackwardCarries, UnmadeNeverFaults};

/// A half that is made from one that fits its shape fits the other shape, and has the same key.
///
/// It holds both ways, for every lens that is well formed over the two shapes and fits them, whether or not the row
/// had a half there before.
pub fn made_halves_fit()
    ensures forward { ForwardFits }
    ensures backward { BackwardFits }
{
    sql_eval::laws::typed_values_are_of_their_types();
}

/// Where every old column is carried, as after `add_column`, an old half comes back from the new half that was made
/// from it.
pub fn nothing_is_lost_forward()
    ensures { BackwardOfForward }
{}

/// A column that carries one of the other side has that one's value, whatever the half before was.
pub fn carried_columns_keep_their_values()
    ensures forward { ForwardCarries }
    ensures backward { BackwardCarries }
{}

/// Where no new column is made by an expression, each old half has a new half.
pub fn constants_never_fault()
    ensures { UnmadeNeverFaults }
{}
