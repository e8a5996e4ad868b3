//! The laws of types and values. Each is the contract of a function that does nothing.

ghost use Rattle.sql_eval.specs.Laws.{EvaluatingWantsNothing, LooksAtNamedColumns, TypedIsSound, TypingWantsNothing};

/// Over a row that fits, a typed expression comes to NULL, to a value of its type, or to a fault.
///
/// It holds for every shape, row and expression.
pub fn typed_values_are_of_their_types()
    ensures { TypedIsSound }
{}

/// Over two rows that agree in the columns that an expression names it comes to the same, value or fault.
///
/// The two rows may be of one shape or of two.
pub fn values_rest_on_named_columns()
    ensures { LooksAtNamedColumns }
{}

/// What an expression comes to, and its type, are never want of memory: only a call may answer that.
///
/// It holds for every shape, row and expression, whether or not the row fits.
pub fn expressions_want_nothing()
    ensures evaluating { EvaluatingWantsNothing }
    ensures typing { TypingWantsNothing }
{}
