//! Laws of constraints, over their definitions alone. Each is the contract of a function that does
//! nothing.
ghost use Rattle.constraint.specs.Laws.{NoneIsToldOfValidRows};

/// No constraint is told exactly where no row has a fault and none clashes with another one.
pub fn none_is_told_of_valid_rows()
    ensures { NoneIsToldOfValidRows }
{}
