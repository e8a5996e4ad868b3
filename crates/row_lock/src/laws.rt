//! Laws of holding, over its definitions alone. Each is the contract of a function that does nothing.
ghost use Rattle.row_lock.specs.Laws.{ReleasesEach, ReleasingFrees, TakingHolds};

/// After a ticket has taken what nobody held, it holds just that more: each key is held as it was, but for those that it took.
pub fn taking_holds()
    ensures { TakingHolds }
{}

/// After a ticket was released nobody holds what it held, and everything else is held as it was.
pub fn releasing_frees()
    ensures { ReleasingFrees }
{}

/// Where the locks are those of a list of entries, each with its ticket, table and reach, the locks without a ticket's are those of the entries without that ticket's.
pub fn releasing_follows_entries<X>()
    ensures { ReleasesEach X }
{}
