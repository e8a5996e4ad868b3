//! Laws of rows by key, over its definitions alone. Each is the contract of a function that does nothing.
ghost use Rattle.row_store.specs.Laws.{FirstIsLeast, PutIsInOrder, RemovedIsLeftOut};

/// In the order of the keys a row that is put has its place between the lesser keys and the greater ones, or takes that of its own key's row; and where a row is removed the others stay in their order.
pub fn changes_keep_order()
    ensures put { PutIsInOrder }
    ensures removed { RemovedIsLeftOut }
{}

/// What a scan finds is the least key that isn't below the one that it begins with; and where it finds none there is no such key.
pub fn scans_find_the_least()
    ensures { FirstIsLeast }
{}
