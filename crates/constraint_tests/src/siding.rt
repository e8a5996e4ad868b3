//! A caller of the indexes of a side.
ghost use Rattle.std.specs.Prelude.{◌≡◌, OnErr, OnOk, map};
ghost use Rattle.row_rules.specs.Accept.{present};
ghost use Rattle.row_rules.specs.Changes.{after_changes};
ghost use Rattle.row_rules.specs.Rows.{Ascends};
ghost use Rattle.row_index.specs.Indexes.{IsOver, entries_of};

use mig_lens::Side;
use row_index::SideIndex;
use row_index::laws::{changes_are_indexed, prepared_changes_have_room};
use row_rules::{Change, Kept};
use sql_base::NoMemory;
use std::alloc::Global;

/// Changes the indexes of a side as rows are changed. An error is want of memory, and then the values are as they were.
pub fn change(
    alloc: Global,
    index: &mut SideIndex,
    side: Side,
    rows: &[Kept],
    changes: &[Change],
) -> Result<(), NoMemory>
    requires order { Ascends rows.now }
    requires over { IsOver (present side rows.now) index.old }
    ensures ok { OnOk result (IsOver (present side (after_changes changes.now rows.now)) index.new) }
    ensures err { OnErr result (entries_of index.new.indexes ≡ entries_of index.old.indexes) }
{
    changes_are_indexed();
    prepared_changes_have_room();
    let prepared = index.prepare(alloc, side, changes)?;
    let Ok(count) = u32::try_from(changes.len()) else {
        return Err(NoMemory);
    };
    index.reserve(count)?;
    index.apply(prepared);
    Ok(())
}
