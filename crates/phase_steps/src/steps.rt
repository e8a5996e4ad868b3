//! The steps from the start of a migration until one version stands alone.
ghost use Rattle.std.specs.Prelude.{◌≡◌, true, IfOk};
ghost use Rattle.phase_steps.specs.Rows as spec;

use crate::cells::has_mark;
use crate::trimming::{first, trimmed, trimmed_view};
use mig_lens::Lens;
use sql_base::{List, NoMemory, Shape, Value};
use std::alloc::Global;
use trigger_pair::parts::{begun_row, with_all};

/// The stored row of a table that both versions have, after a step, from the row before it.
///
/// After START, which is 0, it is the row that is still to be filled; after C2, which is 2, and C3, which is 3, what
/// `trimmed` and `trimmed_view` say; and after B2, which is 5, its old columns alone. C1 and B1, which are 1 and 4,
/// change no stored row, and there are no other steps. An error is want of memory.
pub fn restore(
    alloc: Global,
    step: u8,
    old: &Shape,
    new: &Shape,
    lens: &Lens,
    row: &[Value],
) -> Result<List<Value>, NoMemory>
    ensures { IfOk result (λ stored. stored ≡ spec.restored step old.now new.now lens.now row.now) }
{
    match step {
        0 => begun_row(alloc, lens, has_mark(lens), row),
        2 => trimmed(alloc, lens, row),
        3 => trimmed_view(alloc, lens, row),
        5 => with_all(alloc, List::new(alloc), first(row, old.columns.len())),
        _ => with_all(alloc, List::new(alloc), row),
    }
}
