//! ROLLBACK: one step of a migration's rolling back.
ghost use Rattle.std.specs.Prelude.{◌≡◌, [], false, true, IfOk, None, Ok, OnErr, OnOk, is_some, map};
ghost use Rattle.mig_lens.specs.declared.faults.Kind.TheVariants as kind;
ghost use Rattle.machine.specs.Laws.{leaves_all};
ghost use Rattle.machine.specs.Migrate as migrate;
ghost use Rattle.roll_core.specs.Running.{meant};
ghost use Rattle.roll_core.specs.Seen.{parts, seen};
ghost use Rattle.roll_core.specs.Stepping as spec;
ghost use Rattle.roll_core.specs.Store as model;

use crate::laws::laws_below;
use crate::leaving::leave;
use crate::store::{Former, StoredTable};
use crate::tidying::tidied_tables;
use machine::{Mode, Reply, State};
use mig_lens::{Kind, Refusal, Side};
use row_rules::Stop;
use sql_base::{List, NoMemory};
use std::alloc::Global;

// No step is left, and nothing is lost any more.
fn tidied_frame(alloc: Global, frame: &mut State)
    ensures { frame.new ≡ spec.tidied_back_frame frame.old }
{
    frame.left = 0;
    frame.kind = Kind::Nothing;
    frame.lost_columns = List::new(alloc);
}

// The second step, which is the last: the old columns are left, and nothing is kept of the new version.
fn tidied(
    alloc: Global,
    frame: &mut State,
    former: &mut Option<Former>,
    tables: &mut Vec<StoredTable>,
) -> Result<Reply, NoMemory>
    requires stored { model.IsStored (parts frame.old former.old tables.old.items) }
    requires left { frame.old.kind ≡ kind.Rollback }
    ensures goes { IfOk result (λ reply. spec.Goes (parts frame.old former.old tables.old.items) (migrate.rollback (meant frame.old (map seen tables.old.items))) (Ok reply) (parts frame.new former.new tables.new.items)) }
    ensures changes { IfOk result (λ reply. leaves_all reply ≡ false) }
    ensures stored { OnOk result (parts frame.new former.new tables.new.items ≡ spec.tidied_back_parts (parts frame.old former.old tables.old.items)) }
    ensures kept { spec.AreKept (parts frame.new former.new tables.new.items) }
    ensures err { OnErr result (parts frame.new former.new tables.new.items ≡ parts frame.old former.old tables.old.items) }
{
    let next = tidied_tables(alloc, tables)?;
    *tables = next;
    *former = None;
    tidied_frame(alloc, frame);
    Ok(Reply::Rollback(2))
}

// The first step: the new version goes, whatever the rows are.
fn return_old(
    alloc: Global,
    frame: &mut State,
    former: &mut Option<Former>,
    tables: &mut Vec<StoredTable>,
) -> Result<Reply, NoMemory>
    requires stored { model.IsStored (parts frame.old former.old tables.old.items) }
    requires none { frame.old.kind ≡ kind.Nothing }
    requires active { is_some (migrate.active_name frame.old.mode) ≡ true }
    ensures goes { IfOk result (λ reply. spec.Goes (parts frame.old former.old tables.old.items) (migrate.rollback (meant frame.old (map seen tables.old.items))) (Ok reply) (parts frame.new former.new tables.new.items)) }
    ensures changes { IfOk result (λ reply. leaves_all reply ≡ false) }
    ensures stored { OnOk result (parts frame.new former.new tables.new.items ≡ spec.left_parts Side.New (parts frame.old former.old tables.old.items)) }
    ensures kept { spec.AreKept (parts frame.new former.new tables.new.items) }
    ensures err { OnErr result (parts frame.new former.new tables.new.items ≡ parts frame.old former.old tables.old.items) }
{
    laws_below();
    leave(alloc, Side::New, frame, former, tables)?;
    Ok(Reply::Rollback(1))
}

/// Does the next step of the migration's rolling back, and answers why it can't be done. It isn't looked at whether a row is
/// still to be filled, and the first step touches no row. After an error all is stored as before.
pub fn rollback(
    alloc: Global,
    frame: &mut State,
    former: &mut Option<Former>,
    tables: &mut Vec<StoredTable>,
) -> Result<Reply, Stop<Refusal>>
    requires { model.IsStored (parts frame.old former.old tables.old.items) }
    ensures goes { spec.Goes (parts frame.old former.old tables.old.items) (migrate.rollback (meant frame.old (map seen tables.old.items))) result (parts frame.new former.new tables.new.items) }
    ensures changes { IfOk result (λ reply. leaves_all reply ≡ false) }
    ensures stored { OnOk result (parts frame.new former.new tables.new.items ≡ spec.rolled_back_parts (parts frame.old former.old tables.old.items)) }
    ensures kept { spec.AreKept (parts frame.new former.new tables.new.items) }
{
    match frame.kind {
        Kind::Nothing => match &frame.mode {
            Mode::Calm => Err(Stop::Because(Refusal::NoActive)),
            Mode::Both { .. } => Ok(return_old(alloc, frame, former, tables)?),
        },
        Kind::Complete => Err(Stop::Because(Refusal::Unfinished(Kind::Complete))),
        Kind::Rollback => Ok(tidied(alloc, frame, former, tables)?),
    }
}
