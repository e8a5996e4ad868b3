//! COMPLETE: one step of a migration's completion.
ghost use Rattle.std.specs.Prelude.{◌≡◌, [], false, true, IfOk, None, Ok, OnErr, OnOk, is_some, map};
ghost use Rattle.std.specs.Option.{option_map};
ghost use Rattle.mig_lens.specs.declared.faults.Kind.TheVariants as kind;
ghost use Rattle.row_rules.specs.Outcome.{first_some};
ghost use Rattle.machine.specs.Laws.{leaves_all};
ghost use Rattle.machine.specs.Migrate as migrate;
ghost use Rattle.roll_core.specs.Running.{meant};
ghost use Rattle.roll_core.specs.Seen.{former_seen, parts, seen};
ghost use Rattle.roll_core.specs.Stepping as spec;
ghost use Rattle.roll_core.specs.Store as model;

use crate::laws::laws_below;
use crate::leaving::leave;
use crate::store::{Former, StoredTable};
use crate::tidying::tidied_tables;
use machine::parts::{not_valid, shared, table_on};
use machine::{Mode, Reply, State};
use mig_lens::{Kind, Refusal, Side};
use row_rules::{Stop, least_missing};
use sql_base::{Copying, List, Name, NoMemory};
use std::alloc::Global;

// ---- whether the migration may be completed

// A row of the table that is still to be filled, with the least key.
fn not_filled_in(
    alloc: Global,
    frame: &State,
    table: &StoredTable,
) -> Result<Option<Refusal>, NoMemory>
    ensures { IfOk result (λ refusal. refusal ≡ spec.not_filled_in frame.now (seen table.now)) }
{
    match shared(frame, table.number) {
        Some(both) => match least_missing(table) {
            Some(key) => Ok(Some(Refusal::NotFilled(both.new.0.copy(alloc)?, key))),
            None => Ok(None),
        },
        None => Ok(None),
    }
}

// The first table that has one.
fn not_filled(
    alloc: Global,
    frame: &State,
    tables: &[StoredTable],
) -> Result<Option<Refusal>, NoMemory>
    ensures { IfOk result (λ refusal. refusal ≡ first_some (spec.not_filled_in frame.now) (map seen tables.now)) }
{
    for table in tables {
        if let Some(refusal) = not_filled_in(alloc, frame, table)? {
            return Ok(Some(refusal));
        }
    }
    Ok(None)
}

// The constraint of the new version that the table's rows don't meet, with a key.
fn invalid_in(
    alloc: Global,
    frame: &State,
    table: &StoredTable,
) -> Result<Option<(Name, i64)>, NoMemory>
    ensures { IfOk result (λ broken. broken ≡ spec.invalid_in frame.now (seen table.now)) }
{
    match table_on(frame, Side::New, table.number) {
        Some(newer) => row_rules::invalid(alloc, newer, table),
        None => Ok(None),
    }
}

fn invalid(
    alloc: Global,
    frame: &State,
    tables: &[StoredTable],
) -> Result<Option<(Name, i64)>, NoMemory>
    ensures { IfOk result (λ broken. broken ≡ first_some (spec.invalid_in frame.now) (map seen tables.now)) }
{
    for table in tables {
        if let Some(broken) = invalid_in(alloc, frame, table)? {
            return Ok(Some(broken));
        }
    }
    Ok(None)
}

fn may_not_complete(
    alloc: Global,
    frame: &State,
    tables: &[StoredTable],
) -> Result<Option<Refusal>, NoMemory>
    ensures { IfOk result (λ refusal. refusal ≡ spec.may_not_complete frame.now (map seen tables.now)) }
{
    if let Some(refusal) = not_filled(alloc, frame, tables)? {
        return Ok(Some(refusal));
    }
    match invalid(alloc, frame, tables)? {
        Some(broken) => Ok(Some(not_valid(broken))),
        None => Ok(None),
    }
}

// ---- the other steps

// The tables that the version that is gone had alone go, with their rows.
fn drop_tables(alloc: Global, former: &mut Option<Former>)
    ensures { option_map former_seen former.new
        ≡ option_map spec.without_tables (option_map former_seen former.old) }
{
    if let Some(former) = former {
        former.tables = Vec::new(alloc);
    }
}

// The second step, or the third, which is the last: its number.
fn next_step(alloc: Global, frame: &mut State, former: &mut Option<Former>) -> u8
    ensures frame { frame.new ≡ spec.tidied_frame frame.old }
    ensures former { option_map former_seen former.new
        ≡ spec.tidied_former frame.old (option_map former_seen former.old) }
    ensures number { result ≡ spec.tidied_number frame.old }
{
    if frame.left == 2 {
        frame.left = 1;
        frame.lost_columns = List::new(alloc);
        drop_tables(alloc, former);
        2
    } else {
        frame.left = 0;
        frame.kind = Kind::Nothing;
        *former = None;
        3
    }
}

// The next step of tidying.
fn tidied(
    alloc: Global,
    frame: &mut State,
    former: &mut Option<Former>,
    tables: &mut Vec<StoredTable>,
) -> Result<Reply, NoMemory>
    requires stored { model.IsStored (parts frame.old former.old tables.old.items) }
    requires left { frame.old.kind ≡ kind.Complete }
    ensures goes { IfOk result (λ reply. spec.Goes (parts frame.old former.old tables.old.items) (migrate.complete (meant frame.old (map seen tables.old.items))) (Ok reply) (parts frame.new former.new tables.new.items)) }
    ensures changes { IfOk result (λ reply. leaves_all reply ≡ false) }
    ensures stored { OnOk result (parts frame.new former.new tables.new.items ≡ spec.tidied_parts (parts frame.old former.old tables.old.items)) }
    ensures kept { spec.AreKept (parts frame.new former.new tables.new.items) }
    ensures err { OnErr result (parts frame.new former.new tables.new.items ≡ parts frame.old former.old tables.old.items) }
{
    laws_below();
    let next = tidied_tables(alloc, tables)?;
    *tables = next;
    Ok(Reply::Complete(next_step(alloc, frame, former)))
}

// ---- the first step

// The old version goes, where the rows allow it.
fn finish(
    alloc: Global,
    frame: &mut State,
    former: &mut Option<Former>,
    tables: &mut Vec<StoredTable>,
) -> Result<Reply, Stop<Refusal>>
    requires stored { model.IsStored (parts frame.old former.old tables.old.items) }
    requires none { frame.old.kind ≡ kind.Nothing }
    requires active { is_some (migrate.active_name frame.old.mode) ≡ true }
    ensures goes { spec.Goes (parts frame.old former.old tables.old.items) (migrate.complete (meant frame.old (map seen tables.old.items))) result (parts frame.new former.new tables.new.items) }
    ensures changes { IfOk result (λ reply. leaves_all reply ≡ false) }
    ensures stored { OnOk result (parts frame.new former.new tables.new.items ≡ spec.left_parts Side.Old (parts frame.old former.old tables.old.items)) }
    ensures kept { spec.AreKept (parts frame.new former.new tables.new.items) }
{
    laws_below();
    if let Some(refusal) = may_not_complete(alloc, frame, tables)? {
        return Err(Stop::Because(refusal));
    }
    leave(alloc, Side::Old, frame, former, tables)?;
    Ok(Reply::Complete(1))
}

/// Does the next step of the migration's completion, and answers why it can't be done. The first step touches no row. After
/// an error all is stored as before.
pub fn complete(
    alloc: Global,
    frame: &mut State,
    former: &mut Option<Former>,
    tables: &mut Vec<StoredTable>,
) -> Result<Reply, Stop<Refusal>>
    requires { model.IsStored (parts frame.old former.old tables.old.items) }
    ensures goes { spec.Goes (parts frame.old former.old tables.old.items) (migrate.complete (meant frame.old (map seen tables.old.items))) result (parts frame.new former.new tables.new.items) }
    ensures changes { IfOk result (λ reply. leaves_all reply ≡ false) }
    ensures stored { OnOk result (parts frame.new former.new tables.new.items ≡ spec.completed_parts (parts frame.old former.old tables.old.items)) }
    ensures kept { spec.AreKept (parts frame.new former.new tables.new.items) }
{
    match frame.kind {
        Kind::Nothing => match &frame.mode {
            Mode::Calm => Err(Stop::Because(Refusal::NoActive)),
            Mode::Both { .. } => finish(alloc, frame, former, tables),
        },
        Kind::Complete => Ok(tidied(alloc, frame, former, tables)?),
        Kind::Rollback => Err(Stop::Because(Refusal::Unfinished(Kind::Rollback))),
    }
}
