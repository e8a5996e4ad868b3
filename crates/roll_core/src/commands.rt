//! The commands of a migration.
ghost use Rattle.std.specs.Prelude.{◌≡◌, false, true, IfOk, OnErr, OnOk};
ghost use Rattle.machine.specs.Laws.{leaves_all};
ghost use Rattle.machine.specs.Step.{Step};
ghost use Rattle.roll_core.specs.Engine.{command_outcome, event_of};
ghost use Rattle.roll_core.specs.Seen.{parts};
ghost use Rattle.roll_core.specs.Stepping as spec;
ghost use Rattle.roll_core.specs.Store.{IsStored, meaning};

use crate::complete::complete;
use crate::rollback::rollback;
use crate::start::start;
use crate::store::{Former, StoredTable};
use machine::{Asked, Reply, State};
use mig_lens::Refusal;
use row_rules::Stop;
use sql_base::NoMemory;
use std::alloc::Global;

/// A command of a migration. Each is one event of the machine.
#[derive(Drop)]
pub enum Cmd {
    /// A migration is to be started.
    Start(Asked),
    /// The migration is to be completed, or the next step of tidying after that to be done.
    Complete,
    /// The migration is to be rolled back, or the step of tidying after that to be done.
    Rollback,
}

// What the command comes to.
fn outcome(
    alloc: Global,
    frame: &mut State,
    former: &mut Option<Former>,
    tables: &mut Vec<StoredTable>,
    cmd: &Cmd,
) -> Result<Reply, Stop<Refusal>>
    requires { IsStored (parts frame.old former.old tables.old.items) }
    ensures goes { spec.Goes (parts frame.old former.old tables.old.items) (command_outcome (meaning (parts frame.old former.old tables.old.items)) cmd.now) result (parts frame.new former.new tables.new.items) }
    ensures changes { IfOk result (λ reply. leaves_all reply ≡ false) }
    ensures stored { OnOk result (spec.DoneStores (parts frame.old former.old tables.old.items) cmd.now (parts frame.new former.new tables.new.items)) }
    ensures kept { spec.AreKept (parts frame.new former.new tables.new.items) }
{
    match cmd {
        Cmd::Start(asked) => start(alloc, frame, tables, asked),
        Cmd::Complete => complete(alloc, frame, former, tables),
        Cmd::Rollback => rollback(alloc, frame, former, tables),
    }
}

/// Does a command, which is one step of the machine. After a refusal all is stored as before. An error is want of memory,
/// and then so it is too.
pub fn run(
    alloc: Global,
    frame: &mut State,
    former: &mut Option<Former>,
    tables: &mut Vec<StoredTable>,
    cmd: &Cmd,
) -> Result<Reply, NoMemory>
    requires { IsStored (parts frame.old former.old tables.old.items) }
    ensures step { IfOk result (λ reply. Step (meaning (parts frame.old former.old tables.old.items)) (event_of cmd.now) reply (meaning (parts frame.new former.new tables.new.items))) }
    ensures stored { IfOk result (λ reply. spec.Stores (parts frame.old former.old tables.old.items) cmd.now reply (parts frame.new former.new tables.new.items)) }
    ensures refused { IfOk result (λ reply. leaves_all reply ≡ true → parts frame.new former.new tables.new.items ≡ parts frame.old former.old tables.old.items) }
    ensures err { OnErr result (parts frame.new former.new tables.new.items ≡ parts frame.old former.old tables.old.items) }
    ensures whole { IsStored (parts frame.new former.new tables.new.items) }
{
    machine::laws::states_stand();
    machine::laws::states_stay_lawful();
    match outcome(alloc, frame, former, tables, cmd) {
        Ok(reply) => Ok(reply),
        Err(Stop::Because(refusal)) => Ok(Reply::Refused(refusal)),
        Err(Stop::NoMemory) => Err(NoMemory),
    }
}
