//! The engine: stored rows, and the calls that are steps of the machine.
ghost use Rattle.std.specs.Prelude.{◌≡◌, [], true, false, IfOk, OnErr};
ghost use Rattle.machine.specs.declared.events.Event.TheVariants.{Said, Fill};
ghost use Rattle.machine.specs.declared.events.Reading.TheVariants.{Stmt as Read};
ghost use Rattle.machine.specs.State.{beginning};
ghost use Rattle.machine.specs.Follows.{goes_on_filling};
ghost use Rattle.machine.specs.Laws.{leaves_all};
ghost use Rattle.machine.specs.Step.{LaneStep, Step};
ghost use Rattle.roll_core.specs.Engine as engine;
ghost use Rattle.roll_core.specs.Running as running;
ghost use Rattle.roll_core.specs.Stepping as stepping;
ghost use Rattle.roll_core.specs.Store.{meaning};

use crate::batch::least_fill;
use crate::commands::{Cmd, run};
use crate::forms::Form;
use crate::laws::laws_below;
use crate::statement::answer;
use crate::store::{Former, StoredTable};
use machine::parts::no_memory;
use machine::{Reply, State, beginning};
use mig_lens::Side;
use row_rules::Stop;
use row_store::RowStore;
use sql_base::{List, Name, NoMemory, Stmt};
use std::alloc::Global;
use std::marker::Model;

/// The engine. Contracts see what it stores; the state of the machine that this means is `meaning` of it.
///
/// It keeps a frame, which is a state without its rows, and the stored rows of each table, in the form that the frame says.
/// While steps of tidying are left it also keeps what the version that is gone had.
#[derive(Drop)]
pub struct Core {
    alloc: Global,
    frame: State,
    former: Option<Former>,
    tables: Vec<StoredTable>,
}

impl Model for Core {
    ghost use Rattle.std.specs.Coded.{codes};
    ghost use Rattle.sql_base.specs.contracts.exprs.Expr as expr;
    ghost use Rattle.roll_core.specs.Seen.{parts};
    ghost use Rattle.roll_core.specs.Store.{IsStored, Stored};

    ghost Value = { Stored };

    ghost coded = { Prim.hlevel (codes, expr.the_row.coded) };

    ghost view = { λ core. parts core.frame core.former core.tables.items };

    ghost invariant = { λ core. IsStored (parts core.frame core.former core.tables.items) };
}

// A state without its rows.
fn frame_of(alloc: Global, s: State) -> State
    ensures { result ≡ record s { tables = [] } }
{
    let mut frame = s;
    frame.tables = List::new(alloc);
    frame
}

// The reply that an answer is.
fn replied(answer: Result<Reply, Stop<Reply>>) -> Reply
    ensures { result ≡ running.reply_of answer }
{
    match answer {
        Ok(reply) => reply,
        Err(Stop::Because(reply)) => reply,
        Err(Stop::NoMemory) => no_memory(),
    }
}

impl Core {
    /// The version `01_users` with the one table `users`, which has a bigint key `id` and a text `name`, neither of
    /// which may be NULL. The table has no row. An error is want of memory.
    pub fn fixed(alloc: Global) -> Result<Core, NoMemory>
        ensures stored { IfOk result (λ core. core ≡ engine.first_stored) }
        ensures means { IfOk result (λ core. meaning core ≡ beginning) }
    {
        machine::laws::states_stand();
        machine::laws::states_stay_lawful();
        let mut tables = Vec::new(alloc);
        let form = Form::Own(Side::Old);
        tables.push(StoredTable::new(alloc, 1, form, RowStore::new(alloc), &[], &[])?)?;
        Ok(Core {
            alloc,
            frame: frame_of(alloc, beginning(alloc)?),
            former: None,
            tables,
        })
    }

    /// One step of the machine: the statement is said through this path of versions, by their names with
    /// `public_`, and answered. A refused statement, one that finds no memory, a SELECT and a SET change nothing that is
    /// stored.
    pub fn statement(&mut self, path: &[Name], stmt: &Stmt) -> Reply
        ensures step { Step (meaning self.old) (Said path.now (Read stmt.now)) result (meaning self.new) }
        ensures refused { leaves_all result ≡ true → self.new ≡ self.old }
        ensures keeps { (self.new.frame ≡ self.old.frame) × (self.new.former ≡ self.old.former) }
    {
        machine::laws::states_stand();
        machine::laws::states_stay_lawful();
        laws_below();
        replied(answer(self.alloc, &self.frame, &mut self.tables, path, stmt))
    }

    /// A batch of at most so many rows is filled: one step of the machine, and just the one that one lane takes. It takes
    /// the least keys that are to be filled, of the first table that has any. A refused batch, one that fills none and one
    /// that finds no memory change nothing that is stored.
    pub fn batch(&mut self, n: u32) -> Reply
        ensures step { LaneStep (meaning self.old) (Fill n) result (meaning self.new) }
        ensures machine { Step (meaning self.old) (Fill n) result (meaning self.new) }
        ensures refused { goes_on_filling result ≡ false → self.new ≡ self.old }
        ensures keeps { (self.new.frame ≡ self.old.frame) × (self.new.former ≡ self.old.former) }
    {
        machine::laws::states_stand();
        machine::laws::states_stay_lawful();
        machine::laws::lane_runs_are_runs();
        laws_below();
        replied(least_fill(self.alloc, &self.frame, &mut self.tables, n))
    }

    /// A command of a migration is one step of the machine. An accepted one stores exactly what its step leaves: START the
    /// rows as the migration's plan begins with them and a table without rows for each that it creates, COMPLETE what the
    /// step of completing leaves that is next, and ROLLBACK what the step of rolling back does. A refused one changes
    /// nothing that is stored. An error is want of memory, and then the engine is as it was.
    pub fn ddl(&mut self, cmd: &Cmd) -> Result<Reply, NoMemory>
        ensures step { IfOk result (λ reply. Step (meaning self.old) (engine.event_of cmd.now) reply (meaning self.new)) }
        ensures refused { IfOk result (λ reply. leaves_all reply ≡ true → self.new ≡ self.old) }
        ensures stored { IfOk result (λ reply. stepping.Stores self.old cmd.now reply self.new) }
        ensures err { OnErr result (self.new ≡ self.old) }
    {
        run(
            self.alloc,
            &mut self.frame,
            &mut self.former,
            &mut self.tables,
            cmd,
        )
    }
}
