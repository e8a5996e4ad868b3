//! A lane at work: what the lines of an input ask for is done, one event after another, each with its line of output.
ghost use Rattle.std.specs.Prelude.{◌≡◌, ◌+◌, ◌<◌, ◌≤◌, ◌^◌, ◌||◌, IfOk};
ghost use Rattle.pg_io.specs.Outside.{known};
ghost use Rattle.machine.specs.declared.events.Asked.{Asked};
ghost use Rattle.machine.specs.declared.events.Reading.{Reading};
ghost use Rattle.machine.specs.declared.tasks.Task.TheVariants as Task;
ghost use Rattle.machine.specs.Follows.{goes_on_completing, goes_on_filling, goes_on_rolling_back};
ghost use Rattle.machine.specs.Standing.{IsState};
ghost use Rattle.machine.specs.State.{beginning};
ghost use Rattle.roll_core.specs.Store.{meaning};
ghost use Rattle.report.specs.Lines.{numbered};
ghost use Rattle.pgroll_top.specs.Parts.{DoesLine, DoesTask, Shows, new_lane};
ghost use Rattle.pgroll_top.specs.Work.{AsksFor, ReadsAs, first_path, refuses};

use crate::asking::asked;
use crate::ending::Stop;
use crate::saying::answer;
use machine::Reply;
use pg_io::{Sink, write_whole};
use report::line_of;
use roll_core::{Cmd, Core};
use script_text::{Line, Order};
use sql_base::{List, Name, NoMemory};
use std::alloc::Global;

/// The rows of one batch of `\fill`.
const FILL_BATCH: u32 = 1000;

/// A lane: the engine, and how far its work has come.
#[derive(Drop)]
pub struct Lane {
    /// The engine.
    pub core: Core,
    /// The path that the next statement goes through.
    pub path: List<Name>,
    /// The number of entries so far.
    pub number: u64,
    /// Whether a command was refused.
    pub refused: bool,
}

fn refuses(reply: &Reply) -> bool
    ensures { result ≡ refuses reply.now }
{
    matches!(reply, Reply::Refused(_))
}

fn goes_on_filling(reply: &Reply) -> bool
    ensures { result ≡ goes_on_filling reply.now }
{
    matches!(reply, Reply::Fill { .. })
}

fn goes_on_completing(reply: &Reply) -> bool
    ensures { result ≡ goes_on_completing reply.now }
{
    match reply {
        Reply::Complete(step) => *step != 3,
        _ => false,
    }
}

fn goes_on_rolling_back(reply: &Reply) -> bool
    ensures { result ≡ goes_on_rolling_back reply.now }
{
    match reply {
        Reply::Rollback(step) => *step != 2,
        _ => false,
    }
}

// The path that statements go through at first: the version `public_01_users`.
fn first_path(alloc: Global) -> Result<List<Name>, NoMemory>
    ensures { IfOk result (λ path. path ≡ first_path beginning) }
{
    let mut path = List::new(alloc);
    path.push(Name::from_slice(alloc, b"public_01_users")?)?;
    Ok(path)
}

// Writes the line of a reply.
fn show<K: Sink>(
    alloc: Global,
    number: u64,
    actor: &str,
    reply: &Reply,
    out: &mut K,
) -> Result<(), Stop>
    ensures shows { Shows (known K.held K.faults out.old out.new) (numbered number actor.now reply.now) result }
    ensures later { K.faults out.old ≤ K.faults out.new }
{
    let line = line_of(alloc, number, actor, reply)?;
    write_whole(out, &line)?;
    Ok(())
}

impl Lane {
    /// A lane before its first task.
    pub fn new(alloc: Global) -> Result<Lane, NoMemory>
        ensures { IfOk result (λ lane. lane ≡ new_lane) }
    {
        Ok(Lane {
            core: Core::fixed(alloc)?,
            path: first_path(alloc)?,
            number: 0,
            refused: false,
        })
    }

    // Counts an entry with this reply, and writes its line.
    fn tell<K: Sink>(
        &mut self,
        alloc: Global,
        actor: &str,
        reply: &Reply,
        out: &mut K,
    ) -> Result<(), Stop>
        requires { self.old.number + 1 < 2 ^ 64 }
        ensures counted { self.new ≡ record self.old { number = self.old.number + 1; refused = self.old.refused || refuses reply.now } }
        ensures shows { Shows (known K.held K.faults out.old out.new) (numbered (self.old.number + 1) actor.now reply.now) result }
        ensures later { K.faults out.old ≤ K.faults out.new }
    {
        self.number += 1;
        self.refused = self.refused || refuses(reply);
        show(alloc, self.number, actor, reply, out)
    }

    // Says a line. It may be a statement, or none.
    fn say<K: Sink>(&mut self, alloc: Global, line: &[u8], out: &mut K) -> Result<(), Stop>
        requires { self.old.number + 1 < 2 ^ 64 }
        ensures does { (reading : Reading) × ReadsAs line.now reading
            × DoesTask self.old self.new (known K.held K.faults out.old out.new) (Task.Say reading) result }
        ensures few { self.new.number ≤ self.old.number + 1 }
        ensures later { K.faults out.old ≤ K.faults out.new }
    {
        let reply = answer(alloc, &mut self.core, &mut self.path, line);
        self.tell(alloc, "main", &reply, out)
    }

    // Starts the migration of this text.
    fn start<K: Sink>(&mut self, alloc: Global, text: &[u8], out: &mut K) -> Result<(), Stop>
        requires { self.old.number + 1 < 2 ^ 64 }
        ensures does { (asked : Asked) × AsksFor text.now asked
            × DoesTask self.old self.new (known K.held K.faults out.old out.new) (Task.Start asked) result }
        ensures few { self.new.number ≤ self.old.number + 1 }
        ensures later { K.faults out.old ≤ K.faults out.new }
    {
        mig_json::laws::texts_read_or_fail();
        let cmd = Cmd::Start(asked(alloc, text)?);
        let reply = self.core.ddl(&cmd)?;
        self.tell(alloc, "control", &reply, out)
    }

    // Fills one batch.
    fn batch<K: Sink>(&mut self, alloc: Global, count: u32, out: &mut K) -> Result<(), Stop>
        requires { self.old.number + 1 < 2 ^ 64 }
        ensures does { DoesTask self.old self.new (known K.held K.faults out.old out.new) (Task.Batch count) result }
        ensures few { self.new.number ≤ self.old.number + 1 }
        ensures later { K.faults out.old ≤ K.faults out.new }
    {
        let reply = self.core.batch(count);
        self.tell(alloc, "control", &reply, out)
    }

    // Fills batch after batch, up to one that fills nothing.
    fn fill<K: Sink>(&mut self, alloc: Global, out: &mut K) -> Result<(), Stop>
        requires stands { IsState (meaning self.old.core) }
        requires room { self.old.number + 262145 < 2 ^ 64 }
        ensures does { DoesTask self.old self.new (known K.held K.faults out.old out.new) Task.Fill result }
        ensures few { self.new.number ≤ self.old.number + 262145 }
        ensures later { K.faults out.old ≤ K.faults out.new }
    {
        machine::laws::states_stand();
        machine::laws::batches_come_to_an_end();
        'batches: loop {
            let reply = self.core.batch(FILL_BATCH);
            self.tell(alloc, "control", &reply, out)?;
            if !goes_on_filling(&reply) {
                return Ok(());
            }
        }
    }

    // Completes the migration, step by step, up to the last one or to a refusal.
    fn complete<K: Sink>(&mut self, alloc: Global, out: &mut K) -> Result<(), Stop>
        requires { self.old.number + 3 < 2 ^ 64 }
        ensures does { DoesTask self.old self.new (known K.held K.faults out.old out.new) Task.Complete result }
        ensures few { self.new.number ≤ self.old.number + 3 }
        ensures later { K.faults out.old ≤ K.faults out.new }
    {
        machine::laws::completing_comes_to_an_end();
        'steps: loop {
            let reply = self.core.ddl(&Cmd::Complete)?;
            self.tell(alloc, "control", &reply, out)?;
            if !goes_on_completing(&reply) {
                return Ok(());
            }
        }
    }

    // Rolls the migration back, step by step, up to the last one or to a refusal.
    fn roll_back<K: Sink>(&mut self, alloc: Global, out: &mut K) -> Result<(), Stop>
        requires { self.old.number + 2 < 2 ^ 64 }
        ensures does { DoesTask self.old self.new (known K.held K.faults out.old out.new) Task.Rollback result }
        ensures few { self.new.number ≤ self.old.number + 2 }
        ensures later { K.faults out.old ≤ K.faults out.new }
    {
        machine::laws::rolling_back_comes_to_an_end();
        'steps: loop {
            let reply = self.core.ddl(&Cmd::Rollback)?;
            self.tell(alloc, "control", &reply, out)?;
            if !goes_on_rolling_back(&reply) {
                return Ok(());
            }
        }
    }

    // Does a command.
    fn obey<K: Sink>(&mut self, alloc: Global, order: &Order, out: &mut K) -> Result<(), Stop>
        requires stands { IsState (meaning self.old.core) }
        requires room { self.old.number + 262145 < 2 ^ 64 }
        ensures does { DoesLine self.old self.new (known K.held K.faults out.old out.new) (Line.Command order.now) result }
        ensures few { self.new.number ≤ self.old.number + 262145 }
        ensures later { K.faults out.old ≤ K.faults out.new }
    {
        match order {
            Order::Start(text) => self.start(alloc, text.as_slice(), out),
            Order::Batch(count) => self.batch(alloc, *count, out),
            Order::Fill => self.fill(alloc, out),
            Order::Complete => self.complete(alloc, out),
            Order::Rollback => self.roll_back(alloc, out),
        }
    }

    /// Does what a line asks for.
    pub fn serve<K: Sink>(&mut self, alloc: Global, line: &Line, out: &mut K) -> Result<(), Stop>
        requires stands { IsState (meaning self.old.core) }
        requires room { self.old.number + 262145 < 2 ^ 64 }
        ensures does { DoesLine self.old self.new (known K.held K.faults out.old out.new) line.now result }
        ensures few { self.new.number ≤ self.old.number + 262145 }
        ensures later { K.faults out.old ≤ K.faults out.new }
    {
        match line {
            Line::Text(text) => self.say(alloc, text.as_slice(), out),
            Line::Command(order) => self.obey(alloc, order, out),
        }
    }
}
