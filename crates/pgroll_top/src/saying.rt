//! What is answered to a line that is said.
ghost use Rattle.std.specs.Prelude.{◌≡◌};
ghost use Rattle.machine.specs.declared.events.Event.TheVariants.{Said};
ghost use Rattle.machine.specs.declared.events.Reading.{Reading};
ghost use Rattle.machine.specs.declared.events.Reading.TheVariants.{Stmt as Read};
ghost use Rattle.machine.specs.Follows.{path_by};
ghost use Rattle.machine.specs.Statement as statement;
ghost use Rattle.machine.specs.Step.{Step};
ghost use Rattle.roll_core.specs.Store.{meaning};
ghost use Rattle.pgroll_top.specs.Parts.{IsOrNoMemory};
ghost use Rattle.pgroll_top.specs.Work.{ReadsAs};

use crate::readings::reading;
use machine::parts::{no_memory, over_limit, syntax, wide_literal};
use machine::{Reading, Reply};
use roll_core::Core;
use sql_base::{Copying, List, Name, Stmt};
use std::alloc::Global;

// Says a SET. The path is copied first: without memory for it the statement isn't said.
fn set_path(
    alloc: Global,
    core: &mut Core,
    path: &mut List<Name>,
    stmt: &Stmt,
    names: &List<Name>,
) -> Reply
    requires { stmt.now ≡ Stmt.SetPath names.now }
    ensures step { Step (meaning core.old) (Said path.old (Read stmt.now)) result (meaning core.new) }
    ensures path { path.new ≡ path_by path.old (Said path.old (Read stmt.now)) result }
{
    let Ok(next) = names.copy(alloc) else {
        return no_memory();
    };
    let reply = core.statement(path.as_slice(), stmt);
    if matches!(reply, Reply::Set) {
        *path = next;
    }
    reply
}

// What the engine answers to a statement that goes through the path. A SET that is accepted moves the path.
fn say(alloc: Global, core: &mut Core, path: &mut List<Name>, stmt: &Stmt) -> Reply
    ensures step { Step (meaning core.old) (Said path.old (Read stmt.now)) result (meaning core.new) }
    ensures path { path.new ≡ path_by path.old (Said path.old (Read stmt.now)) result }
{
    match stmt {
        Stmt::SetPath(names) => set_path(alloc, core, path, stmt, names),
        _ => core.statement(path.as_slice(), stmt),
    }
}

// The reply to a line that passes the limit of this name, or want of memory where its name finds none.
fn beyond(alloc: Global, limit: &[u8]) -> Reply
    ensures { IsOrNoMemory (statement.over_limit limit.now) result }
{
    match over_limit(alloc, limit) {
        Ok(reply) => reply,
        Err(_) => no_memory(),
    }
}

// What is answered to what a line reads as. One that is no statement is refused, and changes nothing.
fn said(alloc: Global, core: &mut Core, path: &mut List<Name>, reading: &Reading) -> Reply
    ensures step { Step (meaning core.old) (Said path.old reading.now) result (meaning core.new) }
    ensures path { path.new ≡ path_by path.old (Said path.old reading.now) result }
{
    match reading {
        Reading::Stmt(stmt) => say(alloc, core, path, stmt),
        Reading::TooLong => beyond(alloc, b"statement"),
        Reading::Syntax => syntax(),
        Reading::Wide => wide_literal(),
        Reading::Deep => beyond(alloc, b"depth"),
    }
}

/// What is answered to a line. A line that can't be read for want of memory changes nothing.
pub fn answer(alloc: Global, core: &mut Core, path: &mut List<Name>, line: &[u8]) -> Reply
    ensures { (reading : Reading) × ReadsAs line.now reading × Step (meaning core.old) (Said path.old reading) result (meaning core.new)
        × (path.new ≡ path_by path.old (Said path.old reading) result) }
{
    sql_parse::statements_read_or_fail();
    match reading(alloc, line) {
        Ok(reading) => said(alloc, core, path, &reading),
        Err(_) => no_memory(),
    }
}
