//! The machine's step, computed on its states in the plainest way: a yardstick for what computes it otherwise.
ghost use Rattle.std.specs.Prelude.{◌≡◌, IfOk};
ghost use Rattle.row_rules.specs.Outcome.{Answers};
ghost use Rattle.machine.specs.Done.{as_outcome};
ghost use Rattle.machine.specs.Plain as plain;
ghost use Rattle.machine.specs.Plain.{replied};
ghost use Rattle.machine.specs.Statement as statement;
ghost use Rattle.machine.specs.Step as spec;

use crate::complete::complete;
use crate::events::{Event, Reading, Reply};
use crate::fill::least_fill;
use crate::replies::{over_limit, syntax, wide_literal};
use crate::rollback::rollback;
use crate::start::start;
use crate::statement::{BegunRef, begun};
use crate::states::State;
use crate::writing::{job_outcome, query_outcome};
use mig_lens::Refusal;
use row_rules::Stop;
use sql_base::{Copying, Name, NoMemory, Stmt};
use std::alloc::Global;

// ---- statements

fn path_set(alloc: Global, s: &State) -> Result<(Reply, State), Stop<Reply>>
    ensures { Answers (replied (statement.finished s.now statement.Sets)) result }
{
    let same = s.copy(alloc)?;
    Ok((Reply::Set, same))
}

fn begun_outcome(
    alloc: Global,
    s: &State,
    begun: &BegunRef<'_>,
) -> Result<(Reply, State), Stop<Reply>>
    ensures { Answers (replied (statement.finished s.now (plain.begun begun.now))) result }
{
    match begun {
        BegunRef::Writes(site, job) => job_outcome(alloc, s, *site, job),
        BegunRef::Shows(site, items, condition) => query_outcome(alloc, s, *site, items, condition),
        BegunRef::Sets => path_set(alloc, s),
    }
}

fn answer(
    alloc: Global,
    s: &State,
    path: &[Name],
    stmt: &Stmt,
) -> Result<(Reply, State), Stop<Reply>>
    ensures { Answers (replied (statement.answer s.now path.now stmt.now)) result }
{
    let begun = begun(alloc, s, path, stmt)?;
    begun_outcome(alloc, s, &begun)
}

fn line_outcome(
    alloc: Global,
    s: &State,
    path: &[Name],
    reading: &Reading,
) -> Result<(Reply, State), Stop<Reply>>
    ensures { Answers (replied (spec.line_outcome s.now path.now reading.now)) result }
{
    match reading {
        Reading::Stmt(stmt) => answer(alloc, s, path, stmt),
        Reading::TooLong => Err(Stop::Because(over_limit(alloc, b"statement")?)),
        Reading::Syntax => Err(Stop::Because(syntax())),
        Reading::Wide => Err(Stop::Because(wide_literal())),
        Reading::Deep => Err(Stop::Because(over_limit(alloc, b"depth")?)),
    }
}

// ---- commands

// A refused command is answered its refusal.
fn with_refusal(
    outcome: Result<(Reply, State), Stop<Refusal>>,
) -> Result<(Reply, State), Stop<Reply>>
    ensures { result ≡ plain.with_refusal outcome }
{
    match outcome {
        Ok(done) => Ok(done),
        Err(Stop::Because(refusal)) => Err(Stop::Because(Reply::Refused(refusal))),
        Err(Stop::NoMemory) => Err(Stop::NoMemory),
    }
}

fn event_outcome(alloc: Global, s: &State, event: &Event) -> Result<(Reply, State), Stop<Reply>>
    ensures { Answers (replied (spec.outcome_of s.now event.now)) result }
{
    match event {
        Event::Said(path, reading) => line_outcome(alloc, s, path.as_slice(), reading),
        Event::Start(asked) => with_refusal(start(alloc, s, asked)),
        Event::Fill(count) => with_refusal(least_fill(alloc, s, *count)),
        Event::Complete => with_refusal(complete(alloc, s)),
        Event::Rollback => with_refusal(rollback(alloc, s)),
    }
}

/// What an event comes to in a state, where memory is there: the state after it and the reply. A batch takes the least
/// keys that are to be filled, of the first table that has any. An error is want of memory, or a number that doesn't fit:
/// more than 4,294,967,295 rows that are written or columns that are lost, or a lost weight of more than 64 bits.
///
/// It is meant for small states: each event copies the state.
pub fn step(alloc: Global, s: &State, event: &Event) -> Result<(State, Reply), NoMemory>
    ensures { IfOk result (spec.IsPlainStep s.now event.now) }
{
    match event_outcome(alloc, s, event) {
        Ok((reply, after)) => Ok((after, reply)),
        Err(Stop::Because(reply)) => Ok((s.copy(alloc)?, reply)),
        Err(Stop::NoMemory) => Err(NoMemory),
    }
}
