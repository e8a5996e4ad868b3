// What is answered where one allocation is refused, whichever it is: what is answered with ample memory, or want of
// memory, with all as it was. These tests
// pass with ample memory too; `rt try --test --fail-alloc N` runs them with the allocation of number N refused in each.
use crate::tests::calls::{Told, call};
use crate::tests::engine::{
    AFTER_ONE, AFTER_TWO, BACK, CHANGED, EARLY, FILLED, LISTED, NEW_WRITE, NO_TABLE, NULLS,
    OLD_WRITE, REFUSED, Row, STEPS, WRITTEN, shows,
};
use crate::tests::statements::{Wanted, comes_to, is_replied, reply_to};
use machine::Reply;
use roll_core::Core;
use sql_base::NoMemory;
use std::alloc::Global;

// ---- calls

/// An input, its output with ample memory, and the outputs where memory is wanting for one of its statements or batches.
type Call = (&'static str, &'static str, &'static [&'static str]);

const STATEMENTS: Call = (
    "INSERT INTO users (id, name) VALUES (1, 'a')\nINSERT INTO users (id, name) VALUES (1, 'b')\nSELECT * FROM users\n",
    "1 main INSERT 0 1\n2 main ERROR 23505 users_pkey 1\n3 main SELECT 1\n  1|a\n",
    &[
        "1 main ERROR 53200 - -\n2 main INSERT 0 1\n3 main SELECT 1\n  1|b\n",
        "1 main INSERT 0 1\n2 main ERROR 53200 - -\n3 main SELECT 1\n  1|a\n",
        "1 main INSERT 0 1\n2 main ERROR 23505 users_pkey 1\n3 main ERROR 53200 - -\n",
    ],
);

const WRITE: Call = (
    "\\start {\"name\":\"02\",\"operations\":[{\"add_column\":{\"table\":\"users\",\"column\":{\"name\":\"n\",\"type\":\"text\",\"nullable\":true},\"up\":\"name\"}}]}\nINSERT INTO users (id, name) VALUES (1, 'a')\n",
    "1 control START public_02\n2 main INSERT 0 1\n",
    &["1 control START public_02\n2 main ERROR 53200 - -\n"],
);

const READ: Call = (
    "\\start {\"name\":\"02\",\"operations\":[{\"add_column\":{\"table\":\"users\",\"column\":{\"name\":\"n\",\"type\":\"text\",\"nullable\":true},\"up\":\"name\"}}]}\nSET search_path TO public_02\nSELECT n FROM users\n",
    "1 control START public_02\n2 main SET\n3 main SELECT 0\n",
    &[
        "1 control START public_02\n2 main ERROR 53200 - -\n3 main ERROR 42703 n -\n",
        "1 control START public_02\n2 main SET\n3 main ERROR 53200 - -\n",
    ],
);

const FILL: Call = (
    "INSERT INTO users (id, name) VALUES (1, 'a')\n\\start {\"name\":\"02\",\"operations\":[{\"add_column\":{\"table\":\"users\",\"column\":{\"name\":\"n\",\"type\":\"text\",\"nullable\":true},\"up\":\"name\"}}]}\n\\fill\n",
    "1 main INSERT 0 1\n2 control START public_02\n3 control FILL users 1 1 1\n4 control FILLED\n",
    &[
        "1 main ERROR 53200 - -\n2 control START public_02\n3 control FILLED\n",
        "1 main INSERT 0 1\n2 control START public_02\n3 control ERROR 53200 - -\n",
    ],
);

const COMPLETE: Call = (
    "\\start {\"name\":\"02\",\"operations\":[{\"add_column\":{\"table\":\"users\",\"column\":{\"name\":\"n\",\"type\":\"text\",\"nullable\":true},\"up\":\"name\"}}]}\n\\complete\n",
    "1 control START public_02\n2 control COMPLETE 1\n3 control COMPLETE 2\n4 control COMPLETE 3\n",
    &[],
);

const MEMORY: &str = "0 control ERROR memory\n";

// Whether the output is whole lines of the one with ample memory, and then that memory was wanting.
fn is_stopped(output: &[u8], ample: &[u8]) -> bool {
    if output.len() < MEMORY.len() {
        return false;
    }
    let (told, last) = output.split_at(output.len() - MEMORY.len());
    let whole = match told.last() {
        Some(byte) => *byte == b'\n',
        None => true,
    };
    whole && ample.starts_with(told) && last == MEMORY.as_bytes()
}

// Whether a call has all lines, or tells that memory was wanting.
fn is_sound_call(told: &Told, wanted: &Call) -> bool {
    let output = told.output.as_slice();
    match told.status {
        0 => {
            output == wanted.1.as_bytes() || wanted.2.iter().any(|text| output == text.as_bytes())
        }
        6 => is_stopped(output, wanted.1.as_bytes()),
        _ => false,
    }
}

// Whether the call does so; where memory was wanting for its words, its input or the copy of its output, there is
// nothing to look at.
fn tells(alloc: Global, wanted: &Call) -> bool {
    match call(alloc, &["exec"], wanted.0.as_bytes(), &[], &[]) {
        Ok(told) => is_sound_call(&told, wanted),
        Err(_) => true,
    }
}

#[test]
fn statements_tell_want_of_memory(rt: HostRuntime) {
    assert!(rt; tells(rt.alloc(), &STATEMENTS));
}

#[test]
fn a_write_tells_want_of_memory(rt: HostRuntime) {
    assert!(rt; tells(rt.alloc(), &WRITE));
}

#[test]
fn a_read_tells_want_of_memory(rt: HostRuntime) {
    assert!(rt; tells(rt.alloc(), &READ));
}

#[test]
fn a_backfill_tells_want_of_memory(rt: HostRuntime) {
    assert!(rt; tells(rt.alloc(), &FILL));
}

#[test]
fn a_completion_tells_want_of_memory(rt: HostRuntime) {
    assert!(rt; tells(rt.alloc(), &COMPLETE));
}

// ---- the engine

// What the two versions show of the table before what is said.
type Shown = (Wanted, Wanted);

// What a reply, or want of memory, is beside what is wanted.
#[derive(Clone, Copy)]
enum Outcome {
    // What is wanted.
    AsWanted,
    // Memory is wanting.
    NoMemory,
    // Something else.
    Other,
}

fn reply_outcome(reply: &Option<Reply>, wanted: Wanted) -> Outcome {
    if comes_to(reply, Wanted::NoMemory) {
        Outcome::NoMemory
    } else if comes_to(reply, wanted) {
        Outcome::AsWanted
    } else {
        Outcome::Other
    }
}

fn row_outcome(alloc: Global, core: &mut Core, row: &Row) -> Outcome {
    match &reply_to(alloc, core, row.0) {
        Ok(reply) => reply_outcome(reply, row.1),
        Err(_) => Outcome::NoMemory,
    }
}

// Whether the versions show this, and what is said again comes to what it has to.
fn is_sound_again(
    alloc: Global,
    core: &mut Core,
    row: &Row,
    before: Shown,
) -> Result<bool, NoMemory> {
    Ok(shows(alloc, core, before.0, before.1)? && is_replied(alloc, core, row.0, row.1)?)
}

// Whether what is said comes to what it has to; or to want of memory, and then the versions show what they did.
fn is_sound(alloc: Global, core: &mut Core, row: &Row, before: Shown) -> bool {
    match row_outcome(alloc, core, row) {
        Outcome::AsWanted => true,
        Outcome::NoMemory => matches!(is_sound_again(alloc, core, row, before), Ok(true)),
        Outcome::Other => false,
    }
}

// Whether the versions show this. The look is taken again, since memory may be wanting for the first one.
fn has_kept(alloc: Global, core: &mut Core, shown: Shown) -> bool {
    matches!(shows(alloc, core, shown.0, shown.1), Ok(true))
        || matches!(shows(alloc, core, shown.0, shown.1), Ok(true))
}

// The place of the first row of a session that isn't sound; at the end the versions show what they have to.
fn first_wrong(alloc: Global, session: &[Row]) -> Result<Option<usize>, NoMemory> {
    let mut core = Core::fixed(alloc)?;
    let mut before = (Wanted::Shown(&[]), NO_TABLE);
    for (at, row) in session.iter().enumerate() {
        if !is_sound(alloc, &mut core, row, before) {
            return Ok(Some(at));
        }
        before = (row.2, row.3);
    }
    let kept = has_kept(alloc, &mut core, before);
    Ok(if kept { None } else { Some(session.len()) })
}

// Where memory was wanting for the engine itself, there is nothing to look at.
fn none_wrong(alloc: Global, session: &[Row]) -> bool {
    match first_wrong(alloc, session) {
        Ok(wrong) => wrong.is_none(),
        Err(_) => true,
    }
}

#[test]
fn refused_statements_tell_want_of_memory(rt: HostRuntime) {
    assert!(rt; none_wrong(rt.alloc(), REFUSED));
}

#[test]
fn written_rows_tell_want_of_memory(rt: HostRuntime) {
    assert!(rt; none_wrong(rt.alloc(), WRITTEN));
}

#[test]
fn listed_items_tell_want_of_memory(rt: HostRuntime) {
    assert!(rt; none_wrong(rt.alloc(), LISTED));
}

#[test]
fn changed_rows_tell_want_of_memory(rt: HostRuntime) {
    assert!(rt; none_wrong(rt.alloc(), CHANGED));
}

#[test]
fn filled_rows_tell_want_of_memory(rt: HostRuntime) {
    assert!(rt; none_wrong(rt.alloc(), FILLED));
}

#[test]
fn an_early_completion_tells_want_of_memory(rt: HostRuntime) {
    assert!(rt; none_wrong(rt.alloc(), EARLY));
}

#[test]
fn a_row_of_the_old_version_tells_want_of_memory(rt: HostRuntime) {
    assert!(rt; none_wrong(rt.alloc(), OLD_WRITE));
}

#[test]
fn a_row_of_the_new_version_tells_want_of_memory(rt: HostRuntime) {
    assert!(rt; none_wrong(rt.alloc(), NEW_WRITE));
}

#[test]
fn steps_of_completing_tell_want_of_memory(rt: HostRuntime) {
    assert!(rt; none_wrong(rt.alloc(), STEPS));
}

#[test]
fn rows_after_one_step_tell_want_of_memory(rt: HostRuntime) {
    assert!(rt; none_wrong(rt.alloc(), AFTER_ONE));
}

#[test]
fn rows_after_two_steps_tell_want_of_memory(rt: HostRuntime) {
    assert!(rt; none_wrong(rt.alloc(), AFTER_TWO));
}

#[test]
fn a_rollback_tells_want_of_memory(rt: HostRuntime) {
    assert!(rt; none_wrong(rt.alloc(), BACK));
}

#[test]
fn a_column_of_nulls_tells_want_of_memory(rt: HostRuntime) {
    assert!(rt; none_wrong(rt.alloc(), NULLS));
}
