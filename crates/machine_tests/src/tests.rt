mod replies;
mod scripts;

use machine::{Asked, Event, Reading, Reply, State, beginning, step};
use mig_json::{JsonFault, read_migration};
use mig_lens::Refusal;
use replies::{lost_text, reply_text};
use scripts::{Line, SCRIPTS, line_of};
use sql_base::{Copying, List, Name, NoMemory, Stmt};
use sql_parse::{ParseFault, parse_stmt};
use std::alloc::Global;
use std::test::Fail;

/// A run in the making: the state, the path of statements, and what was answered.
#[derive(Drop)]
struct Lane {
    state: State,
    path: List<Name>,
    told: Vec<u8>,
}

fn name(alloc: Global, word: &str) -> Result<Name, NoMemory> {
    Name::from_slice(alloc, word.as_bytes())
}

fn first_path(alloc: Global) -> Result<List<Name>, NoMemory> {
    let mut list = List::new(alloc);
    list.push(name(alloc, "public_01_users")?)?;
    Ok(list)
}

fn asked(alloc: Global, text: &str) -> Result<Asked, NoMemory> {
    match read_migration(alloc, text.as_bytes()) {
        Ok(migration) => Ok(Asked::Read(migration)),
        Err(JsonFault::Json(path)) => Ok(Asked::Refused(Refusal::BadJson(path))),
        Err(JsonFault::BadExpr(place)) => Ok(Asked::Refused(Refusal::BadExpr(place))),
        Err(JsonFault::BadType(place)) => Ok(Asked::Refused(Refusal::BadType(place))),
        Err(JsonFault::TooLong { .. }) => Ok(Asked::Refused(Refusal::Limit(name(
            alloc,
            "migration",
        )?))),
        Err(JsonFault::NoMemory) => Err(NoMemory),
    }
}

// The most bytes of a line.
const MAX_LINE: usize = 4096;

fn reading(alloc: Global, line: &str) -> Result<Reading, NoMemory> {
    let text = line.as_bytes();
    if text.len() > MAX_LINE {
        return Ok(Reading::TooLong);
    }
    match parse_stmt(alloc, text) {
        Ok(stmt) => Ok(Reading::Stmt(stmt)),
        Err(ParseFault::Syntax { .. }) => Ok(Reading::Syntax),
        Err(ParseFault::Wide { .. }) => Ok(Reading::Wide),
        Err(ParseFault::Deep) => Ok(Reading::Deep),
        Err(ParseFault::NoMemory) => Err(NoMemory),
    }
}

fn said(alloc: Global, path: &List<Name>, line: &str) -> Result<Event, NoMemory> {
    let reading = reading(alloc, line)?;
    Ok(Event::Said(path.copy(alloc)?, reading))
}

// What a line asks for, or nothing where it only looks at the state.
fn event_of(alloc: Global, path: &List<Name>, line: &str) -> Result<Option<Event>, NoMemory> {
    let event = match line_of(line) {
        Line::Start(text) => Event::Start(asked(alloc, text)?),
        Line::Batch(count) => Event::Fill(count),
        Line::Complete => Event::Complete,
        Line::Rollback => Event::Rollback,
        Line::Lost => return Ok(None),
        Line::Said(text) => said(alloc, path, text)?,
    };
    Ok(Some(event))
}

fn path_after(alloc: Global, event: &Event, path: List<Name>) -> Result<List<Name>, NoMemory> {
    match event {
        Event::Said(_, Reading::Stmt(Stmt::SetPath(names))) => names.copy(alloc),
        _ => Ok(path),
    }
}

fn after_event(alloc: Global, lane: Lane, event: &Event) -> Result<Lane, NoMemory> {
    let (state, reply) = step(alloc, &lane.state, event)?;
    let mut told = lane.told;
    told.extend_from_slice(reply_text(alloc, &reply)?.as_slice())?;
    Ok(Lane {
        state,
        path: path_after(alloc, event, lane.path)?,
        told,
    })
}

fn taken(alloc: Global, lane: Lane, line: &str) -> Result<Lane, NoMemory> {
    match event_of(alloc, &lane.path, line)? {
        Some(event) => after_event(alloc, lane, &event),
        None => {
            let lost = lost_text(alloc, &lane.state)?;
            let mut told = lane.told;
            told.extend_from_slice(lost.as_slice())?;
            Ok(Lane {
                state: lane.state,
                path: lane.path,
                told,
            })
        }
    }
}

fn run(alloc: Global, script: &str) -> Result<Vec<u8>, NoMemory> {
    let mut lane = Lane {
        state: beginning(alloc)?,
        path: first_path(alloc)?,
        told: Vec::new(alloc),
    };
    for line in script.split('\n') {
        if !line.is_empty() {
            lane = taken(alloc, lane, line)?;
        }
    }
    Ok(lane.told)
}

#[test]
fn worked_examples_come_out(rt: HostRuntime) -> Result<(), Fail> {
    let alloc = rt.alloc();
    for (script, wanted) in SCRIPTS {
        let told = run(alloc, script)?;
        let text = std::str::from_utf8(told.as_slice()).unwrap_or("?");
        assert!(rt; text == wanted, "{script}{text}");
    }
    Ok(())
}

fn said_first(alloc: Global, reading: Reading) -> Result<Event, NoMemory> {
    let path = first_path(alloc)?;
    Ok(Event::Said(path, reading))
}

fn first_reply(alloc: Global, event: &Event) -> Result<Reply, NoMemory> {
    let state = beginning(alloc)?;
    let (_, reply) = step(alloc, &state, event)?;
    Ok(reply)
}

fn told_to(alloc: Global, reading: Reading) -> Result<Vec<u8>, NoMemory> {
    let event = said_first(alloc, reading)?;
    let reply = first_reply(alloc, &event)?;
    reply_text(alloc, &reply)
}

#[test]
fn a_line_without_a_statement_is_answered(rt: HostRuntime) -> Result<(), Fail> {
    let alloc = rt.alloc();
    let long = told_to(alloc, Reading::TooLong)?;
    assert!(rt; long.as_slice() == "ERROR 54000 statement -\n".as_bytes());
    let wide = told_to(alloc, Reading::Wide)?;
    assert!(rt; wide.as_slice() == "ERROR 22003 - -\n".as_bytes());
    let deep = told_to(alloc, Reading::Deep)?;
    assert!(rt; deep.as_slice() == "ERROR 54000 depth -\n".as_bytes());
    Ok(())
}
