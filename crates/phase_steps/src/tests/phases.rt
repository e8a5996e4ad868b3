//! Which command may come in which phase, and which step it takes, against what the rules say.
use crate::{Cmd, Phase, may, next_step};
use mig_lens::{Kind, Migration, Refusal};
use sql_base::{List, Name, NoMemory};
use std::alloc::Global;
use std::test::Fail;

/// A command by its words; a start is that of a migration of the second word's name.
fn command(alloc: Global, words: &str) -> Result<Cmd, NoMemory> {
    match words {
        "complete" => Ok(Cmd::Complete),
        "rollback" => Ok(Cmd::Rollback),
        "batch" => Ok(Cmd::Batch(1)),
        "status" => Ok(Cmd::Status),
        _ => Ok(Cmd::Start(Migration {
            name: Name::from_slice(alloc, words.as_bytes())?,
            operations: List::new(alloc),
        })),
    }
}

/// Of the version `one`, by a word: `both` with a migration `two` that is active, and else how many steps of which kind
/// are left.
fn phase(alloc: Global, word: &str) -> Result<Phase, NoMemory> {
    let active = match word {
        "both" => Some(Name::from_slice(alloc, b"two")?),
        _ => None,
    };
    let (left, kind) = match word {
        "2 complete" => (2, Kind::Complete),
        "1 complete" => (1, Kind::Complete),
        "1 rollback" => (1, Kind::Rollback),
        _ => (0, Kind::Nothing),
    };
    Ok(Phase {
        version: Name::from_slice(alloc, b"one")?,
        active,
        left,
        kind,
    })
}

fn number(refusal: Option<&Refusal>) -> &'static str {
    match refusal {
        None => "",
        Some(Refusal::AlreadyActive(_)) => "P1",
        Some(Refusal::NoActive) => "P2",
        Some(Refusal::Unfinished(Kind::Complete)) => "P3 COMPLETE",
        Some(Refusal::Unfinished(Kind::Rollback)) => "P3 ROLLBACK",
        Some(Refusal::NameTaken(_)) => "P6",
        Some(_) => "another",
    }
}

/// A command, a phase, the refusal, and the step, which is 0 where none is taken.
const COMMANDS: &[(&str, &str, &str, u8)] = &[
    ("two", "calm", "", 0),
    ("one", "calm", "P6", 0),
    ("complete", "calm", "P2", 0),
    ("rollback", "calm", "P2", 0),
    ("batch", "calm", "P2", 0),
    ("one", "both", "P1", 0),
    ("complete", "both", "", 1),
    ("rollback", "both", "", 4),
    ("batch", "both", "", 0),
    ("two", "2 complete", "P3 COMPLETE", 0),
    ("complete", "2 complete", "", 2),
    ("rollback", "2 complete", "P3 COMPLETE", 0),
    ("complete", "1 complete", "", 3),
    ("batch", "1 complete", "P3 COMPLETE", 0),
    ("two", "1 rollback", "P3 ROLLBACK", 0),
    ("complete", "1 rollback", "P3 ROLLBACK", 0),
    ("rollback", "1 rollback", "", 5),
    ("status", "1 rollback", "", 0),
];

#[test]
fn commands_come_by_their_phase(rt: HostRuntime) -> Result<(), Fail> {
    let alloc = rt.alloc();
    for (words, word, wanted, step) in COMMANDS {
        let cmd = command(alloc, words)?;
        let phase = phase(alloc, word)?;
        let refusal = may(alloc, &cmd, &phase)?;
        let found = number(refusal.as_ref());
        assert!(rt; found == *wanted, "{words}, {word}: {found}");
        let next = next_step(&cmd, &phase).unwrap_or(0);
        assert!(rt; next == *step, "{words}, {word}: step {next}");
    }
    Ok(())
}
