//! What command lines ask for.

use crate::{Command, Form, Part, read_words};
use sql_base::Name;
use std::alloc::Global;
use std::test::Fail;

// Words with a space between each two, and what they ask for: the form, and the options where they aren't by default. Where
// there is nothing, they have no form.
const LINES: [(&str, &str); 22] = [
    ("init", "init"),
    ("init x", ""),
    ("Init", ""),
    ("load Users Public_01_V", "load users public_01_v"),
    ("load t select", ""),
    ("load \"t\" v", ""),
    ("gen lanes 1 4 1", "gen lanes 1 4 1"),
    ("gen all 1 2 3", ""),
    ("gen setup 1 2 3 4", ""),
    ("trial 01 4 1", "trial 1 4 1"),
    ("trial 2147483648 1 1", ""),
    ("trial 1 1 64", ""),
    ("trial +1 1 1", ""),
    ("fill --batch=007 --pause-at 7", "fill batch 7 pause 7"),
    ("--batch 5 fill", "fill batch 5"),
    ("fill --batch 0", ""),
    ("fill --batch 5 --batch 6", ""),
    ("load --batch 5 t v", "load t v batch 5"),
    ("load t --batch 5 v", ""),
    ("load -- t v", "load t v"),
    ("fill -5", ""),
    ("fill --help", ""),
];

fn push_name(out: &mut String, name: &Name) -> Result<(), Fail> {
    out.push_str(" ")?;
    out.push_str(str::from_utf8(name.as_slice())?)?;
    Ok(())
}

fn part_shown(part: Part) -> &'static str {
    match part {
        Part::Setup => "setup",
        Part::Lanes => "lanes",
    }
}

fn form_shown(alloc: Global, form: &Form) -> Result<String, Fail> {
    let word = match form {
        Form::Init => "init",
        Form::Exec => "exec",
        Form::Start => "start",
        Form::Fill => "fill",
        Form::Complete => "complete",
        Form::Rollback => "rollback",
        Form::Status => "status",
        Form::Run => "run",
        Form::Load(table, version) => {
            let mut out = String::from_str(alloc, "load")?;
            push_name(&mut out, table)?;
            push_name(&mut out, version)?;
            return Ok(out);
        }
        Form::Gen(part, number, rows, lanes) => {
            let part = part_shown(*part);
            return Ok(format!(in alloc; "gen {part} {number} {rows} {lanes}")?);
        }
        Form::Trial(number, rows, lanes) => {
            return Ok(format!(in alloc; "trial {number} {rows} {lanes}")?);
        }
    };
    Ok(String::from_str(alloc, word)?)
}

fn shown(alloc: Global, command: &Command) -> Result<String, Fail> {
    let mut out = form_shown(alloc, &command.form)?;
    if command.batch != 1000 {
        let batch = command.batch;
        out.push_str(format!(in alloc; " batch {batch}")?.as_str())?;
    }
    if command.pause_at != 18_446_744_073_709_551_615 {
        let pause = command.pause_at;
        out.push_str(format!(in alloc; " pause {pause}")?.as_str())?;
    }
    Ok(out)
}

fn line_shown(alloc: Global, words: &[&[u8]]) -> Result<String, Fail> {
    match read_words(alloc, words)? {
        Some(command) => shown(alloc, &command),
        None => Ok(String::new(alloc)),
    }
}

#[test]
fn words_ask_for_this(rt: HostRuntime) -> Result<(), Fail> {
    for (line, asked) in LINES {
        let mut words = Vec::new(rt.alloc());
        for word in line.split(' ') {
            words.push(word.as_bytes())?;
        }
        let found = line_shown(rt.alloc(), &words)?;
        assert_eq!(rt; found.as_str(), asked, "{line}");
    }
    assert!(rt; read_words(rt.alloc(), &[])?.is_none());
    assert!(rt; read_words(rt.alloc(), &[b"\xff".as_slice()])?.is_none());
    let words = [b"load".as_slice(), b"t\xff".as_slice(), b"v".as_slice()];
    assert!(rt; read_words(rt.alloc(), words.as_slice())?.is_none());
    Ok(())
}
