//! What scripts and inputs read as.

use crate::{AnyCommand, AnyLine, Order, Script, read_any_lines, read_exec, read_script};
use sql_base::{ScriptFault, SqlBytes};
use std::alloc::Global;
use std::test::Fail;

// Each text, and its script: `NAME@VERSION[TEXT][TEXT]` for each lane, and then the commands; or its first bad line.
const SCRIPTS: [(&str, &str); 20] = [
    ("-- nothing\n   \n\n", ""),
    (
        "lane l0 public_01_people\nDELETE FROM people WHERE id = 1;\nDELETE FROM people WHERE id = 2;\nSELECT id, name FROM people WHERE id = 3;\nINSERT INTO people (id, name) VALUES (8, 'v515');\ncontrol\n\\fill\n",
        "l0@public_01_people[DELETE FROM people WHERE id = 1;][DELETE FROM people WHERE id = 2;][SELECT id, name FROM people WHERE id = 3;][INSERT INTO people (id, name) VALUES (8, 'v515');] \\fill",
    ),
    (
        "lane a v\r\nA\r\n\r\n-- B\ncontrol\n\\fill\nlane 1b Public_02_AGE\nlane\ncontrol \n lane",
        "a@v[A] 1b@public_02_age[lane][control ][ lane] \\fill",
    ),
    (
        "control\n\\start {}\n\\batch 007\n\\complete\n\\rollback\n\\status",
        "\\start {} \\batch 7 \\complete \\rollback \\status",
    ),
    ("\n-- a\nSELECT 1;\nlane a v", "line 3"),
    ("\\fill\ncontrol", "line 1"),
    ("lane a", "line 1"),
    ("lane a  v", "line 1"),
    ("lane a v w", "line 1"),
    ("lane A v", "line 1"),
    ("lane a \"v\"", "line 1"),
    ("lane a select", "line 1"),
    ("lane _pgroll_ v", "line 1"),
    ("lane main v", "line 1"),
    ("lane a v\nA\n\nlane a w", "line 4"),
    ("control\nlane a v\ncontrol", "line 3"),
    ("lane a v\nA\n\\fill", "line 3"),
    ("lane a v\nA\ncontrol\nA", "line 4"),
    ("control\n\\batch 1234567890", "line 2"),
    ("control\n\\fill ", "line 2"),
];

/// The bytes that a text may have.
const LONGEST: usize = 16_777_216;

fn push_bytes(out: &mut String, bytes: &SqlBytes) -> Result<(), Fail> {
    out.push_str(str::from_utf8(bytes.as_slice())?)?;
    Ok(())
}

fn push_order(alloc: Global, out: &mut String, order: &Order) -> Result<(), Fail> {
    match order {
        Order::Start(text) => {
            out.push_str("\\start ")?;
            push_bytes(out, text)?;
        }
        Order::Batch(count) => out.push_str(format!(in alloc; "\\batch {count}")?.as_str())?,
        Order::Fill => out.push_str("\\fill")?,
        Order::Complete => out.push_str("\\complete")?,
        Order::Rollback => out.push_str("\\rollback")?,
    }
    Ok(())
}

fn push_command(alloc: Global, out: &mut String, command: &AnyCommand) -> Result<(), Fail> {
    match command {
        AnyCommand::Order(order) => push_order(alloc, out, order)?,
        AnyCommand::Status => out.push_str("\\status")?,
    }
    Ok(())
}

fn push_space(out: &mut String) -> Result<(), Fail> {
    if !out.is_empty() {
        out.push_str(" ")?;
    }
    Ok(())
}

fn shown(alloc: Global, script: &Script) -> Result<String, Fail> {
    let mut out = String::new(alloc);
    for lane in script.lanes.as_slice() {
        push_space(&mut out)?;
        out.push_str(str::from_utf8(lane.name.as_slice())?)?;
        out.push_str("@")?;
        out.push_str(str::from_utf8(lane.version.as_slice())?)?;
        for line in lane.lines.as_slice() {
            out.push_str("[")?;
            push_bytes(&mut out, line)?;
            out.push_str("]")?;
        }
    }
    for command in script.control.as_slice() {
        push_space(&mut out)?;
        push_command(alloc, &mut out, command)?;
    }
    Ok(out)
}

fn shown_fault(alloc: Global, fault: ScriptFault) -> Result<String, Fail> {
    match fault {
        ScriptFault::Line(number) => Ok(format!(in alloc; "line {number}")?),
        ScriptFault::NoMemory => Ok(String::from_str(alloc, "memory")?),
    }
}

fn script_shown(alloc: Global, text: &[u8]) -> Result<String, Fail> {
    if text.len() > LONGEST {
        return Ok(String::from_str(alloc, "too long")?);
    }
    match read_script(alloc, text) {
        Ok(script) => shown(alloc, &script),
        Err(fault) => shown_fault(alloc, fault),
    }
}

// The lanes 1 to this number, each a line.
fn lanes(alloc: Global, count: u32) -> Result<String, Fail> {
    let mut text = String::new(alloc);
    for at in 0..count {
        text.push_str(format!(in alloc; "lane l{at} v\n")?.as_str())?;
    }
    Ok(text)
}

#[test]
fn scripts_read_or_name_their_first_bad_line(rt: HostRuntime) -> Result<(), Fail> {
    for (text, script) in SCRIPTS {
        let found = script_shown(rt.alloc(), text.as_bytes())?;
        assert_eq!(rt; found.as_str(), script, "{text}");
    }
    let most = lanes(rt.alloc(), 64)?;
    assert!(rt;
        script_shown(rt.alloc(), most.as_bytes())?
            .as_str()
            .starts_with("l0@v l1@v ")
    );
    let more = lanes(rt.alloc(), 65)?;
    assert_eq!(rt;
        script_shown(rt.alloc(), more.as_bytes())?.as_str(),
        "line 65"
    );
    Ok(())
}

// Each text, how many lines it has where all commands are known, or its first bad line; and the same for the commands
// that run.
const INPUTS: [(&str, &str, &str); 4] = [
    (
        "SELECT 1;\n\\fill\n--\n\\complete\n\\rollback\n\r\n\r",
        "5",
        "5",
    ),
    ("a\n\n\\status\n", "2", "line 3"),
    ("\\status ", "line 1", "line 1"),
    ("\\rollback\n\\roll", "line 2", "line 2"),
];

fn count_shown(alloc: Global, count: Result<usize, ScriptFault>) -> Result<String, Fail> {
    match count {
        Ok(count) => Ok(format!(in alloc; "{count}")?),
        Err(fault) => shown_fault(alloc, fault),
    }
}

#[test]
fn inputs_have_these_lines(rt: HostRuntime) -> Result<(), Fail> {
    for (text, any, run) in INPUTS {
        let found = read_any_lines(rt.alloc(), text.as_bytes());
        let shown = count_shown(rt.alloc(), found.map(|lines| lines.len()))?;
        assert_eq!(rt; shown.as_str(), any, "{text}");
        let found = read_exec(rt.alloc(), text.as_bytes());
        let shown = count_shown(rt.alloc(), found.map(|lines| lines.len()))?;
        assert_eq!(rt; shown.as_str(), run, "{text}");
    }
    let lines = read_any_lines(rt.alloc(), b"a\n\\status")?;
    assert!(rt;
        matches!(
            lines.as_slice(),
            [AnyLine::Text(_), AnyLine::Command(AnyCommand::Status)]
        )
    );
    Ok(())
}
