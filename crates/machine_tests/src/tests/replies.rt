//! Replies as text, as the program is to write them.
use machine::{Kept, Reply, State};
use mig_lens::{Kind, Member, Place, Refusal};
use sql_base::{Code, List, Name, NoMemory, Value};
use std::alloc::Global;

fn word(name: &Name) -> &str {
    std::str::from_utf8(name.as_slice()).unwrap_or("?")
}

fn push(out: &mut Vec<u8>, text: &str) -> Result<(), NoMemory> {
    Ok(out.extend_from_slice(text.as_bytes())?)
}

fn number(alloc: Global, n: i64) -> Result<String, NoMemory> {
    Ok(format!(in alloc; "{n}")?)
}

fn push_value(alloc: Global, out: &mut Vec<u8>, value: &Value) -> Result<(), NoMemory> {
    match value {
        Value::Null => push(out, "\\N"),
        Value::Int(n) => push(out, number(alloc, *n)?.as_str()),
        Value::Text(text) => push(out, text.as_str()),
        Value::Bool(true) => push(out, "true"),
        Value::Bool(false) => push(out, "false"),
    }
}

fn push_row(alloc: Global, out: &mut Vec<u8>, row: &[Value]) -> Result<(), NoMemory> {
    push(out, "  ")?;
    for (at, value) in row.iter().enumerate() {
        if at > 0 {
            push(out, "|")?;
        }
        push_value(alloc, out, value)?;
    }
    push(out, "\n")
}

fn push_rows(alloc: Global, out: &mut Vec<u8>, rows: &List<List<Value>>) -> Result<(), NoMemory> {
    push(out, "SELECT\n")?;
    for row in rows.as_slice() {
        push_row(alloc, out, row.as_slice())?;
    }
    Ok(())
}

fn code_word(code: Code) -> &'static str {
    match code {
        Code::C0A000 => "0A000",
        Code::C22003 => "22003",
        Code::C22012 => "22012",
        Code::C22P02 => "22P02",
        Code::C23502 => "23502",
        Code::C23505 => "23505",
        Code::C42601 => "42601",
        Code::C42701 => "42701",
        Code::C42703 => "42703",
        Code::C42804 => "42804",
        Code::C42P01 => "42P01",
        Code::C54000 => "54000",
        Code::C23514 => "23514",
        _ => "another code",
    }
}

fn push_error(
    alloc: Global,
    out: &mut Vec<u8>,
    code: Code,
    name: &Option<Name>,
    key: Option<i64>,
) -> Result<(), NoMemory> {
    push(out, "ERROR ")?;
    push(out, code_word(code))?;
    push(out, " ")?;
    push(
        out,
        match name {
            Some(name) => word(name),
            None => "-",
        },
    )?;
    match key {
        Some(key) => {
            push(out, " ")?;
            push(out, number(alloc, key)?.as_str())?;
            push(out, "\n")
        }
        None => push(out, " -\n"),
    }
}

fn push_two(
    alloc: Global,
    out: &mut Vec<u8>,
    what: &str,
    name: &Name,
    key: i64,
) -> Result<(), NoMemory> {
    push(out, what)?;
    push(out, word(name))?;
    push(out, " ")?;
    push(out, number(alloc, key)?.as_str())?;
    push(out, "\n")
}

fn push_name(out: &mut Vec<u8>, what: &str, name: &Name) -> Result<(), NoMemory> {
    push(out, what)?;
    push(out, word(name))?;
    push(out, "\n")
}

fn push_backfill(
    alloc: Global,
    out: &mut Vec<u8>,
    table: &Name,
    key: i64,
    code: Code,
) -> Result<(), NoMemory> {
    push(out, "REFUSED P19 ")?;
    push(out, word(table))?;
    push(out, format!(in alloc; " {key} ")?.as_str())?;
    push(out, code_word(code))?;
    push(out, "\n")
}

fn push_place(alloc: Global, out: &mut Vec<u8>, what: &str, place: Place) -> Result<(), NoMemory> {
    let member = match place.member {
        Member::Up => "up",
        Member::Down => "down",
        Member::Check => "check",
        Member::Default => "default",
        Member::TypeName => "type",
    };
    let at = place.operation;
    push(
        out,
        format!(in alloc; "{what} operations[{at}].{member}\n")?.as_str(),
    )
}

fn push_refusal(alloc: Global, out: &mut Vec<u8>, refusal: &Refusal) -> Result<(), NoMemory> {
    match refusal {
        Refusal::AlreadyActive(name) => push_name(out, "REFUSED P1 ", name),
        Refusal::NoActive => push(out, "REFUSED P2\n"),
        Refusal::Unfinished(Kind::Rollback) => push(out, "REFUSED P3 rollback\n"),
        Refusal::Unfinished(_) => push(out, "REFUSED P3 complete\n"),
        Refusal::NotFilled(table, key) => push_two(alloc, out, "REFUSED P4 ", table, *key),
        Refusal::NameTaken(name) => push_name(out, "REFUSED P6 ", name),
        Refusal::NoSuchTable(name) => push_name(out, "REFUSED P7 ", name),
        Refusal::Exists(name) => push_name(out, "REFUSED P9 ", name),
        Refusal::NotValid(constraint, key) => push_two(alloc, out, "REFUSED P5 ", constraint, *key),
        Refusal::KeyColumn(table) => push_name(out, "REFUSED P10 ", table),
        Refusal::UpNeeded(table, column) => {
            push(out, "REFUSED P12 ")?;
            push(out, word(table))?;
            push_name(out, " ", column)
        }
        Refusal::BadType(place) => push_place(alloc, out, "REFUSED P15", *place),
        Refusal::BadJson(path) => push_name(out, "REFUSED P16 ", path),
        Refusal::BackfillRefused(table, key, code) => {
            push_backfill(alloc, out, table, *key, *code)
        }
        Refusal::Limit(which) => push_name(out, "REFUSED P20 ", which),
        _ => push(out, "REFUSED otherwise\n"),
    }
}

fn push_fill(
    alloc: Global,
    out: &mut Vec<u8>,
    table: &Name,
    count: u32,
    first: i64,
    last: i64,
) -> Result<(), NoMemory> {
    push(out, "FILL ")?;
    push(out, word(table))?;
    push(
        out,
        format!(in alloc; " {count} {first} {last}\n")?.as_str(),
    )
}

/// The lines of a reply, without its number and actor. (A SELECT's number of rows is left out, and nothing is escaped.)
pub fn reply_text(alloc: Global, reply: &Reply) -> Result<Vec<u8>, NoMemory> {
    let mut out = Vec::new(alloc);
    match reply {
        Reply::Insert(count) => push(&mut out, format!(in alloc; "INSERT 0 {count}\n")?.as_str())?,
        Reply::Update(count) => push(&mut out, format!(in alloc; "UPDATE {count}\n")?.as_str())?,
        Reply::Delete(count) => push(&mut out, format!(in alloc; "DELETE {count}\n")?.as_str())?,
        Reply::Select(rows) => push_rows(alloc, &mut out, rows)?,
        Reply::Set => push(&mut out, "SET\n")?,
        Reply::Error { code, name, key } => push_error(alloc, &mut out, *code, name, *key)?,
        Reply::Start(name) => push_name(&mut out, "START public_", name)?,
        Reply::Fill {
            table,
            count,
            first,
            last,
        } => push_fill(alloc, &mut out, table, *count, *first, *last)?,
        Reply::Filled => push(&mut out, "FILLED\n")?,
        Reply::Complete(step) => push(&mut out, format!(in alloc; "COMPLETE {step}\n")?.as_str())?,
        Reply::Rollback(step) => push(&mut out, format!(in alloc; "ROLLBACK {step}\n")?.as_str())?,
        Reply::Refused(refusal) => push_refusal(alloc, &mut out, refusal)?,
    }
    Ok(out)
}

fn push_lost(alloc: Global, out: &mut Vec<u8>, rows: &[Kept]) -> Result<(), NoMemory> {
    for row in rows {
        let line = format!(in alloc; "  {}|{}\n", row.key, row.lost)?;
        push(out, line.as_str())?;
    }
    Ok(())
}

/// The key of each row and its lost weight.
pub fn lost_text(alloc: Global, state: &State) -> Result<Vec<u8>, NoMemory> {
    let mut out = Vec::new(alloc);
    push(&mut out, "LOST\n")?;
    for table in state.tables.as_slice() {
        push_lost(alloc, &mut out, table.1.as_slice())?;
    }
    Ok(out)
}
