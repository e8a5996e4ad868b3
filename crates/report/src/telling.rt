//! The lines that tell a history.
ghost use Rattle.std.specs.Prelude.{◌≡◌, ◌++◌, [], true, codes, decimal, IfOk, OnOk, length, nat_lt, slice_index_or, unwrap_or};
ghost use Rattle.std.specs.Fmt.{signed_decimal};
ghost use Rattle.std.specs.List.{flat_map, list_all};
ghost use Rattle.std.specs.Option.{option_map_or};
ghost use Rattle.sql_text.specs.Printing.{value_text};
ghost use Rattle.report.specs.Lines as spec;
ghost use Rattle.report.specs.Inner.{values_text};

use crate::refused::push_refusal;
use machine::{Entry, Reply};
use mig_lens::Refusal;
use sql_base::{Code, List, Name, NoMemory, SqlBytes, Value};
use sql_text::print_value;
use std::alloc::Global;

/// A code, without the letter that its name begins with.
pub fn code_text(code: Code) -> &'static str
    ensures { result.now ≡ spec.code_text code }
{
    match code {
        Code::C22003 => "22003",
        Code::C22012 => "22012",
        Code::C22P02 => "22P02",
        Code::C23502 => "23502",
        Code::C23505 => "23505",
        Code::C23514 => "23514",
        Code::C0A000 => "0A000",
        Code::C42601 => "42601",
        Code::C42701 => "42701",
        Code::C42703 => "42703",
        Code::C42804 => "42804",
        Code::C42P01 => "42P01",
        Code::C53200 => "53200",
        Code::C54000 => "54000",
    }
}

/// A number that may be below 0.
pub fn push_int(out: &mut Vec<u8>, alloc: Global, n: i64) -> Result<(), NoMemory>
    ensures { OnOk result (out.new.items ≡ out.old.items ++ signed_decimal n) }
{
    let digits = format!(in alloc; "{n}")?;
    out.extend_from_slice(digits.as_bytes())?;
    Ok(())
}

fn push_value(out: &mut Vec<u8>, alloc: Global, value: &Value) -> Result<(), NoMemory>
    ensures { OnOk result (out.new.items ≡ out.old.items ++ value_text value.now) }
{
    let text = print_value(alloc, value)?;
    Ok(out.extend_from_slice(text.as_slice())?)
}

// Values, each behind a bar.
fn push_barred(out: &mut Vec<u8>, alloc: Global, values: &[Value]) -> Result<(), NoMemory>
    ensures { OnOk result (out.new.items ≡ out.old.items ++ flat_map (λ next. codes "|" ++ value_text next) values.now) }
{
    for value in values {
        out.extend_from_slice(b"|")?;
        push_value(out, alloc, value)?;
    }
    Ok(())
}

fn push_values(out: &mut Vec<u8>, alloc: Global, values: &[Value]) -> Result<(), NoMemory>
    ensures { OnOk result (out.new.items ≡ out.old.items ++ values_text values.now) }
{
    match values {
        [] => Ok(()),
        [first, rest @ ..] => {
            push_value(out, alloc, first)?;
            push_barred(out, alloc, rest)
        }
    }
}

fn push_row(out: &mut Vec<u8>, alloc: Global, row: &[Value]) -> Result<(), NoMemory>
    ensures { OnOk result (out.new.items ≡ out.old.items ++ spec.row_text row.now) }
{
    out.extend_from_slice(b"  ")?;
    push_values(out, alloc, row)?;
    out.extend_from_slice(b"\n")?;
    Ok(())
}

fn push_rows(out: &mut Vec<u8>, alloc: Global, rows: &[List<Value>]) -> Result<(), NoMemory>
    ensures { OnOk result (out.new.items ≡ out.old.items ++ flat_map spec.row_text rows.now) }
{
    for row in rows {
        push_row(out, alloc, row.as_slice())?;
    }
    Ok(())
}

fn push_name(out: &mut Vec<u8>, name: &Option<Name>) -> Result<(), NoMemory>
    ensures { OnOk result (out.new.items ≡ out.old.items ++ unwrap_or name.now (codes "-")) }
{
    match name {
        Some(name) => Ok(out.extend_from_slice(name.as_slice())?),
        None => Ok(out.extend_from_slice(b"-")?),
    }
}

fn push_key(out: &mut Vec<u8>, alloc: Global, key: Option<i64>) -> Result<(), NoMemory>
    ensures { OnOk result (out.new.items ≡ out.old.items ++ option_map_or signed_decimal key (codes "-")) }
{
    match key {
        Some(key) => push_int(out, alloc, key),
        None => Ok(out.extend_from_slice(b"-")?),
    }
}

fn push_error(
    out: &mut Vec<u8>,
    alloc: Global,
    code: Code,
    name: &Option<Name>,
    key: Option<i64>,
) -> Result<(), NoMemory>
    ensures { OnOk result (out.new.items ≡ out.old.items ++ spec.reply_text (Reply.Error code name.now key)) }
{
    out.extend_from_slice(b"ERROR ")?;
    out.extend_from_slice(code_text(code).as_bytes())?;
    out.extend_from_slice(b" ")?;
    push_name(out, name)?;
    out.extend_from_slice(b" ")?;
    push_key(out, alloc, key)?;
    out.extend_from_slice(b"\n")?;
    Ok(())
}

/// A number.
pub fn push_count(out: &mut Vec<u8>, alloc: Global, count: u64) -> Result<(), NoMemory>
    ensures { OnOk result (out.new.items ≡ out.old.items ++ decimal count) }
{
    let digits = format!(in alloc; "{count}")?;
    out.extend_from_slice(digits.as_bytes())?;
    Ok(())
}

fn push_select(out: &mut Vec<u8>, alloc: Global, rows: &[List<Value>]) -> Result<(), NoMemory>
    ensures { OnOk result (out.new.items ≡ out.old.items ++ spec.reply_text (Reply.Select rows.now)) }
{
    out.extend_from_slice(b"SELECT ")?;
    push_count(out, alloc, rows.len() as u64)?;
    out.extend_from_slice(b"\n")?;
    push_rows(out, alloc, rows)
}

// A word, and a number of rows, or of a step.
fn push_tag(out: &mut Vec<u8>, alloc: Global, tag: &str, count: u32) -> Result<(), NoMemory>
    ensures { OnOk result (out.new.items ≡ out.old.items ++ (tag.now ++ (decimal count ++ codes "\n"))) }
{
    out.extend_from_slice(tag.as_bytes())?;
    push_count(out, alloc, u64::from(count))?;
    Ok(out.extend_from_slice(b"\n")?)
}

fn push_start(out: &mut Vec<u8>, name: &Name) -> Result<(), NoMemory>
    ensures { OnOk result (out.new.items ≡ out.old.items ++ spec.reply_text (Reply.Start name.now)) }
{
    out.extend_from_slice(b"START ")?;
    out.extend_from_slice(b"public_")?;
    out.extend_from_slice(name.as_slice())?;
    Ok(out.extend_from_slice(b"\n")?)
}

// The number of rows of a batch, and the least and the greatest of their keys.
fn push_batch(
    out: &mut Vec<u8>,
    alloc: Global,
    count: u32,
    first: i64,
    last: i64,
) -> Result<(), NoMemory>
    ensures { OnOk result (out.new.items ≡ out.old.items ++ spec.three_words (decimal count) (signed_decimal first) (signed_decimal last)) }
{
    push_count(out, alloc, u64::from(count))?;
    out.extend_from_slice(b" ")?;
    push_int(out, alloc, first)?;
    out.extend_from_slice(b" ")?;
    push_int(out, alloc, last)
}

fn push_fill(
    out: &mut Vec<u8>,
    alloc: Global,
    table: &Name,
    count: u32,
    first: i64,
    last: i64,
) -> Result<(), NoMemory>
    ensures { OnOk result (out.new.items ≡ out.old.items ++ spec.reply_text (Reply.Fill table.now count first last)) }
{
    out.extend_from_slice(b"FILL ")?;
    out.extend_from_slice(table.as_slice())?;
    out.extend_from_slice(b" ")?;
    push_batch(out, alloc, count, first, last)?;
    Ok(out.extend_from_slice(b"\n")?)
}

fn push_refused(out: &mut Vec<u8>, alloc: Global, refusal: &Refusal) -> Result<(), NoMemory>
    ensures { OnOk result (out.new.items ≡ out.old.items ++ spec.reply_text (Reply.Refused refusal.now)) }
{
    out.extend_from_slice(b"REFUSED ")?;
    push_refusal(out, alloc, refusal)?;
    Ok(out.extend_from_slice(b"\n")?)
}

fn push_reply(out: &mut Vec<u8>, alloc: Global, reply: &Reply) -> Result<(), NoMemory>
    ensures { OnOk result (out.new.items ≡ out.old.items ++ spec.reply_text reply.now) }
{
    match reply {
        Reply::Insert(count) => push_tag(out, alloc, "INSERT 0 ", *count),
        Reply::Update(count) => push_tag(out, alloc, "UPDATE ", *count),
        Reply::Delete(count) => push_tag(out, alloc, "DELETE ", *count),
        Reply::Select(rows) => push_select(out, alloc, rows.as_slice()),
        Reply::Set => Ok(out.extend_from_slice(b"SET\n")?),
        Reply::Error { code, name, key } => push_error(out, alloc, *code, name, *key),
        Reply::Start(name) => push_start(out, name),
        Reply::Fill {
            table,
            count,
            first,
            last,
        } => push_fill(out, alloc, table, *count, *first, *last),
        Reply::Filled => Ok(out.extend_from_slice(b"FILLED\n")?),
        Reply::Complete(step) => push_tag(out, alloc, "COMPLETE ", u32::from(*step)),
        Reply::Rollback(step) => push_tag(out, alloc, "ROLLBACK ", u32::from(*step)),
        Reply::Refused(refusal) => push_refused(out, alloc, refusal),
    }
}

// The line of a reply with its number and the name of its actor, and the lines of its rows.
fn push_line(
    out: &mut Vec<u8>,
    alloc: Global,
    number: u64,
    actor: &[u8],
    reply: &Reply,
) -> Result<(), NoMemory>
    ensures { OnOk result (out.new.items ≡ out.old.items ++ spec.numbered number actor.now reply.now) }
{
    push_count(out, alloc, number)?;
    out.extend_from_slice(b" ")?;
    out.extend_from_slice(actor)?;
    out.extend_from_slice(b" ")?;
    push_reply(out, alloc, reply)
}

/// The line of a reply with its number and the name of its actor, and the lines of its rows.
pub fn line_of(alloc: Global, number: u64, actor: &str, reply: &Reply) -> Result<Vec<u8>, NoMemory>
    ensures { IfOk result (λ line. line.items ≡ spec.numbered number actor.now reply.now) }
{
    let mut out = Vec::new(alloc);
    push_line(&mut out, alloc, number, actor.as_bytes(), reply)?;
    Ok(out)
}

// The name of the actor of an entry.
fn actor_of<'a>(names: &'a [Name], entry: &Entry) -> &'a [u8]
    ensures { result.now ≡ slice_index_or names.now entry.now.actor [] }
{
    match names.get(entry.actor as usize) {
        Some(name) => name.as_slice(),
        None => b"",
    }
}

/// The lines of a history: of each entry its line and those of its rows. The actor of an entry is the place of its name
/// among these names.
pub fn lines(alloc: Global, history: &[Entry], names: &[Name]) -> Result<SqlBytes, NoMemory>
    requires { list_all (λ entry. nat_lt entry.actor (length names.now)) history.now ≡ true }
    ensures { IfOk result (λ text. text ≡ spec.lines_of names.now history.now) }
{
    let mut out = Vec::new(alloc);
    for entry in history {
        push_line(
            &mut out,
            alloc,
            u64::from(entry.number),
            actor_of(names, entry),
            &entry.reply,
        )?;
    }
    Ok(SqlBytes::from_vec(out))
}
