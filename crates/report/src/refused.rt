//! How a refused command is told.
ghost use Rattle.std.specs.Prelude.{◌≡◌, ◌++◌, codes, decimal, OnOk};
ghost use Rattle.std.specs.Fmt.{signed_decimal};
ghost use Rattle.report.specs.Lines as spec;

use crate::telling::{code_text, push_count, push_int};
use mig_lens::{Kind, Member, Place, Refusal};
use sql_base::{Code, Name, NoMemory};
use std::alloc::Global;

fn kind_text(kind: Kind) -> &'static str
    ensures { result.now ≡ spec.kind_text kind }
{
    match kind {
        Kind::Nothing => "-",
        Kind::Complete => "complete",
        Kind::Rollback => "rollback",
    }
}

fn member_text(member: Member) -> &'static str
    ensures { result.now ≡ spec.member_text member }
{
    match member {
        Member::Up => "up",
        Member::Down => "down",
        Member::Check => "check",
        Member::Default => "default",
        Member::TypeName => "type",
    }
}

// A word.
fn push(out: &mut Vec<u8>, word: &str) -> Result<(), NoMemory>
    ensures { OnOk result (out.new.items ≡ out.old.items ++ word.now) }
{
    Ok(out.extend_from_slice(word.as_bytes())?)
}

// A word, and a name behind a space.
fn push_named(out: &mut Vec<u8>, number: &str, name: &Name) -> Result<(), NoMemory>
    ensures { OnOk result (out.new.items ≡ out.old.items ++ spec.two_words number.now name.now) }
{
    push(out, number)?;
    push(out, " ")?;
    Ok(out.extend_from_slice(name.as_slice())?)
}

// A word, and two names.
fn push_column(out: &mut Vec<u8>, number: &str, table: &Name, column: &Name) -> Result<(), NoMemory>
    ensures { OnOk result (out.new.items ≡ out.old.items ++ spec.three_words number.now table.now column.now) }
{
    push_named(out, number, table)?;
    push(out, " ")?;
    Ok(out.extend_from_slice(column.as_slice())?)
}

// A word, a name and a row's key.
fn push_row_of(
    out: &mut Vec<u8>,
    alloc: Global,
    number: &str,
    name: &Name,
    key: i64,
) -> Result<(), NoMemory>
    ensures { OnOk result (out.new.items ≡ out.old.items ++ spec.three_words number.now name.now (signed_decimal key)) }
{
    push_named(out, number, name)?;
    push(out, " ")?;
    push_int(out, alloc, key)
}

// A batch that isn't accepted.
fn push_batch(
    out: &mut Vec<u8>,
    alloc: Global,
    table: &Name,
    key: i64,
    code: Code,
) -> Result<(), NoMemory>
    ensures { OnOk result (out.new.items ≡ out.old.items ++ spec.four_words (codes "P19") table.now (signed_decimal key) (spec.code_text code)) }
{
    push_row_of(out, alloc, "P19", table, key)?;
    push(out, " ")?;
    push(out, code_text(code))
}

// A place in a migration.
fn push_place(out: &mut Vec<u8>, alloc: Global, place: &Place) -> Result<(), NoMemory>
    ensures { OnOk result (out.new.items ≡ out.old.items ++ spec.place_text place.now) }
{
    push(out, "operations[")?;
    push_count(out, alloc, place.operation)?;
    push(out, "].")?;
    push(out, member_text(place.member))
}

// A word, and a place.
fn push_placed(
    out: &mut Vec<u8>,
    alloc: Global,
    number: &str,
    place: &Place,
) -> Result<(), NoMemory>
    ensures { OnOk result (out.new.items ≡ out.old.items ++ spec.two_words number.now (spec.place_text place.now)) }
{
    push(out, number)?;
    push(out, " ")?;
    push_place(out, alloc, place)
}

fn push_kind(out: &mut Vec<u8>, kind: Kind) -> Result<(), NoMemory>
    ensures { OnOk result (out.new.items ≡ out.old.items ++ spec.two_words (codes "P3") (spec.kind_text kind)) }
{
    push(out, "P3 ")?;
    push(out, kind_text(kind))
}

fn push_script(out: &mut Vec<u8>, alloc: Global, line: u32) -> Result<(), NoMemory>
    ensures { OnOk result (out.new.items ≡ out.old.items ++ spec.two_words (codes "P21") (decimal line)) }
{
    push(out, "P21 ")?;
    push_count(out, alloc, u64::from(line))
}

/// A refusal: its number, and what is told of it.
pub fn push_refusal(out: &mut Vec<u8>, alloc: Global, refusal: &Refusal) -> Result<(), NoMemory>
    ensures { OnOk result (out.new.items ≡ out.old.items ++ spec.refusal_text refusal.now) }
{
    match refusal {
        Refusal::AlreadyActive(name) => push_named(out, "P1", name),
        Refusal::NoActive => push(out, "P2"),
        Refusal::Unfinished(kind) => push_kind(out, *kind),
        Refusal::NotFilled(table, key) => push_row_of(out, alloc, "P4", table, *key),
        Refusal::NotValid(name, key) => push_row_of(out, alloc, "P5", name, *key),
        Refusal::NameTaken(name) => push_named(out, "P6", name),
        Refusal::NoSuchTable(name) => push_named(out, "P7", name),
        Refusal::NoSuchColumn(table, name) => push_column(out, "P8", table, name),
        Refusal::Exists(name) => push_named(out, "P9", name),
        Refusal::KeyColumn(table) => push_named(out, "P10", table),
        Refusal::ColumnTwice(table, column) => push_column(out, "P11", table, column),
        Refusal::UpNeeded(table, column) => push_column(out, "P12", table, column),
        Refusal::DownNeeded(table, column) => push_column(out, "P13", table, column),
        Refusal::BadExpr(place) => push_placed(out, alloc, "P14", place),
        Refusal::BadType(place) => push_placed(out, alloc, "P15", place),
        Refusal::BadJson(path) => push_named(out, "P16", path),
        Refusal::NotInit => push(out, "P17"),
        Refusal::AlreadyInit => push(out, "P18"),
        Refusal::BackfillRefused(table, key, code) => push_batch(out, alloc, table, *key, *code),
        Refusal::Limit(quantity) => push_named(out, "P20", quantity),
        Refusal::BadScript(line) => push_script(out, alloc, *line),
    }
}
