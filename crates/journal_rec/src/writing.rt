//! Records written as bodies.
ghost use Rattle.std.specs.Prelude.{◌≡◌, ◌++◌, [], ◌∷◌, ◌<◌, ◌^◌, length, IfOk, OnOk, IfSome};
ghost use Rattle.std.specs.List.{All, flat_map};
ghost use Rattle.journal_rec.specs.Body.{IsBody, Fits, IsProper, ValueFits, ValuesFit, RowFits, IsProperValue, IsProperRow, body_of, value_bytes, rest_bytes, row_bytes};
ghost use Rattle.journal_rec.specs.Size.{body_size};

use crate::records::{Record, RecordedRow};
use sql_base::{List, NoMemory, SqlBytes, Value};
use std::alloc::Global;

fn push_value(out: &mut Vec<u8>, value: &Value) -> Result<(), NoMemory>
    requires { ValueFits value.now }
    ensures written { OnOk result (out.new.items ≡ out.old.items ++ value_bytes value.now) }
    ensures proper { OnOk result (IsProperValue value.now) }
{
    match value {
        Value::Null => out.push(0)?,
        Value::Int(number) => {
            out.push(1)?;
            out.extend_from_slice(&number.to_be_bytes())?;
        }
        Value::Text(text) => {
            out.push(2)?;
            out.extend_from_slice(&(text.len() as u16).to_be_bytes())?;
            out.extend_from_slice(text.as_str().as_bytes())?;
        }
        Value::Bool(truth) => {
            out.push(3)?;
            out.push(u8::from(*truth))?;
        }
    }
    Ok(())
}

fn push_values(out: &mut Vec<u8>, values: &[Value]) -> Result<(), NoMemory>
    requires { All ValueFits values.now }
    ensures written { OnOk result (out.new.items ≡ out.old.items ++ flat_map value_bytes values.now) }
    ensures proper { OnOk result (All IsProperValue values.now) }
{
    for value in values {
        push_value(out, value)?;
    }
    Ok(())
}

fn push_rest(out: &mut Vec<u8>, values: &Option<List<Value>>) -> Result<(), NoMemory>
    requires { IfSome values.now ValuesFit }
    ensures written { OnOk result (out.new.items ≡ out.old.items ++ rest_bytes values.now) }
    ensures proper { OnOk result (IfSome values.now (All IsProperValue)) }
{
    match values {
        None => out.push(0)?,
        Some(values) => {
            out.push(1)?;
            out.extend_from_slice(&(values.len() as u16).to_be_bytes())?;
            push_values(out, values.as_slice())?;
        }
    }
    Ok(())
}

fn push_row(out: &mut Vec<u8>, row: &RecordedRow) -> Result<(), NoMemory>
    requires { RowFits row.now }
    ensures written { OnOk result (out.new.items ≡ out.old.items ++ row_bytes row.now) }
    ensures proper { OnOk result (IsProperRow row.now) }
{
    out.extend_from_slice(&row.key.to_be_bytes())?;
    push_rest(out, &row.values)?;
    Ok(())
}

fn push_rows(out: &mut Vec<u8>, rows: &[RecordedRow]) -> Result<(), NoMemory>
    requires { All RowFits rows.now }
    ensures written { OnOk result (out.new.items ≡ out.old.items ++ flat_map row_bytes rows.now) }
    ensures proper { OnOk result (All IsProperRow rows.now) }
{
    for row in rows {
        push_row(out, row)?;
    }
    Ok(())
}

fn push_start(out: &mut Vec<u8>, text: &[u8]) -> Result<(), NoMemory>
    requires { length text.now < 2 ^ 32 }
    ensures { OnOk result (out.new.items ≡ out.old.items ++ body_of (Record.Start text.now)) }
{
    out.push(1)?;
    out.extend_from_slice(&(text.len() as u32).to_be_bytes())?;
    out.extend_from_slice(text)?;
    Ok(())
}

fn push_body(out: &mut Vec<u8>, change: &Record) -> Result<(), NoMemory>
    requires { Fits change.now }
    ensures written { OnOk result (out.new.items ≡ out.old.items ++ body_of change.now) }
    ensures proper { OnOk result (IsProper change.now) }
{
    match change {
        Record::Start(text) => push_start(out, text.as_slice())?,
        Record::Rows { table, rows } => {
            out.push(2)?;
            out.extend_from_slice(&table.to_be_bytes())?;
            out.extend_from_slice(&(rows.len() as u32).to_be_bytes())?;
            push_rows(out, rows.as_slice())?;
        }
        Record::Step(kind) => {
            out.push(3)?;
            out.push(*kind)?;
        }
    }
    Ok(())
}

/// The body of a record. An error is want of memory.
///
/// The record is to have one (`Fits`): a text is shorter than its length can say, there is a row, the keys ascend,
/// and a step is one of the five.
pub fn write_record(alloc: Global, change: &Record) -> Result<SqlBytes, NoMemory>
    requires { Fits change.now }
    ensures body { IfOk result (λ body. IsBody body change.now) }
    ensures size { IfOk result (λ body. length body ≡ body_size change.now) }
{
    let mut out = Vec::new(alloc);
    push_body(&mut out, change)?;
    Ok(SqlBytes::from_vec(out))
}
